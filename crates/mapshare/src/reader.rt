ghost use Rattle.std.specs.Prelude.{◌≡◌, ◌⊎◌, ◌+◌, ◌<◌, [], length, IfOk, IsErrOf};
ghost use Rattle.std.specs.Borrow.{sem, RestsIfErr};
ghost use mathlib.Core.List.{IsPrefix};
ghost use Rattle.sharing.specs.Reply.{IsAnswerAfter};
ghost use Rattle.mapmachine.specs.Machine.{IsAnswer};
ghost use Rattle.batches.specs.Batch.{accepted};
ghost use Rattle.mapshare.specs.Reader.{entered, free, freed};
ghost use Rattle.mapshare.specs.contracts.reader.Reader.{the_row as reader_row};

use crate::receipt::Receipt;
use crate::rule::{MapReader, MapReading, Sees, Sharing};
use answers::Answer;
use history::Prefix;
use std::alloc::AllocError;
use std::marker::Model;

/// Why a reader can't enter.
#[derive(Debug, Drop)]
pub enum Closed {
    /// There is no map to enter: the administrator has closed, or an entry that was leaked has the reader's part. No
    /// clause says when the two copies give a map.
    NoGuard,
    /// The copy of the map that the reader would enter lacks a batch of which the reader learned by a receipt. A reader
    /// that knows no more than its last entry showed never gets this.
    Behind,
}

/// A reader of a shared map. Contracts see it as the batches that it knows to be published, those that its last entry
/// showed, and whether it may enter.
#[derive(Drop)]
pub struct Reader<S: Sharing> {
    // It is missing while an entry has it.
    end: Option<MapReader<S>>,
    // The batches that the last entry showed.
    seen: Prefix<S>,
    // The longest of the batches that were shown and those of each receipt.
    known: Prefix<S>,
}

impl<S: Sharing> Model for Reader<S> {
    ghost use Rattle.std.specs.Prelude.{is_some, IfSome};
    ghost use mathlib.Core.List.{IsPrefix};
    ghost use Rattle.left_right.specs.Sides.{view as seen_by};
    ghost use Rattle.mapshare.specs.Reader.{ReaderValue};

    ghost Value = { ReaderValue };

    ghost view = { λ r. record { known = r.known; seen = r.seen; is_free = is_some r.end } };

    ghost invariant = { λ r. IfSome r.end (λ end. IsPrefix r.seen (seen_by end.place).seen) };
}

/// The published map as one reader sees it. Contracts see it as the machine after these batches.
pub struct Shown<S: Sharing> {
    reading: MapReading<S>,
}

impl<S: Sharing> Model for Shown<S> {
    ghost use Rattle.std.specs.Prelude.{◌≡◌, ℕ, List};
    ghost use Rattle.left_right.specs.Sides.{view as seen_by};
    ghost use Rattle.mapshare.specs.Replica.{IsMade, shape_of};

    ghost Value = { List (List ℕ) };

    ghost view = { λ s. s.reading.part.value.prefix };

    ghost invariant = { λ s. IsMade S.opening (shape_of s.reading.part.value) × ((seen_by s.reading.place).seen ≡ s.reading.part.value.prefix) };
}

/// Returns the end of a reader.
pub trait Ends<S: Sharing> {
    ghost use Rattle.std.specs.Prelude.{◌≡◌, ℕ, List};
    ghost use Rattle.left_right.specs.Sides.{view as seen_by};

    /// The batches that were shown.
    ghost shows: { Self → List (List ℕ) };

    /// Ends the reading. It returns the end of the reader, and the batches that were shown.
    fn end(self) -> (MapReader<S>, Prefix<S>)
        ensures seen { (seen_by result.0.place).seen ≡ shows self }
        ensures prefix { result.1 ≡ shows self };
}

impl<S: Sharing> Ends<S> for Shown<S> {
    ghost shows = { λ shown. shown };

    fn end(self) -> (MapReader<S>, Prefix<S>) {
        let Self { reading } = self;
        let prefix = reading.get().prefix.copy();
        (reading.leave(), prefix)
    }
}

/// An entry of a reader by an X, which ends when it is dropped.
pub struct Entry<'a, S: Sharing, X: Ends<S>> {
    home: &'a mut Reader<S>,
    shown: X,
}

/// An entry of a reader: the machine after the batches that it shows. It ends when it is dropped.
pub type Entered<'a, S> = Entry<'a, S, Shown<S>>;

impl<S: Sharing> Shown<S> {
    // The batches that are shown.
    fn prefix(&self) -> Prefix<S>
        ensures { result ≡ self.now }
    {
        self.reading.get().prefix.copy()
    }

    // The sequence of the machine that is shown.
    fn sequence(&self) -> u64
        ensures { result ≡ S.opening.sequence + length self.now }
    {
        self.reading.get().machine.sequence()
    }

    // The answer of the machine that is shown.
    fn answer(&self, query: &[u8]) -> Result<Answer, AllocError>
        ensures { IfOk result (λ answer. IsAnswerAfter S.opening accepted IsAnswer query.now answer self.now) }
    {
        self.reading.get().machine.reply(query)
    }
}

impl<S: Sharing> Reader<S> {
    // A reader that knows no batch, by the prefix that has none.
    pub(crate) fn new(end: MapReader<S>, none: Prefix<S>) -> Self
        requires empty { none ≡ [] }
        ensures { result ≡ free [] }
    {
        Reader {
            end: Some(end),
            seen: none.copy(),
            known: none,
        }
    }

    /// Takes in a receipt. The reader's known batches begin those of the receipt, or the other way round; the reader
    /// knows the longer ones from then on.
    pub fn learn(&mut self, receipt: Receipt<S>)
        ensures one { (self.new ≡ self.old) ⊎ (self.new ≡ record self.old { known = receipt }) }
        ensures kept { IsPrefix self.old.known self.new.known }
        ensures learned { IsPrefix receipt self.new.known }
    {
        self.known = self.known.longer(receipt.prefix());
    }

    /// Enters: the entry shows batches that begin with all that the reader knows, and the reader knows them from then
    /// on. The copies keep it true that they begin with those of earlier entries. So they are fewer than the reader
    /// knows only where it learned of more by a receipt.
    pub fn enter(&mut self) -> Result<Entered<'_, S>, Closed>
        ensures* closed { sem 𝓛
            (RestsIfErr (reader_row S.row (record { opening = S.opening }) (record { book = S.book })) self.entry (λ e. e.home.ghost_name) result
            (λ n. n ≡ self.old)) }
        ensures same_reference { IfOk result (λ e. e.home.ghost_name ≡ self.entry.ghost_name) }
        ensures known { IfOk result (λ e. IsPrefix self.old.known e.shown) }
        ensures knows { IfOk result (λ e. e.home.now ≡ entered e.shown) }
        ensures behind { IsErrOf result Closed.Behind → length self.old.seen < length self.old.known }
    {
        let Some(end) = self.end.take() else {
            return Err(Closed::NoGuard);
        };
        match end.enter_as::<Sees<S>>() {
            Ok(reading) => {
                let shown = Shown { reading };
                let prefix = shown.prefix();
                if prefix.len() < self.known.len() {
                    self.end = Some(shown.end().0);
                    return Err(Closed::Behind);
                }
                let _both = prefix.longer(&self.known);
                self.seen = prefix.copy();
                self.known = prefix;
                Ok(Entry { home: self, shown })
            }
            Err(end) => {
                self.end = Some(end);
                Err(Closed::NoGuard)
            }
        }
    }
}

impl<S: Sharing> Entry<'_, S, Shown<S>> {
    /// The sequence after the batches that are shown.
    pub fn sequence(&self) -> u64
        ensures { result ≡ S.opening.sequence + length self.now.shown }
    {
        self.shown.sequence()
    }

    /// Ends the entry, as dropping it does: the reader keeps what it knows, was shown these batches, and may enter
    /// again.
    pub fn leave(self)
        ensures { self.exit.0.now ≡ freed self.entry.home.now self.entry.shown }
    {
        drop(self);
    }

    /// The answer to a query in the state after the batches that are shown. The one error is that memory was refused.
    pub fn answer(&self, query: &[u8]) -> Result<Answer, AllocError>
        ensures { IfOk result (λ answer. IsAnswerAfter S.opening accepted IsAnswer query.now answer self.now.shown) }
    {
        self.shown.answer(query)
    }
}

impl<S: Sharing, X: Ends<S>> Drop for Entry<'_, S, X> {
    fn drop(self)
        ensures { self.exit.0.now ≡ freed self.entry.home.now (X.shows self.entry.shown) }
    {
        let Self { home, shown } = self;
        let (end, seen) = shown.end();
        home.end = Some(end);
        home.seen = seen;
    }
}
