ghost use Rattle.std.specs.Prelude.{◌≡◌, ◌<◌, ◌+◌, ◌++◌, List, [], length, position, OnOk, IfOk, IfSome};
ghost use Rattle.batches.specs.declared.command.Command.{Command};
ghost use Rattle.compaction.specs.Compacted.{commands_in, compacted_batch};
ghost use Rattle.compaction.specs.LastChanges.{AreLast, AreLastOf, changed, is_of, is_switch, last_noted, name_of, noting};

use batches::{Command, first_command};
use mapdefs::Items;
use std::alloc::{AllocError, Global};
use std::marker::Model;

/// The last CLEAR, or ON or OFF, of a layer.
#[derive(Drop)]
pub(crate) struct LastChange {
    // The name of the layer.
    name: Items<u8>,
    // It was an ON or OFF.
    is_switch: bool,
    // How many commands there were up to it.
    count: u64,
}

// The name of the layer that a command changes.
fn name_of<'a>(command: &Command<'a>) -> &'a [u8]
    ensures { result.now ≡ name_of command.now }
{
    match command {
        Command::On(name) => name.get(),
        Command::Off(name) => name.get(),
        Command::Clear(name) => name.get(),
        Command::Append(name, _) => name.get(),
    }
}

// Whether it switches a layer, and doesn't change its features.
fn is_switch(command: &Command) -> bool
    ensures { result ≡ is_switch command.now }
{
    match command {
        Command::On(_) => true,
        Command::Off(_) => true,
        Command::Clear(_) => false,
        Command::Append(_, _) => false,
    }
}

impl LastChange {
    // Whether a command changes the same of the same layer.
    fn is_of(&self, command: &Command) -> bool
        ensures { result ≡ is_of command.now self.now }
    {
        self.name.as_slice() == name_of(command) && self.is_switch == is_switch(command)
    }
}

/// The last commands of each layer that can undo others, among all that were noted.
#[derive(Drop)]
pub struct LastChanges {
    alloc: Global,
    // How many commands were noted.
    count: u64,
    last: Vec<LastChange>,
}

impl Model for LastChanges {
    ghost use Rattle.compaction.specs.LastChanges.{Changes};

    ghost Value = { Changes };

    ghost view = { λ c. record { count = c.count; last = c.last.items } };
}

impl LastChanges {
    /// No command was noted.
    pub fn new(alloc: Global) -> Self
        ensures { AreLast result [] }
    {
        LastChanges {
            alloc,
            count: 0,
            last: Vec::new(alloc),
        }
    }

    // The index of the change of the same kind and layer as a command's.
    fn index_of(&self, command: &Command) -> Option<usize>
        ensures index { result ≡ position (is_of command.now) self.now.last }
        ensures within { IfSome result (λ i. i < length self.now.last) }
    {
        self.last.iter().position(|change| change.is_of(command))
    }

    // A command is the last change of its kind and layer from now on, and this is its number.
    fn set(&mut self, command: &Command, count: u64) -> Result<(), AllocError>
        ensures count { self.new.count ≡ self.old.count }
        ensures last { OnOk result (self.new.last ≡ changed command.now count self.old.last) }
    {
        if let Some(index) = self.index_of(command) {
            self.last[index].count = count;
            return Ok(());
        }
        let name = Vec::from_slice(self.alloc, name_of(command))?;
        self.last.push(LastChange {
            name: Items::of(name),
            is_switch: is_switch(command),
            count,
        })?;
        Ok(())
    }

    // Notes a further command.
    fn note_command(&mut self, command: &Command) -> Result<(), AllocError>
        ensures count { OnOk result (self.new.count ≡ self.old.count + 1) }
        ensures last { OnOk result (self.new.last ≡ noting command.now (self.old.count + 1) self.old.last) }
    {
        let count = self.count.checked_add(1).ok_or(AllocError)?;
        match command {
            Command::Append(_, _) => {}
            _ => self.set(command, count)?,
        }
        self.count = count;
        Ok(())
    }

    /// Notes the commands of a further batch. Where memory is refused, some of them may be noted, and so it is where they would be 2^64 or more.
    pub fn note(&mut self, batch: &[u8]) -> Result<(), AllocError>
        ensures { OnOk result ((commands : List Command) → AreLast self.old commands → AreLast self.new (commands ++ commands_in batch.now)) }
    {
        let mut rest = batch;
        while !rest.is_empty() {
            let Ok((command, after)) = first_command(rest) else {
                return Ok(());
            };
            self.note_command(&command)?;
            rest = after;
        }
        Ok(())
    }

    // How many commands there were up to the last one noted that undoes this command, or 0.
    fn last_undoing(&self, command: &Command) -> u64
        ensures { result ≡ last_noted command.now self.now.last }
    {
        match self.index_of(command) {
            Some(index) => self.last[index].count,
            None => 0,
        }
    }

    /// Adds to `out` what is left of a batch, once all are noted. `before` counts the commands of those before it, and the result those up to its end.
    /// Where memory is refused, or that is 2^64 or more, some of it may be added.
    pub fn add_left(&self, before: u64, batch: &[u8], out: &mut Vec<u8>) -> Result<u64, AllocError>
        ensures { IfOk result (λ after. (earlier later : List Command)
            → AreLastOf self.now earlier batch.now later → before ≡ length earlier
            → (out.new.items ≡ out.old.items ++ compacted_batch batch.now later) × (after ≡ length (earlier ++ commands_in batch.now))) }
    {
        let mut count = before;
        let mut rest = batch;
        while !rest.is_empty() {
            let Ok((command, after)) = first_command(rest) else {
                return Ok(count);
            };
            if count == u64::MAX {
                return Err(AllocError);
            }
            count += 1;
            if self.last_undoing(&command) <= count {
                out.extend_from_slice(&rest[..rest.len() - after.len()])?;
            }
            rest = after;
        }
        Ok(count)
    }
}
