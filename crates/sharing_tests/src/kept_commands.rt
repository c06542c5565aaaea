ghost use Rattle.std.specs.Prelude.{◌≡◌};

use crate::maps::{machine, shown};
use crate::memory::{Coming, Going};
use administration::{AdministerFault, Client, administer_kept};
use history::Blank;
use keepers::{KeepFault, Keeps, LogCause};
use mapmachine::Machine;
use mapshare::{Sharing, open};
use std::alloc::{AllocError, Global};
use std::io::BufReader;
use std::marker::Brand;
use std::sync::Wait;
use streams::Flagged;
use test_tables::{TableFault, check_rows};

// A keeper in memory, which counts its calls and fails at the call of a number.
#[derive(Drop)]
struct Counted {
    kept: usize,
    calls: usize,
    failing: usize,
}

impl Keeps for Counted {
    ghost reliable = { Unit {0} };

    ghost keeps = { λ _ _. Unit {0} };

    ghost moment = { λ _. 0 };

    ghost left_since = { λ _ _ _. ⊥ };

    ghost stands = { λ _ _ _. Unit {0} };

    ghost fails = { λ _. Unit {0} };

    ghost stays = { λ _ _ _ _ _ _. tt };

    fn keep(&mut self, batches: &[Vec<u8>]) -> Result<(), KeepFault> {
        self.calls = self.calls.saturating_add(1);
        if self.calls == self.failing {
            return Err(KeepFault::Failed(LogCause::Other));
        }
        self.kept = self.kept.saturating_add(batches.len());
        Ok(())
    }
}

// A connection whose batches are kept.
#[derive(Drop)]
struct Pipe {
    client: Client<Flagged<BufReader<Coming>>, Flagged<Going>>,
    keeper: Counted,
}

// How a connection ended: its lines, its fault, the batches that are kept by so many calls, and its bytes that weren't read.
fn end_of(
    alloc: Global,
    pipe: &Pipe,
    served: Result<(), AdministerFault>,
) -> Result<String, AllocError> {
    let lines = shown(alloc, &pipe.client.writer.inner().held)?;
    let fault = match served {
        Ok(()) => "",
        Err(AdministerFault::PutFailed) => " cut",
        Err(AdministerFault::KeepFailed(_)) => " failed",
    };
    let Counted { kept, calls, .. } = pipe.keeper;
    let reader = pipe.client.reader.inner();
    let left = reader
        .buffer()
        .len()
        .saturating_add(reader.get_ref().left());
    format!(in alloc; "{lines}{fault} {kept} by {calls}, {left} left")
}

// Shares a map, and serves a connection. The end is none where the map isn't shared.
fn serve<S: Sharing, R: AllocGlobal + Wait>(
    rt: &R,
    blank: Blank,
    machine: &Machine,
    mut pipe: Pipe,
) -> Option<Result<String, AllocError>>
    requires history { blank.seen.book ≡ S.book }
    requires opening { machine.now ≡ S.opening }
{
    let (admin, _readers) = open::<S, Counted, R>(rt, blank, machine, 1).ok()?;
    let (admin, served) = administer_kept(rt, admin, &mut pipe.keeper, &mut pipe.client);
    admin.close(rt);
    Some(end_of(rt.alloc(), &pipe, served))
}

// A number of a row, 0 for none.
fn number_of(text: Option<&str>) -> usize {
    text.and_then(|text| text.parse().ok()).unwrap_or(0)
}

// The end of the connection of a row: how many bytes come at once, which call of the keeper fails, how many bytes the writer takes, and the bytes, in
// which LF is written `~`.
fn result_of_row<R: AllocGlobal + Wait>(rt: &R, row: &str) -> Result<String, AllocError> {
    let alloc = rt.alloc();
    let mut words = row.splitn(4, ' ');
    let at_once = number_of(words.next());
    let failing = number_of(words.next());
    let room = number_of(words.next());
    let text = words.next().unwrap_or("").replace(alloc, '~', "\n")?;
    let coming = Coming::new(Vec::from_slice(alloc, text.as_bytes())?, at_once, false);
    let Ok(reader) = BufReader::new(alloc, coming) else {
        return Err(AllocError);
    };
    let client = Client {
        reader: Flagged::new(reader),
        writer: Flagged::new(Going::new(alloc, room)),
    };
    let pipe = Pipe {
        client,
        keeper: Counted {
            kept: 0,
            calls: 0,
            failing,
        },
    };
    let machine = machine(alloc)?;
    serve::<Brand, R>(rt, Blank::new(), &machine, pipe).unwrap_or(Err(AllocError))
}

// What a connection ends with, `|`, how many bytes come at once, the call of the keeper that fails, how many bytes the writer takes, and the bytes.
const KEPT: &str = "\
# batches that come together are kept by one call
PUBLISHED 1~PUBLISHED 2~PUBLISHED 3~ 3 by 1, 0 left|900 0 900 BATCH 6~OFF a~BATCH 5~ON a~BATCH 0~
# those that come apart aren't
PUBLISHED 1~PUBLISHED 2~PUBLISHED 3~ 3 by 3, 0 left|1 0 900 BATCH 6~OFF a~BATCH 5~ON a~BATCH 0~
PUBLISHED 1~PUBLISHED 2~PUBLISHED 3~ 3 by 2, 0 left|27 0 900 BATCH 6~OFF a~BATCH 5~ON a~BATCH 0~
# a batch that is refused ends them, and so does another command
PUBLISHED 1~REFUSED 1 2~PUBLISHED 2~ 2 by 2, 0 left|900 0 900 BATCH 6~OFF a~BATCH 6~ON zz~BATCH 5~ON a~
REFUSED 1 2~PUBLISHED 1~PUBLISHED 2~ 2 by 1, 0 left|900 0 900 BATCH 6~ON zz~BATCH 6~OFF a~BATCH 5~ON a~
REFUSED 1 2~REFUSED 1 1~ 0 by 0, 0 left|900 0 900 BATCH 6~ON zz~BATCH 1~~
PUBLISHED 1~IDLE~PUBLISHED 2~ 2 by 2, 0 left|900 0 900 BATCH 6~OFF a~RETRY~BATCH 5~ON a~
PUBLISHED 1~PUBLISHED 2~MALFORMED~ 2 by 1, 6 left|900 0 900 BATCH 6~OFF a~BATCH 5~ON a~HELLO~RETRY~
# an end within a batch
PUBLISHED 1~PUBLISHED 2~ 2 by 1, 0 left|900 0 900 BATCH 6~OFF a~BATCH 5~ON a~BATCH 6~OFF
# the keeper fails
FAILED~ failed 0 by 1, 0 left|900 1 900 BATCH 6~OFF a~
FAILED~FAILED~FAILED~ failed 0 by 1, 6 left|900 1 900 BATCH 6~OFF a~BATCH 5~ON a~BATCH 0~RETRY~
REFUSED 1 2~FAILED~FAILED~ failed 0 by 1, 0 left|900 1 900 BATCH 6~ON zz~BATCH 6~OFF a~BATCH 5~ON a~
PUBLISHED 1~REFUSED 1 2~FAILED~FAILED~ failed 1 by 2, 0 left|900 2 900 BATCH 6~OFF a~BATCH 6~ON zz~BATCH 5~ON a~BATCH 0~
PUBLISHED 1~IDLE~FAILED~ failed 1 by 2, 0 left|900 2 900 BATCH 6~OFF a~RETRY~BATCH 5~ON a~
# the writer fails, in the first line, in the second, and in that of another command
PUBLISHE cut 2 by 1, 8 left|900 0 8 BATCH 6~OFF a~BATCH 5~ON a~BATCH 6~
PUBLISHED 1~PUBL cut 2 by 1, 0 left|900 0 16 BATCH 6~OFF a~BATCH 5~ON a~
PUBLISHED 1~ID cut 1 by 1, 8 left|900 0 14 BATCH 6~OFF a~RETRY~BATCH 0~
PUBLISHED 1~FAIL failed 1 by 2, 0 left|14 2 16 BATCH 6~OFF a~BATCH 5~ON a~";

#[test]
fn batches_that_come_together_are_kept_together(rt: HostRuntime) -> Result<(), TableFault> {
    check_rows(rt.alloc(), KEPT, '|', 18, |_, row| result_of_row(&rt, row))
}

// How so many empty batches are kept that come together.
fn result_of_many<R: AllocGlobal + Wait>(rt: &R, row: &str) -> Result<String, AllocError> {
    let alloc = rt.alloc();
    let batches = "BATCH 0~".repeat(alloc, number_of(Some(row)))?;
    let row = format!(in alloc; "8000 0 8000 {batches}")?;
    let end = result_of_row(rt, row.as_str())?;
    let (_, kept) = end.as_str().rsplit_once("~ ").unwrap_or(("", ""));
    String::from_str(alloc, kept)
}

// No more than 64 are kept by one call.
const MANY: &str = "\
64 by 1, 0 left|64
65 by 2, 0 left|65
129 by 3, 0 left|129";

#[test]
fn at_most_64_batches_are_kept_together(rt: HostRuntime) -> Result<(), TableFault> {
    check_rows(rt.alloc(), MANY, '|', 3, |_, row| result_of_many(&rt, row))
}
