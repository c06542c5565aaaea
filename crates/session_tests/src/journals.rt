//! The program with a journal.

use crate::hosts::{arguments_of, run_program};
use crate::texts::{columns, spelt};
use service::Runtime;
use std::alloc::AllocError;
use std::sync::atomic::Ordering;
use test_tables::{TableFault, check_all};

// Arguments with spaces between them, the letters of the ports, and how the program ends. The end has the exit status with the failure,
// the sum of the sequences that were published, how often administrators got the line that a batch isn't kept, and how often the wait for
// a client was ended. Then it has how many bytes were added to the journal, the output, and the errors. `~` is a line feed. A record of an empty batch has 42 bytes.
const JOURNALS: &str = "\
serve a.map --port 81 --admin-port 82 --connections 1 --journal fresh.journal|c b|0 done 1 0 0 42|listening a port another port~|
serve a.map --port 81 --admin-port 82 --connections 2 --journal fresh.journal|cc bb|0 done 3 0 0 84|listening a port another port~|
serve a.map --port 81 --admin-port 82 --connections 1 --journal kept.journal|c b|0 done 2 0 0 42|listening a port another port~|
serve a.map --port 81 --admin-port 82 --connections 1 --journal torn.journal|c b|0 done 2 0 0 42|listening a port another port~|
serve --explain a.map --port 81 --admin-port 82 --connections 1 --journal torn.journal|c b|0 done 2 0 0 42|listening a port another port~|a.map: warning: the service has no wms_onlineresource, and http://localhost/wms? has no port~warning journal torn.journal: a torn record of 10 bytes was cut off~
serve --explain a.map --port 81 --admin-port 82 --connections 1 --journal kept.journal|c b|0 done 2 0 0 42|listening a port another port~|a.map: warning: the service has no wms_onlineresource, and http://localhost/wms? has no port~
serve a.map --port 81 --admin-port 82 --connections 2 --checkpoint 1 --journal fresh.journal|cc bb|0 done 3 0 0 84|listening a port another port~|
# the sequence goes on after a batch that was left out
serve a.map --port 81 --admin-port 82 --connections 1 --journal compacted.journal|c b|0 done 2 0 0 42|listening a port another port~|
serve a.map --port 81 --admin-port 82 --connections 1 --journal kept.journal|c r|0 done 0 0 0 0|listening a port another port~|
serve a.map --port 81 --admin-port 82 --connections 1|c b|0 done 1 0 0 0|listening a port another port~|
# a journal that fails ends the wait for a client, and the program
serve a.map --port 81 --admin-port 82 --journal stuck.journal|w b|3 JournalFailed 0 1 1 0|listening a port another port~|fault journal stuck.journal: it can't be read or written~
serve a.map --port 81 --admin-port 82 --journal filled.journal|w b|3 JournalFailed 0 1 1 0|listening a port another port~|fault journal filled.journal: its disk is full~
serve a.map --port 81 --admin-port 82 --journal moved.journal|w b|3 JournalFailed 0 1 1 0|listening a port another port~|fault journal moved.journal: it was removed or replaced~
serve a.map --port 81 --admin-port 82 --journal forbidden.journal|w b|3 JournalFailed 0 1 1 0|listening a port another port~|fault journal forbidden.journal: the program may not read and write it~
serve a.map --port 81 --admin-port 82 --journal remounted.journal|w b|3 JournalFailed 0 1 1 0|listening a port another port~|fault journal remounted.journal: its file system is read-only~
serve --explain a.map --port 81 --admin-port 82 --connections 1 --journal stuck.journal|c b|3 JournalFailed 0 1 1 0|listening a port another port~|a.map: warning: the service has no wms_onlineresource, and http://localhost/wms? has no port~fault journal stuck.journal: it can't be read or written~
# none of these is listened with
serve a.map --port 81 --admin-port 82 --journal none.journal||1 JournalFault 0 0 0 0||fault journal none.journal: it is no journal~
serve a.map --port 81 --admin-port 82 --journal other.journal||1 JournalFault 0 0 0 0||fault journal other.journal: it is of another map~
serve a.map --port 81 --admin-port 82 --journal earlier.journal||1 JournalFault 0 0 0 0||fault journal earlier.journal: it is of an earlier form (KESMOCH JOURNAL 2), which this program doesn't read~
serve a.map --port 81 --admin-port 82 --journal unsealed.journal||1 JournalFault 0 0 0 0||fault journal unsealed.journal: its header is damaged~
serve a.map --port 81 --admin-port 82 --journal missing.journal||1 JournalFault 0 0 0 0||fault journal missing.journal: it is damaged after record 0~
serve t.map --port 81 --admin-port 82 --journal kept.journal||1 JournalFault 0 0 0 0||fault journal kept.journal: it is of another map~
serve a.map --port 81 --admin-port 82 --journal damaged.journal||1 JournalFault 0 0 0 0||fault journal damaged.journal: it is damaged after record 0~
serve a.map --port 81 --admin-port 82 --journal refused.journal||1 JournalFault 0 0 0 0||fault journal refused.journal: the map doesn't accept record 1~
serve a.map --port 81 --admin-port 82 --journal locked.journal||3 JournalFailed 0 0 0 0||fault journal locked.journal: another program has it~
serve a.map --port 81 --admin-port 82 --journal folder||3 JournalFailed 0 0 0 0||fault journal folder: it can't be read or written~
serve a.map --port 81 --admin-port 82 --journal denied.journal||3 JournalFailed 0 0 0 0||fault journal denied.journal: the program may not read and write it~
serve a.map --port 81 --admin-port 82 --journal cd.journal||3 JournalFailed 0 0 0 0||fault journal cd.journal: its file system is read-only~
serve a.map --port 81 --admin-port 82 --journal full.journal||3 JournalFailed 0 0 0 0||fault journal full.journal: its disk is full~
serve a.map --port 81 --admin-port 82 --journal link.journal||3 JournalFailed 0 0 0 0||fault journal link.journal: it is a link to a file that isn't there~
serve a.map --port 81 --admin-port 82 --journal away/a.journal||3 JournalFailed 0 0 0 0||fault journal away/a.journal: it can't be read or written~
serve --explain a.map --port 81 --admin-port 82 --journal away/a.journal||3 JournalFailed 0 0 0 0||a.map: warning: the service has no wms_onlineresource, and http://localhost/wms? has no port~fault journal away/a.journal: it can't be read or written~error: the folder of the journal is missing~
serve --explain a.map --port 81 --admin-port 82 --journal folder||3 JournalFailed 0 0 0 0||a.map: warning: the service has no wms_onlineresource, and http://localhost/wms? has no port~fault journal folder: it can't be read or written~
serve a.map --port 81 --admin-port 82 --journal made.journal||3 JournalFailed 0 0 0 0||fault journal made.journal: another program makes it~
serve a.map --port 81 --admin-port 82 --journal small.journal||4 NoMemory 0 0 0 0||fault journal small.journal: out of memory~
serve c.map --port 81 --admin-port 82 --journal none.journal||1 FileFailed 0 0 0 0||fault file c.map~
serve a.map --port 80 --journal kept.journal||3 ListenFailed { port: 80, cause: NotAllowed } 0 0 0 0||";

// How the program ends on a host whose ports have those letters.
fn ended<R: Runtime>(
    rt: &R,
    system: &HostRuntime,
    arguments: &str,
    letters: &str,
) -> Result<String, AllocError> {
    let arguments = arguments_of(rt.alloc(), arguments)?;
    let (end, counts, written) = run_program(rt, system, Ok(arguments), letters)?;
    format!(in rt.alloc();
        "{end} {} {} {} {}|{written}",
        counts.published.load(Ordering::SeqCst),
        counts.failed.load(Ordering::SeqCst),
        counts.stopped.load(Ordering::SeqCst),
        counts.kept.load(Ordering::SeqCst)
    )
}

// Whether the program ends as a row says.
fn is_ended<R: Runtime>(rt: &R, system: &HostRuntime, line: &str) -> Result<bool, AllocError> {
    let row = spelt(rt.alloc(), line)?;
    let (arguments, letters, expected) = columns(row.as_str());
    let found = ended(rt, system, arguments, letters)?;
    Ok(found.as_str() == expected)
}

#[test]
fn batches_are_kept_in_the_journal_that_is_named(rt: HostRuntime) -> Result<(), TableFault> {
    check_all(rt.alloc(), JOURNALS, 37, |_, line| is_ended(&rt, &rt, line))
}
