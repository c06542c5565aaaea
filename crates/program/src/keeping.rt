//! The journal of a map that is served.

ghost use Rattle.std.specs.Prelude.{◌≡◌, ◌++◌, ℕ, Bool, List, [], map, codes, IfOk, IfErr, MatchOption, OnOk};
ghost use Rattle.std.specs.Fmt.{decimal};
ghost use Rattle.compaction.specs.Compacted.{skipping};
ghost use Rattle.console.specs.Console.{IsReported};
ghost use Rattle.journal.specs.Fingerprint.{file_message};
ghost use Rattle.journalfile.specs.Settled.{GarblesNoRecord};
ghost use Rattle.subcommands.specs.Mapfiles.{TouchesNeither};
ghost use Rattle.subcommands.specs.Session.{opened};
ghost use Rattle.program.specs.Journals.{IsOpened, IsUnopened, IsWithoutLog, ReportsCut, ReportsEnd, cut_line, failure_of, fault_more, fault_message, given_message, journal_fault, journal_view, log_message, map_fingerprint, number_text};

use crate::causes::fault_of_cause;
use crate::host::{Files, Host, OpenFault};
use console::{Failure, Writes, report};
use itoa::Buffer;
use journal::{HeaderFault, JournalName, UsedFile, fingerprint_of, push_header};
use journalfile::{Journal, Log, LogFailure, RecoverFault, Recovered, read_name, recover};
use keepers::LogCause;
use mapdefs::Map;
use mapmachine::Machine;
use mapparse::Files as MapFiles;
use network::Network;
use std::alloc::{AllocError, Global};
use streams::Sink;
use subcommands::ReadMap;

/// Why a map has no journal.
#[derive(Clone, Copy, Debug)]
pub enum JournalFault {
    /// The file isn't one.
    NotAJournal,
    /// An earlier program compacted it, whose headers have no digest.
    EarlierForm,
    /// Its header is cut short, or its digest isn't that of its name.
    DamagedHeader,
    /// It is the journal of another map, or of other files.
    OtherMap,
    /// After so many records there are bytes that are no record, and a whole record after them; or more records were written with the header.
    Damaged(u64),
    /// The batch of the record of this number isn't accepted.
    Refused(u64),
    /// Its log can't be opened, made, read or written.
    Log(OpenFault),
}

impl JournalFault {
    /// The failure with which the program ends.
    pub fn failure(self) -> Failure
        ensures failure { result ≡ failure_of self }
        ensures neither { TouchesNeither result }
    {
        match self {
            JournalFault::NotAJournal
            | JournalFault::EarlierForm
            | JournalFault::DamagedHeader
            | JournalFault::OtherMap
            | JournalFault::Damaged(_)
            | JournalFault::Refused(_) => Failure::JournalFault,
            JournalFault::Log(OpenFault::NoMemory) => Failure::NoMemory,
            JournalFault::Log(_) => Failure::JournalFailed,
        }
    }

    // The number of the record, if it has one.
    #[tactic(auto, unfolding(crate::specs::Journals::fault_more))]
    fn number(self) -> Option<u64>
        ensures { MatchOption result (number_text self ≡ [])
            (λ number. (number_text self ≡ decimal number) × ((explains : Bool) → fault_more self explains ≡ [])) }
    {
        match self {
            JournalFault::Damaged(number) | JournalFault::Refused(number) => Some(number),
            _ => None,
        }
    }

    // The message on it, which a number may follow.
    #[tactic(auto, unfolding(crate::specs::Journals::fault_message))]
    fn message(self) -> &'static [u8]
        ensures { result.now ≡ fault_message self }
    {
        match self {
            JournalFault::NotAJournal => b"it is no journal",
            JournalFault::EarlierForm => {
                b"it is of an earlier form (KESMOCH JOURNAL 2), which this program doesn't read"
            }
            JournalFault::DamagedHeader => b"its header is damaged",
            JournalFault::OtherMap => b"it is of another map",
            JournalFault::Damaged(_) => b"it is damaged after record ",
            JournalFault::Refused(_) => b"the map doesn't accept record ",
            JournalFault::Log(cause) => log_message(cause),
        }
    }
}

// The message on a log that can't be opened.
#[tactic(auto, unfolding(crate::specs::Journals::log_message))]
fn log_message(cause: OpenFault) -> &'static [u8]
    ensures { result.now ≡ log_message cause }
{
    match cause {
        OpenFault::InUse => b"another program has it",
        OpenFault::NotAllowed => b"the program may not read and write it",
        OpenFault::ReadOnly => b"its file system is read-only",
        OpenFault::Full => b"its disk is full",
        OpenFault::NoTarget => b"it is a link to a file that isn't there",
        OpenFault::Appeared => b"another program makes it",
        OpenFault::Replaced => b"it was removed or replaced",
        OpenFault::NoFolder | OpenFault::Failed => b"it can't be read or written",
        OpenFault::NoMemory => b"out of memory",
    }
}

// What follows the message on a folder that is missing, where that is explained: a line of its own, without its end.
#[tactic(auto, unfolding(crate::specs::Journals::fault_more))]
fn fault_more(fault: JournalFault, explains: bool) -> &'static [u8]
    ensures { result.now ≡ fault_more fault explains }
{
    match (fault, explains) {
        (JournalFault::Log(OpenFault::NoFolder), true) => {
            b"\nerror: the folder of the journal is missing"
        }
        _ => b"",
    }
}

// Reports a fault, in parts.
fn report_parts<'a, E: Sink>(errors: &mut E, path: &'a [u8], message: &'a [u8], rest: &'a [u8])
    ensures { IsReported (⟦<E as Writes>⟧.state errors.old) (⟦<E as Writes>⟧.state errors.new)
        (codes "fault journal " ++ (path.now ++ (codes ": " ++ (message.now ++ (rest.now ++ codes "\n"))))) }
{
    report(
        errors,
        &[b"fault journal ", path, b": ", message, rest, b"\n"],
    );
}

/// Reports why a map has no journal, with the journal's path, and explains it where that is requested.
pub(crate) fn report_journal_fault<E: Sink>(
    errors: &mut E,
    path: &str,
    explains: bool,
    fault: JournalFault,
)
    ensures { IsReported (⟦<E as Writes>⟧.state errors.old) (⟦<E as Writes>⟧.state errors.new) (journal_fault path.now explains fault) }
{
    match fault.number() {
        Some(number) => {
            let mut digits = Buffer::new();
            let number = digits.format(number).as_bytes();
            report_parts(errors, path.as_bytes(), fault.message(), number);
        }
        None => report_parts(
            errors,
            path.as_bytes(),
            fault.message(),
            fault_more(fault, explains),
        ),
    }
}

// Reports that a torn tail was cut off a journal, in parts.
fn report_cut_parts<'a, E: Sink>(errors: &mut E, path: &'a [u8], length: &'a [u8])
    ensures { IsReported (⟦<E as Writes>⟧.state errors.old) (⟦<E as Writes>⟧.state errors.new)
        (codes "warning journal " ++ (path.now ++ (codes ": a torn record of " ++ (length.now ++ codes " bytes was cut off\n")))) }
{
    report(
        errors,
        &[
            b"warning journal ",
            path,
            b": a torn record of ",
            length,
            b" bytes was cut off\n",
        ],
    );
}

// Reports that a torn tail of so many bytes was cut off a journal.
fn report_cut_line<E: Sink>(errors: &mut E, path: &str, cut: u64)
    ensures { IsReported (⟦<E as Writes>⟧.state errors.old) (⟦<E as Writes>⟧.state errors.new) (cut_line path.now cut) }
{
    let mut digits = Buffer::new();
    let length = digits.format(cut).as_bytes();
    report_cut_parts(errors, path.as_bytes(), length);
}

/// Reports that a torn tail was cut off a journal, with its length, where that is requested and there was one.
pub(crate) fn report_cut<E: Sink>(errors: &mut E, path: &str, requested: bool, cut: usize)
    ensures { ReportsCut requested path.now cut (⟦<E as Writes>⟧.state errors.old) (⟦<E as Writes>⟧.state errors.new) }
{
    if requested && cut != 0 {
        report_cut_line(errors, path, cut as u64);
    }
}

/// Reports that the journal of a service failed, with the cause, where that is its outcome.
pub(crate) fn report_end<E: Sink>(
    errors: &mut E,
    path: &str,
    outcome: Result<(), Failure>,
    cause: Option<LogCause>,
)
    ensures { ReportsEnd path.now outcome cause (⟦<E as Writes>⟧.state errors.old) (⟦<E as Writes>⟧.state errors.new) }
{
    if let Err(Failure::JournalFailed) = outcome {
        report_journal_fault(
            errors,
            path,
            false,
            JournalFault::Log(fault_of_cause(cause)),
        );
    }
}

// The files of a map as they are digested for its fingerprint.
fn used_files<'a>(alloc: Global, files: &'a MapFiles) -> Result<Vec<UsedFile<'a>>, AllocError>
    ensures { IfOk result (λ used. map file_message used.items ≡ map given_message files.now) }
{
    let mut used = Vec::new(alloc);
    let given = files.as_slice();
    for file in given {
        used.push(UsedFile {
            name: file.name.as_str().as_bytes(),
            content: Some(file.bytes.as_slice()),
        })?;
    }
    Ok(used)
}

/// The fingerprint of a map that was read. The error is that memory was refused.
pub(crate) fn fingerprint_of_map(alloc: Global, read: &ReadMap) -> Result<[u8; 32], AllocError>
    ensures { IfOk result (λ fingerprint. fingerprint ≡ map_fingerprint read.now.source.items read.now.files) }
{
    let used = used_files(alloc, &read.files)?;
    Ok(fingerprint_of(&read.source, &used))
}

// A journal without a record. The error is that memory was refused.
fn header_of(alloc: Global, fingerprint: &[u8; 32]) -> Result<Vec<u8>, AllocError> {
    let mut header = Vec::new(alloc);
    let name = JournalName {
        fingerprint: *fingerprint,
        compaction: None,
    };
    push_header(&mut header, &name)?;
    Ok(header)
}

// Why a journal isn't opened, by the fault of its recovery.
impl<F: Drop> From<RecoverFault<F>> for JournalFault {
    ghost use Rattle.std.specs.Prelude.{◌≡◌};
    ghost use Rattle.program.specs.Journals.{fault_of};

    ghost from_gives = { λ fault why. why ≡ fault_of fault };

    fn from(fault: RecoverFault<F>) -> JournalFault {
        match fault {
            RecoverFault::Header(HeaderFault::NotAJournal) => JournalFault::NotAJournal,
            RecoverFault::Header(HeaderFault::EarlierForm) => JournalFault::EarlierForm,
            RecoverFault::Header(HeaderFault::Damaged) => JournalFault::DamagedHeader,
            RecoverFault::Header(HeaderFault::OtherMap) => JournalFault::OtherMap,
            RecoverFault::Damaged(number) => JournalFault::Damaged(number),
            RecoverFault::Refused(number) => JournalFault::Refused(number),
            RecoverFault::NoMemory => JournalFault::Log(OpenFault::NoMemory),
            RecoverFault::Failed(_) => JournalFault::Log(OpenFault::Failed),
        }
    }
}

// The log of a path on a host. Where there is none, it is made, without a record.
fn log_of<H: Host>(
    alloc: Global,
    host: &H,
    path: &str,
    fingerprint: &[u8; 32],
) -> Result<H::Log, JournalFault>
    ensures given { IfOk result (λ log. H.journal host.now path.now log) }
    ensures recognised { OnOk result (H.Log.reliable → (name : List ℕ) → GarblesNoRecord H.Log.garbled name) }
    ensures unopened { IfErr result (IsWithoutLog (journal_view H.journal H.unopened ⟦<H::Log as Log>⟧ H.Log.Failure.cause host.now) path.now) }
{
    let Ok(header) = header_of(alloc, fingerprint) else {
        return Err(JournalFault::Log(OpenFault::NoMemory));
    };
    match host.open_log(path, &header) {
        Ok(log) => Ok(log),
        Err(cause) => Err(JournalFault::Log(cause)),
    }
}

/// The host and the path of a journal.
#[derive(Clone, Copy)]
pub(crate) struct JournalPlace<'a, H> {
    /// The host that has it.
    pub host: &'a H,
    /// Its path there.
    pub path: &'a str,
}

/// A journal that was opened.
#[derive(Drop)]
pub(crate) struct OpenedJournal<L> {
    /// The machine after its batches.
    pub machine: Machine,
    /// The journal.
    pub journal: Journal<L>,
    /// How many bytes of a torn tail were cut off.
    pub cut: usize,
}

// The machine of a map after so many batches that were left out of its journal. The error is that memory was refused.
fn machine_at(alloc: Global, map: Map, skipped: u64) -> Result<Machine, JournalFault>
    ensures machine { IfOk result (λ machine. machine ≡ skipping skipped (opened map)) }
    ensures fault { IfErr result (λ why. why ≡ JournalFault.Log OpenFault.NoMemory) }
{
    match Machine::open_at(alloc, map, skipped) {
        Ok(machine) => Ok(machine),
        Err(_) => Err(JournalFault::Log(OpenFault::NoMemory)),
    }
}

/// Opens the journal of a map, with the map's machine in the state after its batches. Where there is no journal, one is made.
pub(crate) fn open_journal<H: Host>(
    alloc: Global,
    place: JournalPlace<'_, H>,
    fingerprint: [u8; 32],
    map: Map,
) -> Result<OpenedJournal<H::Log>, JournalFault>
    ensures opened { IfOk result (λ found. IsOpened (journal_view H.journal H.unopened ⟦<H::Log as Log>⟧ H.Log.Failure.cause place.entry.host.now)
        place.entry.path.now fingerprint (opened map) found.machine found.journal found.cut) }
    ensures recognised { OnOk result (H.Log.reliable → (name : List ℕ) → GarblesNoRecord H.Log.garbled name) }
    ensures fault { IfErr result (IsUnopened (journal_view H.journal H.unopened ⟦<H::Log as Log>⟧ H.Log.Failure.cause place.entry.host.now)
        place.entry.path.now fingerprint (opened map)) }
{
    let mut log = log_of(alloc, place.host, place.path, &fingerprint)?;
    let name = read_name(alloc, &fingerprint, &mut log)?;
    let mut machine = machine_at(alloc, map, name.skipped())?;
    let Recovered { count, length, cut } = recover(alloc, &name, &mut log, &mut machine)?;
    Ok(OpenedJournal {
        machine,
        journal: Journal {
            alloc,
            log,
            name,
            count,
            length: length as u64,
        },
        cut,
    })
}
