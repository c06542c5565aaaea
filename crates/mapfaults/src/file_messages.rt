ghost use Rattle.std.specs.Prelude.{◌≡◌, Some, option_map, IfOk, IfSome};
ghost use Rattle.mapparse.specs.Uses.{uses_of};
ghost use Rattle.mapfaults.specs.Missing.{AreOnCause, AreOnFiles, NamesMissing, begins_with_late_control, first_missing, has_control, is_control_byte, is_missing, missing_message};

use crate::columns::message_on_columns;
use crate::unread_value::{TableRow, message_on_value};
use csvpoints::{CsvFault, CsvKind};
use mapdefs::Text;
use mapparse::{FileCause, FileFault, Files, Mapfile};
use std::alloc::{AllocError, Global};

/// A mapfile: its source, what was parsed of it, and the files that it is given.
#[derive(Clone, Copy)]
pub struct MapfileAtHand<'a> {
    /// The source.
    pub source: &'a [u8],
    /// What was parsed of it.
    pub mapfile: &'a Mapfile,
    /// The files.
    pub files: &'a Files,
}

// Whether a byte is a character below U+0020, or U+007F.
fn is_control_byte(byte: u8) -> bool
    ensures { result ≡ is_control_byte byte }
{
    byte < 32 || byte == 127
}

// Whether bytes begin with a character from U+0080 to U+009F.
fn begins_with_late_control(bytes: &[u8]) -> bool
    ensures { result ≡ begins_with_late_control bytes.now }
{
    match bytes {
        [first, second, ..] => *first == 194 && *second < 160,
        _ => false,
    }
}

// Whether a name has a control character.
fn has_control(name: &str) -> bool
    ensures { result ≡ has_control name.now }
{
    let bytes = name.as_bytes();
    for i in 0..bytes.len() {
        if is_control_byte(bytes[i]) || begins_with_late_control(&bytes[i..]) {
            return true;
        }
    }
    false
}

// The message on a file that can't be read, by its name and the keyword that names it.
fn missing_message(alloc: Global, name: &str, keyword: &str) -> Result<Text, AllocError>
    ensures { IfOk result (λ message. message ≡ missing_message name.now keyword.now) }
{
    if has_control(name) {
        return Ok(Text::of(format!(in alloc; "the file that {keyword} names can't be read")?));
    }
    Ok(Text::of(format!(in alloc; "the file {name}, which {keyword} names, can't be read")?))
}

// Whether a file is missing.
fn is_missing(files: &Files, name: &str) -> bool
    ensures { result ≡ is_missing files.now name.now }
{
    match files.bytes(name) {
        Some(_) => false,
        None => true,
    }
}

// The first of some files that is missing.
fn first_missing<'a>(names: &'a [Text], files: &Files) -> Option<&'a Text>
    ensures { option_map (λ name. name.now) result ≡ first_missing files.now names.now }
{
    for name in names {
        if is_missing(files, name.as_str()) {
            return Some(name);
        }
    }
    None
}

/// The name of the first missing file that a mapfile uses, unless it has a control character. There is none where none is missing, or
/// where memory is refused.
pub fn missing_name(alloc: Global, mapfile: &Mapfile, files: &Files) -> Option<Text>
    ensures { IfSome result (λ name. first_missing files.now (uses_of mapfile.now) ≡ Some name) }
{
    let Ok(names) = mapfile.wanted(alloc) else {
        return None;
    };
    let Some(name) = first_missing(names.as_slice(), files) else {
        return None;
    };
    if has_control(name.as_str()) {
        return None;
    }
    match Text::from_str(alloc, name.as_str()) {
        Ok(name) => Some(name),
        Err(_) => None,
    }
}

// The message on the first missing file that a mapfile uses, by the keyword that names it.
fn message_on_missing(
    alloc: Global,
    mapfile: &Mapfile,
    files: &Files,
    keyword: &str,
) -> Option<Text>
    ensures { IfSome result (NamesMissing files.now mapfile.now) }
{
    let Ok(names) = mapfile.wanted(alloc) else {
        return None;
    };
    let Some(name) = first_missing(names.as_slice(), files) else {
        return None;
    };
    match missing_message(alloc, name.as_str(), keyword) {
        Ok(message) => Some(message),
        Err(_) => None,
    }
}

// What else the message on a table says: the columns where it lacks one, or the value of a row that is no coordinate.
fn more_on_table(
    alloc: Global,
    at_hand: MapfileAtHand<'_>,
    fault: FileFault,
    cause: CsvFault,
) -> Option<String> {
    let MapfileAtHand { source, files, .. } = at_hand;
    let names = at_hand.mapfile.wanted(alloc).ok()?;
    let name = names.as_slice().get(fault.number)?.as_str();
    match cause.kind {
        CsvKind::NoColumn => message_on_columns(alloc, source, files, name),
        CsvKind::BadNumber => message_on_value(
            alloc,
            source,
            files,
            TableRow {
                name,
                row: cause.row,
            },
        ),
        _ => None,
    }
}

// The message on a file that is no table. Where its header lacks a column, the columns are shown, and where a row has no coordinate,
// what it has.
fn message_on_table(
    alloc: Global,
    at_hand: MapfileAtHand<'_>,
    fault: FileFault,
    cause: CsvFault,
) -> Option<Text> {
    let keyword = fault.keyword.spelling();
    let message = format!(in alloc;
        "the file that {keyword} names is no table of points: {cause}"
    ).ok()?;
    match more_on_table(alloc, at_hand, fault, cause) {
        Some(more) => Some(Text::of(format!(in alloc; "{message}: {more}").ok()?)),
        None => Some(Text::of(message)),
    }
}

// The message on the fault of a file.
fn message_on_file(alloc: Global, at_hand: MapfileAtHand<'_>, fault: FileFault) -> Option<Text>
    ensures { IfSome result (AreOnCause fault.cause at_hand.entry.files.now at_hand.entry.mapfile.now) }
{
    let keyword = fault.keyword.spelling();
    let message = match fault.cause {
        FileCause::Missing => {
            return message_on_missing(alloc, at_hand.mapfile, at_hand.files, keyword);
        }
        FileCause::NoTable(cause) => return message_on_table(alloc, at_hand, fault, cause),
        FileCause::NoPixmap(_) => format!(in alloc;
            "the file that {keyword} names is no pixmap in Netpbm's P6 format of at most 256 by 256 pixels"
        ),
        FileCause::NoFont(cause) => format!(in alloc;
            "the file that {keyword} names is no font: {cause}"
        ),
    };
    match message {
        Ok(message) => Some(Text::of(message)),
        Err(_) => None,
    }
}

/// The message on the first used of the files that have a fault. There is none where no file has one, or where memory is
/// refused.
pub fn message_on_files(alloc: Global, at_hand: MapfileAtHand<'_>) -> Option<Text>
    ensures { IfSome result (AreOnFiles at_hand.entry.files.now at_hand.entry.mapfile.now) }
{
    match at_hand.mapfile.files_fault(alloc, at_hand.files) {
        Ok(Some(fault)) => message_on_file(alloc, at_hand, fault),
        Ok(None) | Err(_) => None,
    }
}
