//! Where a file was looked for that a mapfile names and that can't be read.

ghost use Rattle.std.specs.Prelude.{◌≡◌, ◌++◌, IfOk, IfSome, None, false};
ghost use Rattle.subcommands.specs.Explained.{AreOnFilesOf, IsPlaceIn};
ghost use Rattle.subcommands.specs.Reports.{place_message, place_words};

use crate::folder::{Folder, LookedFor};
use crate::unread::UnreadCause;
use mapdefs::Text;
use mapfaults::{MapfileAtHand, message_on_files, missing_name};
use std::alloc::{AllocError, Global};

// Why a file can't be read, in a message that follows its path.
#[tactic(auto, unfolding(crate::specs::Reports::place_words))]
fn place_words(cause: UnreadCause) -> &'static str
    ensures { result.now ≡ place_words cause }
{
    match cause {
        UnreadCause::Missing => " is missing",
        UnreadCause::NotAllowed => " may not be read",
        UnreadCause::Other => " can't be read",
    }
}

// Where a file was looked for, and why it can't be read, in a message that follows another one.
fn place_message(alloc: Global, path: &str, cause: UnreadCause) -> Result<Text, AllocError>
    ensures { IfOk result (λ place. place ≡ place_message path.now cause) }
{
    let words = place_words(cause);
    Ok(Text::of(format!(in alloc; ": {path}{words}")?))
}

// Where the first missing file of a mapfile was looked for, and why it can't be read, if that is known.
fn place_of<F: Folder>(
    alloc: Global,
    folder: &F,
    at_hand: MapfileAtHand<'_>,
) -> Result<Option<Text>, AllocError>
    ensures { IfOk result (λ place. IfSome place (IsPlaceIn at_hand.entry.files.now at_hand.entry.mapfile.now)) }
{
    let Some(name) = missing_name(alloc, at_hand.mapfile, at_hand.files) else {
        return Ok(None);
    };
    let Some(LookedFor { path, cause }) = folder.look(alloc, name.as_str())? else {
        return Ok(None);
    };
    Ok(Some(place_message(alloc, path.as_str(), cause)?))
}

// A message with what follows it.
fn followed(alloc: Global, message: &str, place: &str) -> Result<Text, AllocError>
    ensures { IfOk result (λ text. text ≡ message.now ++ place.now) }
{
    Ok(Text::of(format!(in alloc; "{message}{place}")?))
}

/// The message on a fault of the files of a mapfile, where it is requested. It says where a missing one was looked for, if that is known.
pub fn file_message<F: Folder>(
    alloc: Global,
    explains: bool,
    folder: &F,
    at_hand: MapfileAtHand<'_>,
) -> Option<Text>
    ensures unasked { explains ≡ false → result ≡ None }
    ensures on { IfSome result (AreOnFilesOf at_hand.entry.files.now at_hand.entry.mapfile.now) }
{
    if !explains {
        return None;
    }
    let Some(message) = message_on_files(alloc, at_hand) else {
        return None;
    };
    match place_of(alloc, folder, at_hand) {
        Ok(Some(place)) => match followed(alloc, message.as_str(), place.as_str()) {
            Ok(message) => Some(message),
            Err(_) => None,
        },
        Ok(None) => Some(message),
        Err(_) => None,
    }
}
