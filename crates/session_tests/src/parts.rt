use crate::texts::columns;
use std::alloc::{AllocError, Global};
use subcommands::{parent_of, path_of, split_session};
use test_tables::{TableFault, check_all, check_rows};

// Sessions, their mapfiles and their scripts, with `~` for a line feed.
const SESSIONS: &str = "\
MAP~%%~QUERY a~|MAP~|QUERY a~\n\
MAP~%%~%%~|MAP~|%%~\n\
%%~QUERY a~||QUERY a~\n\
MAP~%%|MAP~|\n\
MAP~|MAP~|\n\
||\n\
MAP~%%\r~END~|MAP~%%\r~END~|\n\
MAP %%~ %%~%%%~|MAP %%~ %%~%%%~|\n\
MAP~%~%%x~|MAP~%~%%x~|";

// Whether a row of the table has the parts of its session.
fn is_parted(alloc: Global, row: &str) -> Result<bool, AllocError> {
    let row = row.replace(alloc, "~", "\n")?;
    let (session, mapfile, script) = columns(row.as_str());
    let parts = split_session(session.as_bytes());
    Ok(parts.0 == mapfile.as_bytes() && parts.1 == script.as_bytes())
}

#[test]
fn sessions_part_at_their_first_such_line(rt: HostRuntime) -> Result<(), TableFault> {
    check_all(rt.alloc(), SESSIONS, 9, is_parted)
}

// Parents of files, and their paths.
const PARENTS: &str = "\
=m.map
maps/=maps/m.map
/=/m.map
../a/b.c/=../a/b.c/m.map
é/=é/ü.map";

fn parent(alloc: Global, path: &str) -> Result<String, AllocError> {
    String::from_str(alloc, parent_of(path))
}

#[test]
fn a_file_is_in_the_folder_before_its_name(rt: HostRuntime) -> Result<(), TableFault> {
    check_rows(rt.alloc(), PARENTS, '=', 5, parent)
}

// The paths of names, the parent of a folder's files, and the names.
const PATHS: &str = "\
maps/a.ppm=maps/|a.ppm
a.ppm=|a.ppm
/b/a.ppm=maps/|/b/a.ppm
/maps/../a.ppm=/maps/|../a.ppm";

fn path(alloc: Global, row: &str) -> Result<String, AllocError> {
    let (parent, name) = row.split_once('|').unwrap_or(("", ""));
    String::from_str(alloc, path_of(alloc, parent, name)?.as_str())
}

#[test]
fn names_have_their_paths(rt: HostRuntime) -> Result<(), TableFault> {
    check_rows(rt.alloc(), PATHS, '=', 4, path)
}
