ghost use Rattle.subcommands.specs.Parts.{AreParts};

use crate::line::split_line;

/// The mapfile and the script of a session: the bytes before the first line of two percent signs, and those after it.
pub fn split_session(session: &[u8]) -> (&[u8], &[u8])
    ensures { AreParts session.now result.0.now result.1.now }
{
    let mut at = 0;
    while at < session.len() {
        let (line, rest) = split_line(&session[at..]);
        if line == b"%%".as_slice() {
            return (&session[..at], rest);
        }
        at = session.len() - rest.len();
    }
    (session, &[])
}
