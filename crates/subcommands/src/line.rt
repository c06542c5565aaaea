ghost use Rattle.std.specs.Prelude.{◌≡◌, ◌≤◌, length};
ghost use Rattle.std.specs.List.{before_first, after_first};
ghost use Rattle.batches.specs.Command.{is_line_end};

use batches::line_len;

/// The first line, without its LF, and the bytes after that LF.
pub fn split_line(bytes: &[u8]) -> (&[u8], &[u8])
    ensures line { result.0.now ≡ before_first is_line_end bytes.now }
    ensures rest { result.1.now ≡ after_first is_line_end bytes.now }
    ensures within { length result.1.now ≤ length bytes.now }
{
    let (line, end) = bytes.split_at(line_len(bytes));
    match end {
        [] => (line, &[]),
        [_, rest @ ..] => (line, rest),
    }
}
