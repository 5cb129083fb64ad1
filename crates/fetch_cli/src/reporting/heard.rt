//! The lines that a peer heard.

ghost use Rattle.std.specs.Prelude.{◌≡◌, ◌<◌, ◌+◌, ◌≤◌, ◌++◌, length, drop, OnOk, IfSome};
ghost use Rattle.std.specs.Option.{option_map};
ghost use Rattle.fetch_lines.specs.LineViews.{line_of};
ghost use Rattle.fetch_cli.specs.Heard.{lines_heard};
ghost use Rattle.fetch_cli.specs.Report.{sent_lines};
ghost use Rattle.fetch_scene.specs.SceneLines.{line_found};

use crate::reporting::lines::append_sent;
use fetch_store::NoMemory;
use fetch_wire::{LineRef, line_in};

/// The first line, and how many bytes it has.
#[tactic(auto, unfolding(fetch_scene::specs::SceneLines::line_found))]
fn first_line(bytes: &[u8]) -> Option<(LineRef<'_>, usize)>
    ensures line { option_map (λ x. (line_of x.0, drop x.1 bytes.now)) result ≡ line_found 0 bytes.now }
    ensures within { IfSome result (λ x. (0 < x.1) × (x.1 ≤ length bytes.now)) }
{
    match line_in(usize::MAX, 0, bytes) {
        Ok((line, count)) => Some((line, count)),
        Err(_) => None,
    }
}

/// The lines of the bytes, as they were sent.
pub(crate) fn append_heard(out: &mut Vec<u8>, bytes: &[u8]) -> Result<(), NoMemory>
    ensures { OnOk result (out.new.items ≡ out.old.items ++ sent_lines (lines_heard bytes.now)) }
{
    let mut rest = bytes;
    'lines: loop {
        match first_line(rest) {
            Some((line, count)) => {
                append_sent(out, line)?;
                rest = &rest[count..];
            }
            None => return Ok(()),
        }
    }
}
