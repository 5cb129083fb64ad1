//! The lines of a text, with their places.

ghost use Rattle.std.specs.Prelude.{◌≡◌, ◌≤◌, ◌^◌, ◌<◌, ◌+◌, length, drop, IfOk, IfSome};
ghost use Rattle.std.specs.Option.{option_map};
ghost use Rattle.fetch_lines.specs.LineViews.{line_of};
ghost use Rattle.fetch_lines.specs.Lines.{line_len};
ghost use Rattle.fetch_scene.specs.SceneLines as spec;

use crate::lines::Placed;
use fetch_lines::{LineRef, line_in};
use fetch_store::NoMemory;
use std::alloc::Global;

/// The line at a place, and the place after it.
#[tactic(auto, unfolding(crate::specs::SceneLines::line_found))]
fn line_at(bytes: &[u8], place: usize) -> Option<(LineRef<'_>, usize)>
    requires within { place ≤ length bytes.now }
    requires short { length bytes.now ≤ 2 ^ 30 }
    ensures line { option_map (λ x. (line_of x.0, drop x.1 bytes.now)) result ≡ spec.line_found place (drop place bytes.now) }
    ensures next { IfSome result (λ x. x.1 ≡ place + line_len (line_of x.0)) }
    ensures within { IfSome result (λ x. x.1 ≤ length bytes.now) }
{
    match line_in(usize::MAX, place, &bytes[place..]) {
        Ok((line, count)) => Some((line, place + count)),
        Err(_) => None,
    }
}

/// The lines of a text up to where it has no more, and that place. The text is no longer than a scene may be.
pub fn read_lines(alloc: Global, bytes: &[u8]) -> Result<(Vec<Placed<'_>>, usize), NoMemory>
    requires { length bytes.now ≤ 2 ^ 30 }
    ensures { IfOk result (λ x. record { lines = x.0.items; last = x.1 } ≡ spec.lines_of bytes.now) }
{
    let mut lines = Vec::new(alloc);
    let mut place = 0;
    'lines: loop {
        match line_at(bytes, place) {
            Some((line, next)) => {
                lines.push(Placed::new(place, line))?;
                place = next;
            }
            None => return Ok((lines, place)),
        }
    }
}
