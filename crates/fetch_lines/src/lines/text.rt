//! The text of a line.

ghost use Rattle.std.specs.Prelude.{◌≡◌};
ghost use Rattle.fetch_lines.specs.Texts.{without_lf};

/// A text without its last byte, where that is a line feed.
#[tactic(auto, unfolding(crate::specs::Texts::without_lf))]
pub fn without_line_feed(text: &[u8]) -> &[u8]
    ensures { result.now ≡ without_lf text.now }
{
    if !text.is_empty() && text[text.len() - 1] == b'\n' {
        &text[..text.len() - 1]
    } else {
        text
    }
}
