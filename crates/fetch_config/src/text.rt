//! Pieces of a line.

ghost use Rattle.std.specs.Prelude.{◌≡◌, ◌<◌, ◌≤◌, ◌==◌, ◌∷◌, not, length, IsTrue, IfSome, position, option_map};
ghost use Rattle.std.specs.List.{prefix_len, suffix_len, list_all};
ghost use Rattle.std.specs.Str.Lines.{lines, strip_carriage_return};
ghost use Rattle.fetch_config.specs.Pieces as spec;

/// The byte that ends a line.
pub(crate) const LF: u8 = b'\n';

/// The byte that may stand before it.
pub(crate) const CR: u8 = b'\r';

/// The byte that no text may have.
pub(crate) const NUL: u8 = 0;

/// A space or a tab.
pub(crate) fn is_blank(c: u8) -> bool
    ensures { result ≡ spec.is_blank c }
{
    c == b' ' || c == b'\t'
}

/// `#` or `;`, which begin a comment.
pub(crate) fn is_comment_sign(c: u8) -> bool
    ensures { result ≡ spec.is_comment_sign c }
{
    c == b'#' || c == b';'
}

/// A letter, a digit or a dash.
pub(crate) fn is_name_byte(c: u8) -> bool
    ensures { result ≡ spec.is_name_byte c }
{
    c.is_ascii_alphanumeric() || c == b'-'
}

fn blanks_at_front(text: &[u8]) -> usize
    ensures len { result ≡ prefix_len spec.is_blank text.now }
    ensures within { result ≤ length text.now }
{
    text.iter().take_while(|c| is_blank(**c)).count()
}

fn blanks_at_end(text: &[u8]) -> usize
    ensures len { result ≡ suffix_len spec.is_blank text.now }
    ensures within { result ≤ length text.now }
{
    text.iter().rev().take_while(|c| is_blank(**c)).count()
}

/// What follows the blanks at the front.
pub(crate) fn skip_blanks(text: &[u8]) -> &[u8]
    ensures { result.now ≡ spec.skip_blanks text.now }
{
    &text[blanks_at_front(text)..]
}

/// The text without the blanks at its end.
pub(crate) fn trim_end(text: &[u8]) -> &[u8]
    ensures { result.now ≡ spec.trim_end text.now }
{
    &text[..text.len() - blanks_at_end(text)]
}

/// Whether only blanks and a comment stand here.
pub(crate) fn is_nothing(text: &[u8]) -> bool
    ensures { result ≡ spec.is_nothing text.now }
{
    match skip_blanks(text) {
        [first, ..] => is_comment_sign(*first),
        [] => true,
    }
}

/// How many letters, digits and dashes stand at the front.
pub(crate) fn name_len(text: &[u8]) -> usize
    ensures len { result ≡ prefix_len spec.is_name_byte text.now }
    ensures within { result ≤ length text.now }
{
    text.iter().take_while(|c| is_name_byte(**c)).count()
}

fn all_name_bytes(text: &[u8]) -> bool
    ensures { result ≡ list_all spec.is_name_byte text.now }
{
    text.iter().all(|c| is_name_byte(*c))
}

/// Whether this names a section: letters, digits and dashes.
pub(crate) fn is_name(text: &[u8]) -> bool
    ensures { result ≡ spec.is_name text.now }
{
    !text.is_empty() && all_name_bytes(text)
}

/// Whether this is a key: a letter, and then letters, digits and dashes.
pub(crate) fn is_key(text: &[u8]) -> bool
    ensures { result ≡ spec.is_key text.now }
{
    match text {
        [first, behind @ ..] => first.is_ascii_alphabetic() && all_name_bytes(behind),
        [] => false,
    }
}

/// What stands after this byte, where it comes first.
pub(crate) fn behind(byte: u8, text: &[u8]) -> Option<&[u8]>
    ensures { option_map (λ x. x.now) result ≡ spec.behind byte text.now }
{
    match text {
        [first, others @ ..] => { if *first == byte { Some(others) } else { None } }
        [] => None,
    }
}

/// Whether both are one name, of a section or a key. The case of letters doesn't count.
pub fn is_same_name(a: &[u8], b: &[u8]) -> bool
    ensures { result ≡ spec.is_same_name a.now b.now }
{
    a.eq_ignore_ascii_case(b)
}

fn line_len(text: &[u8]) -> Option<usize>
    ensures place { result ≡ position (λ b. b == LF) text.now }
    ensures within { IfSome result (λ place. place < length text.now) }
{
    text.iter().position(|b| *b == LF)
}

fn without_carriage_return(line: &[u8]) -> &[u8]
    ensures { result.now ≡ strip_carriage_return line.now }
{
    match line {
        [front @ .., last] if *last == CR => front,
        _ => line,
    }
}

/// The first line, and what stands after its line feed.
pub(crate) fn first_line(text: &[u8]) -> (&[u8], &[u8])
    requires { 0 < length text.now }
    ensures first { lines text.now ≡ result.0.now ∷ lines result.1.now }
    ensures shorter { length result.1.now < length text.now }
    ensures no_feed { spec.IsWithout LF result.0.now }
{
    match line_len(text) {
        Some(len) => (without_carriage_return(&text[..len]), &text[len + 1..]),
        None => (text, &text[text.len()..]),
    }
}
