//! The grammar of names.

ghost use Rattle.std.specs.Prelude.{◌≡◌, ◌==◌, ◌+◌, ◌^◌, ◌<◌, ◌≤◌, ◌&&◌, if◌then◌else◌, not, Bool, List, ℕ, [], ◌∷◌, length, IfSome};
ghost use Rattle.std.specs.List.{prefix_len};
ghost use Rattle.std.specs.Str.{bytes_eq};
ghost use Rattle.fetch_specs.specs.Names as spec;
ghost use Rattle.fetch_specs.specs.Names.{is_full_name, is_name, full_name_place, name_place, IsLongestBeginning};
ghost use Rattle.fetch_specs.specs.Scans as scan;

/// Whether a byte may stand in a name; a pattern may have stars.
fn may_stand(star: bool, byte: u8) -> bool
    ensures { result ≡ spec.may_stand star byte }
{
    byte > 32
        && byte != 127
        && !(byte == b'~'
            || byte == b'^'
            || byte == b':'
            || byte == b'?'
            || byte == b'['
            || byte == b'\\')
        && (star || byte != b'*')
}

fn last_is(byte: u8, text: &[u8]) -> bool
    ensures { result ≡ spec.last_is byte text.now }
{
    match text {
        [.., last] => *last == byte,
        [] => false,
    }
}

#[tactic(auto, unfolding(crate::specs::Names::lock))]
fn may_end(component: &[u8]) -> bool
    ensures { result ≡ scan.may_end component.now }
{
    !component.ends_with(b".lock") && !component.is_empty()
}

fn may_extend(star: bool, component: &[u8], byte: u8) -> bool
    ensures { result ≡ scan.may_extend star component.now byte }
{
    may_stand(star, byte)
        && !(last_is(b'.', component) && byte == b'.')
        && !(last_is(b'@', component) && byte == b'{')
        && !(component.is_empty() && byte == b'.')
}

fn may_follow(star: bool, component: &[u8], byte: u8) -> bool
    ensures { result ≡ scan.may_follow star component.now byte }
{
    if byte == b'/' {
        may_end(component)
    } else {
        may_extend(star, component, byte)
    }
}

/// Whether a text that went on to its end is a name.
fn is_whole(text: &[u8], last: &[u8]) -> bool
    ensures { result ≡ (scan.may_end last.now && not (spec.last_is 46 text.now) && not (bytes_eq text.now (64 ∷ []))) }
{
    may_end(last) && !last_is(b'.', text) && text != b"@".as_slice()
}

/// Where the part begins that a byte at i belongs to or ends.
fn next_start(start: usize, i: usize, byte: u8) -> usize
    requires { i + 1 < 2 ^ 64 }
    ensures { result ≡ if byte == 47 then i + 1 else start }
{
    if byte == b'/' { i + 1 } else { start }
}

/// The place of a text that is no name. A pattern may have stars.
pub(crate) fn name_trouble(star: bool, text: &[u8]) -> Option<usize>
    ensures place { result ≡ spec.name_trouble star text.now }
    ensures within { IfSome result (λ place. place ≤ length text.now) }
{
    let mut start = 0;
    for i in 0..text.len() {
        let byte = text[i];
        if !may_follow(star, &text[start..i], byte) {
            return Some(i);
        }
        start = next_start(start, i, byte);
    }
    if is_whole(text, &text[start..]) {
        None
    } else {
        Some(text.len())
    }
}

/// How many bytes a text has in common with a word's prefix.
fn common(word: &[u8], text: &[u8]) -> usize
    ensures common { result ≡ scan.common word.now text.now }
    ensures within { result ≤ length word.now }
{
    let Some((expected, word)) = word.split_first() else {
        return 0;
    };
    let Some((byte, text)) = text.split_first() else {
        return 0;
    };
    if *byte == *expected {
        common(word, text) + 1
    } else {
        0
    }
}

fn is_capital(byte: u8) -> bool
    ensures { result ≡ spec.is_capital byte }
{
    byte.is_ascii_uppercase() || byte == b'_'
}

fn capitals_at_front(text: &[u8]) -> usize
    ensures { result ≡ prefix_len spec.is_capital text.now }
{
    text.iter().take_while(|b| is_capital(**b)).count()
}

/// The place of a text that is no full name.
pub(crate) fn full_name_trouble(text: &[u8]) -> Option<usize>
    ensures { result ≡ spec.full_name_trouble text.now }
{
    if text.starts_with(b"refs/") {
        return name_trouble(false, text);
    }
    let capitals = capitals_at_front(text);
    if text.is_empty() {
        return Some(0);
    }
    if capitals == text.len() {
        return None;
    }
    Some(capitals.max(common(b"refs/", text)))
}
