//! Texts that are UTF-8.

ghost use Rattle.std.specs.Prelude.{◌≡◌, option_map};
ghost use Rattle.std.specs.Str.{is_utf8 as is_valid};
ghost use Rattle.std.specs.Str.Lossy.{utf8_valid_len};
ghost use Rattle.fetch_lookup.specs.Names as spec;

/// A text as characters, where it is UTF-8.
pub(crate) fn characters(text: &[u8]) -> Option<&str>
    ensures { option_map (λ s. s.now) result ≡ spec.if_utf8 text.now }
{
    match str::from_utf8(text) {
        Ok(characters) => Some(characters),
        Err(_) => None,
    }
}

pub(crate) fn is_utf8(text: &[u8]) -> bool
    ensures { result ≡ is_valid text.now }
{
    characters(text).is_some()
}

/// Where the first ill-formed sequence of a text begins that isn't UTF-8.
pub(crate) fn ill_formed_place(text: &[u8]) -> Option<usize>
    ensures { result ≡ spec.ill_formed_place text.now }
{
    match str::from_utf8(text) {
        Ok(_) => None,
        Err(e) => Some(e.valid_up_to()),
    }
}
