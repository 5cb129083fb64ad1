//! The words of a text.

ghost use Rattle.std.specs.Prelude.{◌≡◌, ◌<◌, ◌∷◌, length, IfSome};
ghost use Rattle.std.specs.Option.{option_copied};
ghost use Rattle.fetch_lines.specs.Words.{words, words_in};
ghost use Rattle.fetch_lines.specs.Greetings.{has_word_in};

use fetch_base::split_first;

/// The first word of a text, and what follows the space that ends it.
pub fn next_word(text: &[u8]) -> (&[u8], Option<&[u8]>)
    ensures words { words text.now ≡ result.0.now ∷ words_in (option_copied result.1) }
    ensures shorter { IfSome result.1 (λ rest. length rest.now < length text.now) }
{
    match split_first(b' ', text) {
        Some((word, rest)) => (word, Some(rest)),
        None => (text, None),
    }
}

/// Whether the word stands among the words of the text.
pub(crate) fn contains_word(text: &[u8], word: &[u8]) -> bool
    ensures { result ≡ has_word_in word.now (words text.now) }
{
    let mut rest = text;
    'words: loop {
        let (first, behind) = next_word(rest);
        if first == word {
            return true;
        }
        match behind {
            Some(behind) => rest = behind,
            None => return false,
        }
    }
}
