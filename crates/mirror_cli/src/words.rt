//! The words that ask for a mirror.

ghost use Rattle.std.specs.Prelude.{◌≡◌, map};
ghost use Rattle.fetch_scene.specs.Numbers.{small_number_in};
ghost use Rattle.mirror_cli.specs.MirrorWords as spec;

use fetch_scene::number;

/// How many workers a word asks for: a number of 32 bits.
#[tactic(auto, unfolding(fetch_scene::specs::Numbers::small_number_in))]
fn workers_in(word: &[u8]) -> Option<u32>
    ensures { result ≡ small_number_in word.now }
{
    let number = number(word)?;
    if number < 1 << 32 {
        Some(number as u32)
    } else {
        None
    }
}

/// How many workers the words after `mirror` ask for.
fn workers_of(words: &[Vec<u8>]) -> Result<u32, usize>
    ensures { result ≡ spec.workers_of (map (λ word. word.items) words.now) }
{
    match words {
        [] => Err(2),
        [word, others @ ..] => match workers_in(word) {
            Some(workers) => {
                if others.is_empty() {
                    Ok(workers)
                } else {
                    Err(3)
                }
            }
            None => Err(2),
        },
    }
}

/// How many workers the words ask for, or the number of the first word that is wrong or lacking, from 1 on. These are the
/// words after the program's name: `mirror`, a number of 32 bits, and no more.
#[tactic(auto, unfolding(crate::specs::MirrorWords::mirror_asked))]
pub fn read_mirror_words(words: &[Vec<u8>]) -> Result<u32, usize>
    ensures { result ≡ spec.mirror_asked (map (λ word. word.items) words.now) }
{
    match words {
        [] => Err(1),
        [word, others @ ..] => {
            if word.as_slice() == b"mirror".as_slice() {
                workers_of(others)
            } else {
                Err(1)
            }
        }
    }
}
