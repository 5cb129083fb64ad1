//! The words that ask for a race.

ghost use Rattle.std.specs.Prelude.{◌≡◌, map};
ghost use Rattle.race_cli.specs.RaceWords as spec;

/// A word that stands alone. A second one is too many.
fn alone(others: &[Vec<u8>]) -> Result<(), usize>
    ensures { result ≡ spec.alone (map (λ word. word.items) others.now) }
{
    if others.is_empty() { Ok(()) } else { Err(2) }
}

/// Whether the words ask for a race, or the number of the first that is wrong or lacking, from 1 on. These are the words
/// after the program's name: `race`, and no more.
#[tactic(auto, unfolding(crate::specs::RaceWords::race_asked))]
pub fn read_race_words(words: &[Vec<u8>]) -> Result<(), usize>
    ensures { result ≡ spec.race_asked (map (λ word. word.items) words.now) }
{
    match words {
        [] => Err(1),
        [word, others @ ..] => {
            if word.as_slice() == b"race".as_slice() {
                alone(others)
            } else {
                Err(1)
            }
        }
    }
}
