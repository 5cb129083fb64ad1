//! What is answered, and why nothing is.

ghost use Rattle.std.specs.Prelude.{◌≡◌, IfOk, IsErrOf, IsOkAnd};
ghost use Rattle.fetch_cli.specs.ReportLines.{malformed_line, malformed_word_line};
ghost use Rattle.fetch_cli.specs.Run.{Are};
ghost use Rattle.fetch_cli.specs.Written.{BlamesEnd, IsAnswered, WritesBy};

use crate::program::io::Sink;
use crate::reporting::lines::{append_malformed, append_malformed_word};
use fetch_store::NoMemory;
use fetch_wire::SendFault;
use std::alloc::Global;

/// Why there is nothing to write.
#[derive(Clone, Copy, Debug, PartialEq, Eq)]
pub enum Silence {
    /// The source failed.
    Unread,
    /// Memory ran out.
    NoMemory,
}

impl From<NoMemory> for Silence {
    ghost use Rattle.std.specs.Prelude.{◌≡◌};
    ghost use Rattle.fetch_cli.specs.declared.program.answers.Silence.TheVariants as silences;

    ghost from_gives = { λ _ e. e ≡ silences.NoMemory };

    fn from(_e: NoMemory) -> Silence {
        Silence::NoMemory
    }
}

/// A status, and the text that is to be written.
pub type Answer = (u8, Vec<u8>);

/// The answer where a word is wrong, counted from 1: status 4.
pub fn malformed_word(alloc: Global, number: usize) -> Result<Answer, NoMemory>
    ensures { IfOk result (λ x. Are 4 (malformed_word_line number) x.0 x.1.items) }
{
    let mut text = Vec::new(alloc);
    append_malformed_word(&mut text, number)?;
    Ok((4, text))
}

/// The answer where the input is no scene, by the place of the first byte that fits none: status 4.
pub fn malformed(alloc: Global, place: usize) -> Result<Answer, NoMemory>
    ensures { IfOk result (λ x. Are 4 (malformed_line place) x.0 x.1.items) }
{
    let mut text = Vec::new(alloc);
    append_malformed(&mut text, place)?;
    Ok((4, text))
}

/// Writes an answer, whose own status is 0, 1 or 4, and gives the status of the program: that one where the answer was written
/// whole; 2 where there is none since the source failed; 3 where the sink failed, which may have taken the front of it; 5
/// where memory ran out.
pub fn write_answer<K: Sink>(answer: Result<Answer, Silence>, sink: &mut K) -> u8
    requires { IfOk answer (λ x. IsAnswered x.0) }
    // A source that failed is told by 2 alone, and a sink that failed by 3.
    ensures read { IsErrOf answer Silence.Unread → result ≡ 2 }
    ensures unread { result ≡ 2 → IsErrOf answer Silence.Unread }
    ensures sink { BlamesEnd (K.faults sink.old) (K.faults sink.new) (result ≡ 3) }
    ensures written { WritesBy (λ status text. IsOkAnd answer (λ x. Are x.0 x.1.items status text))
        (K.taken sink.old) (K.taken sink.new) (sink.new ≡ sink.old) result }
{
    match answer {
        Ok((status, text)) => match sink.write_all(&text) {
            Ok(()) => status,
            Err(SendFault::Failed) => 3,
            Err(SendFault::NoMemory) => 5,
        },
        Err(Silence::Unread) => 2,
        Err(Silence::NoMemory) => 5,
    }
}
