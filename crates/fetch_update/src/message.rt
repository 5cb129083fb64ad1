//! What reflogs say of an update.

ghost use Rattle.std.specs.Prelude.{◌≡◌, IfOk, [], ◌∷◌, ◌++◌};
ghost use Rattle.fetch_update.specs.Policy.{message_text};

use fetch_store::{NoMemory, Text};
use std::alloc::Global;

/// What reflogs say of an update.
#[derive(Debug, Drop)]
pub enum RefLogMessage {
    /// The action, a colon and a space, and what happened.
    Prefixed { action: Text },
    /// This text, whatever happened.
    Override { message: Text },
}

impl RefLogMessage {
    /// An equal message.
    pub fn try_clone(&self) -> Result<RefLogMessage, NoMemory>
        ensures { IfOk result (λ copy. copy ≡ self.now) }
    {
        match self {
            RefLogMessage::Prefixed { action } => Ok(RefLogMessage::Prefixed {
                action: action.try_clone()?,
            }),
            RefLogMessage::Override { message } => Ok(RefLogMessage::Override {
                message: message.try_clone()?,
            }),
        }
    }

    /// The message of an update of which this happened.
    pub(crate) fn compose(&self, alloc: Global, happened: &[u8]) -> Result<Text, NoMemory>
        ensures { IfOk result (λ text. text ≡ message_text self.now happened.now) }
    {
        match self {
            RefLogMessage::Prefixed { action } => prefixed(alloc, action.as_bytes(), happened),
            RefLogMessage::Override { message } => message.try_clone(),
        }
    }
}

fn prefixed(alloc: Global, action: &[u8], happened: &[u8]) -> Result<Text, NoMemory>
    ensures { IfOk result (λ text. text ≡ action.now ++ (58 ∷ 32 ∷ []) ++ happened.now) }
{
    let mut text = Vec::from_slice(alloc, action)?;
    text.extend_from_slice(b": ")?;
    text.extend_from_slice(happened)?;
    Ok(Text::from(text))
}
