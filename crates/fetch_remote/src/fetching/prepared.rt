//! What a fetch is prepared with.

ghost use Rattle.std.specs.Prelude.{◌≡◌};
ghost use Rattle.fetch_conversation.specs.ListStage.{IsReady};

use crate::fetching::options::FetchOptions;
use fetch_conversation::Listed;

/// What a fetch is prepared with: what was listed, with the conversation that goes on, and how the fetch is to be done.
// Not copied: its conversation goes on with one peer.
#[derive(Drop)]
pub struct Prepared {
    /// What was listed, with the conversation that goes on.
    pub listed: Listed,
    /// How the fetch is to be done.
    pub options: FetchOptions,
    ghost ready: { IsReady listed },
    ghost bound: { listed.session.intake.bound ≡ options.map.max_reply_bytes },
}
