//! A repository that several use: its passes, and what is fetched and deleted by them.
#![tactic(auto)]

mod applying;
mod deleting;
mod events;
mod exchange;
mod fetching;
pub mod laws;
mod lock;
mod lock_rule;
mod pack_taken;
mod pass;
mod receipt;
mod shared;
mod view;

pub use deleting::delete_shared;
pub use events::ReceivedPack;
pub use fetch_journal::{
    Entry, Plan, ReplayFault, Replayed, SharedError, SharedState, Taken, replay,
};
pub use fetching::fetch_shared;
pub use pass::Pass;
pub use receipt::Receipt;
pub use shared::SharedRepository;
pub use view::Span;
