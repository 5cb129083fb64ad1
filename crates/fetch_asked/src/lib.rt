//! What a client asks of a server of packs, read as its bytes come.
#![tactic(auto)]

mod asked;
mod depth_reading;
mod error;
mod fetch_reading;
mod head_reading;
mod intake;
pub mod laws;
mod listing_reading;
mod reading;
mod saying;

pub use asked::{Asked, DepthAsked, FetchAsked};
pub use error::ServeError;
pub use intake::{Intake, Refusal};
