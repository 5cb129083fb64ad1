//! Sets of ids, and packs that are written of a store.
#![tactic(auto)]

mod ids;
pub mod laws;
mod naming;
mod reaching;
mod writing;

pub use ids::{difference, union};
pub use naming::{first_misnamed, stored_objects_are_objects};
pub use reaching::reached_from;
pub use writing::write_stored;
