//! The steps by which a clone is fetched into.

mod completing;
mod fetch_only;
mod finishing;
pub(crate) mod hashing;
mod listing;
mod planning;
mod reaching;
mod receiving;
pub(crate) mod saving;
mod taking;
mod targeting;
