//! Why a remote isn't found.

pub mod existing;
pub mod for_fetch;

pub use fetch_lookup::find::Error;
