//! Why a repository isn't opened, or not opened again.

pub use crate::repository::open_error::OpenError as Error;
