//! The repository, the remote, and the fetch.
#![tactic(auto)]

pub mod branch;
pub mod connect;
pub mod delete;
mod deleting;
mod fetching;
pub mod find;
pub mod laws;
pub mod open;
pub mod phases;
pub mod remote;
mod remotes;
mod repository;
pub mod upstream;

pub use deleting::deletion::deletable;
pub use fetch_conversation::{
    Negotiate, NoProgress, Progress, agent, algorithm, fetch, prepare, ref_map, rejects_shallow,
};
pub use fetch_lookup::{Name, Names, name, push, save};
pub use fetching::connection::Connection;
pub use fetching::fetch_error::FetchError;
pub use fetching::options::FetchOptions;
pub use fetching::outcome::{Outcome, PackOutcome, Status};
pub use fetching::prepared::Prepared;
pub use fetching::preparing::Prepare;
pub use remote::Remote;
pub use remotes::direction::Direction;
pub use remotes::scripted_connect::ScriptedConnect;
pub use repository::open_error::OpenError;
pub use repository::reload::read_configuration;
pub use repository::thread_safe::{ThreadSafeRepository, repositories_cross_threads};
pub use repository::threads::index_threads;
pub use repository::{OpenOptions, Parts, Repository, Resolved};
