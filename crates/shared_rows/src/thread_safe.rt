//! What crosses threads.

use fetch_shared::{
    Entry, Pass, Plan, Receipt, ReceivedPack, Replayed, SharedError, SharedRepository, SharedState,
    Taken,
};

fn crosses<T: Send + Sync>() {}

fn moves<T: Send>() {}

/// Shared repositories are lent to several threads, passes go from one to another, and what is told crosses too.
pub(crate) fn shared_types_cross_threads() {
    crosses::<SharedRepository>();
    crosses::<SharedState>();
    moves::<Pass>();
    crosses::<Entry>();
    crosses::<Plan>();
    crosses::<Taken>();
    crosses::<Receipt>();
    crosses::<Replayed>();
    crosses::<ReceivedPack<'static>>();
    crosses::<SharedError>();
}
