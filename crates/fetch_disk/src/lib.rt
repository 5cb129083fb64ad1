//! A disk that may crash, and a journal of records on it that a crash leaves whole.
#![tactic(auto)]

mod call;
mod device;
mod disk;
mod disk_error;
mod journal;
mod journal_error;
pub mod laws;
mod making;
mod memory_disk;
mod memory_file;
mod memory_packs;
mod opening;
mod packs;
mod reading;
mod record;
mod spelling;
mod steps;
mod volume;
mod whole_file;
mod writing;

pub use call::Call;
pub use device::Device;
pub use disk::Disk;
pub use disk_error::DiskError;
pub use journal::Journal;
pub use journal_error::JournalError;
pub use making::{Opened, create, open};
pub use memory_disk::MemoryDisk;
pub use opening::recover;
pub use packs::Packs;
pub use reading::{Recovered, read_records};
pub use record::Record;
pub use volume::Volume;
