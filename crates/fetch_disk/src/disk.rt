//! A repository's directory on a disk.

use crate::device::Device;
use crate::packs::Packs;

/// A repository's directory on a disk that may crash: the journal's file, and the packs.
pub trait Disk: Device + Packs {}
