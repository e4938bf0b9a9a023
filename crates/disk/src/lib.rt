//! The tree of files and the cache on disk: what a folder lists, how a file is read and how it is
//! replaced, over a disk that is a trait; one that is in memory; and the system's.
#![tactic(auto)]

mod beside;
mod device;
mod keeper;
mod listing;
mod memory;
mod names;
mod replacing;
mod system;
mod tree;

pub use device::{Disk, Item, Kind};
pub use keeper::{FileKeeper, LONGEST};
pub use listing::list_below;
pub use memory::{MemDisk, Slot};
pub use replacing::replace;
pub use system::{SystemDisk, read_most};
pub use tree::DirTree;
