//! The maps that are registered.

use directory::Directory;

/// A map, by its number in the job, and what this rank knows of its owners.
#[derive(Drop)]
pub(crate) struct Registered {
    pub(crate) map: u32,
    pub(crate) directory: Directory,
}
