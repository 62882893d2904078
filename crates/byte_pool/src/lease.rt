//! A lease of a block.
use std::marker::Model;

/// A block that is lent. It is live in one pool, and is spent where it is given back. Contracts see the number of its
/// block, counted from 0 in the order in which the blocks were made.
#[derive(Drop)]
pub struct Lease {
    pub(crate) block: usize,
}

impl Model for Lease {
    ghost use Rattle.std.specs.Prelude.{ℕ};

    ghost Value = { ℕ };

    ghost view = { λ l. l.block };
}
