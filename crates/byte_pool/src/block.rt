//! One block of a pool.
ghost use Rattle.std.specs.Prelude.{◌≡◌, ℕ, List, IfOk, IsSome, Some, true, is_some, length};
ghost use Rattle.byte_pool.specs.Blocks.{free_block, has_room, lent_block};

use std::alloc::{AllocError, Global};
use std::marker::Model;

/// Bytes of a fixed number, of which the first `len` are lent where the block is lent.
#[derive(Drop)]
pub struct Block {
    bytes: Vec<u8>,
    len: usize,
    is_lent: bool,
}

impl Model for Block {
    ghost use Rattle.std.specs.Prelude.{◌≤◌, length};
    ghost use Rattle.byte_pool.specs.Blocks.{BlockState, lent_part};

    ghost Value = { BlockState };

    ghost view = { λ b. record { size = length b.bytes.items; lent = lent_part b.is_lent b.len b.bytes.items } };

    ghost invariant = { λ b. b.len ≤ length b.bytes.items };
}

impl Block {
    ghost use Rattle.std.specs.Borrow.{sem};
    ghost use Rattle.byte_pool.specs.Lending.{lends_of_block};

    /// A free block of so many bytes.
    pub fn new(alloc: Global, size: u64) -> Result<Block, AllocError>
        ensures { IfOk result (λ block. block ≡ free_block size) }
    {
        Ok(Block {
            bytes: vec![in alloc; 0; size as usize]?,
            len: 0,
            is_lent: false,
        })
    }

    /// How many bytes it has.
    #[inline]
    pub fn size(&self) -> usize
        ensures { result ≡ self.now.size }
    {
        self.bytes.len()
    }

    /// Whether it is lent.
    #[inline]
    pub fn is_lent(&self) -> bool
        ensures { result ≡ is_some self.now.lent }
    {
        self.is_lent
    }

    /// Whether it is free and has room for so many bytes.
    #[inline]
    pub fn has_room(&self, len: usize) -> bool
        ensures { result ≡ has_room len self.now }
    {
        !self.is_lent && len <= self.bytes.len()
    }

    /// Lends so many bytes of any content.
    #[inline]
    pub fn lend(&mut self, len: usize)
        requires { has_room len self.old ≡ true }
        ensures { (bytes : List ℕ) × (length bytes ≡ len) × (self.new ≡ lent_block self.old.size bytes) }
    {
        self.len = len;
        self.is_lent = true;
    }

    /// The bytes of its lease.
    #[inline]
    pub fn bytes(&self) -> &[u8]
        requires { IsSome self.now.lent }
        ensures { self.now.lent ≡ Some result.now }
    {
        &self.bytes[..self.len]
    }

    /// The bytes of its lease, for writing.
    #[inline]
    pub fn bytes_mut(&mut self) -> &mut [u8]
        requires { IsSome self.old.lent }
        ensures* writes_back { sem 𝓛 (lends_of_block self.entry result) }
        ensures value { self.old.lent ≡ Some result.now }
    {
        let len = self.len;
        self.bytes.slice_mut(0..len)
    }

    /// Makes it free.
    #[inline]
    pub fn take_back(&mut self)
        ensures { self.new ≡ free_block self.old.size }
    {
        self.is_lent = false;
    }
}
