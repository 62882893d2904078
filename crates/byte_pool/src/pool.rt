//! A pool of blocks.
ghost use Rattle.std.specs.Prelude.{◌≡◌, ◌<◌, ◌≤◌, ◌++◌, ◌∷◌, [], ℕ, List, None, Some, false, true, IfOk, IfSome, IfNone, OnOk, OnErr, IsSome, length, count_by, slice_index_or, replicate, is_some};
ghost use Rattle.byte_pool.specs.Blocks.{BlockState, free_block, has_room};
ghost use Rattle.byte_pool.specs.Leases.{IsLeastRoom, leases, sizes, with_lease, without_lease};

use crate::Lease;
use crate::block::Block;
use std::alloc::{AllocError, Global};
use std::marker::Model;

/// Blocks of bytes. Contracts see them in the order in which they were made: the size of each, and the bytes of its
/// lease, if it is lent.
#[derive(Drop)]
pub struct Pool {
    blocks: Vec<Block>,
    alloc: Global,
}

impl Model for Pool {
    ghost use Rattle.std.specs.Prelude.{List};
    ghost use Rattle.byte_pool.specs.Blocks.{BlockState};

    ghost Value = { List BlockState };

    ghost view = { λ p. p.blocks.items };
}

/// The first free block of at least so many bytes.
fn first_room(blocks: &[Block], len: usize) -> Option<usize>
    ensures within { IfSome result (λ i. i < length blocks.now) }
    ensures fits { IfSome result (λ i. (d : BlockState) → has_room len (slice_index_or blocks.now i d) ≡ true) }
    ensures first { IfSome result (λ i. (k : ℕ) (d : BlockState) → k < i → has_room len (slice_index_or blocks.now k d) ≡ false) }
    ensures none { IfNone result ((i : ℕ) (d : BlockState) → i < length blocks.now → has_room len (slice_index_or blocks.now i d) ≡ false) }
{
    for i in 0..blocks.len() {
        if blocks[i].has_room(len) {
            return Some(i);
        }
    }
    None
}

/// Of the free blocks of at least so many bytes the least, the first made among equals. `first` is the first of them.
fn least_room(blocks: &[Block], len: usize, first: usize) -> usize
    requires within { first < length blocks.now }
    requires fits { (d : BlockState) → has_room len (slice_index_or blocks.now first d) ≡ true }
    requires first { (k : ℕ) (d : BlockState) → k < first → has_room len (slice_index_or blocks.now k d) ≡ false }
    ensures within { result < length blocks.now }
    ensures fits { (d : BlockState) → has_room len (slice_index_or blocks.now result d) ≡ true }
    ensures least { (k : ℕ) (d : BlockState) → k < length blocks.now → has_room len (slice_index_or blocks.now k d) ≡ true
        → (slice_index_or blocks.now result d).size ≤ (slice_index_or blocks.now k d).size }
    ensures earlier { (k : ℕ) (d : BlockState) → k < result → has_room len (slice_index_or blocks.now k d) ≡ true
        → (slice_index_or blocks.now result d).size < (slice_index_or blocks.now k d).size }
{
    let mut best = first;
    for i in 0..blocks.len() {
        if blocks[i].has_room(len) && blocks[i].size() < blocks[best].size() {
            best = i;
        }
    }
    best
}

impl Pool {
    ghost use Rattle.std.specs.Borrow.{sem};
    ghost use Rattle.byte_pool.specs.Lending.{lends_of_pool};

    /// A pool with no blocks. It takes no memory.
    pub fn new(alloc: Global) -> Pool
        ensures { result ≡ [] }
    {
        Pool {
            blocks: Vec::new(alloc),
            alloc,
        }
    }

    /// Makes so many free blocks of so many bytes each. Without memory fewer are made. All leases stay.
    pub fn reserve(&mut self, count: u32, size: u64) -> Result<(), AllocError>
        ensures ok { OnOk result (self.new ≡ self.old ++ replicate count (free_block size)) }
        ensures err { OnErr result ((made : ℕ) × (made < count) × (self.new ≡ self.old ++ replicate made (free_block size))) }
        ensures leases { leases self.new ≡ leases self.old }
    {
        for i in 0..count {
            let block = Block::new(self.alloc, size)?;
            self.blocks.push(block)?;
        }
        Ok(())
    }

    /// The number of live leases. It takes no memory.
    pub fn live(&self) -> u64
        ensures { result ≡ count_by (λ b. is_some b.lent) self.now }
    {
        self.blocks.iter().filter(|block| block.is_lent()).count() as u64
    }

    /// The number of free blocks of at least so many bytes.
    pub fn spare(&self, size: u64) -> u64
        ensures { result ≡ count_by (has_room size) self.now }
    {
        let size = size as usize;
        self.blocks
            .iter()
            .filter(|block| block.has_room(size))
            .count() as u64
    }

    /// Lends a free block of at least so many bytes: the least, and the first made among equals. The lease has so many
    /// bytes of any content.
    pub fn lease(&mut self, len: u64) -> Lease
        requires { 1 ≤ count_by (has_room len) self.old }
        ensures least { IsLeastRoom len self.old result }
        ensures fresh { leases self.old result ≡ None }
        ensures lent { (bytes : List ℕ) × (length bytes ≡ len) × (leases self.new ≡ with_lease (leases self.old) result bytes) }
        ensures sizes { sizes self.new ≡ sizes self.old }
    {
        let len = len as usize;
        let Some(first) = first_room(&self.blocks, len) else {
            unreachable!()
        };
        let block = least_room(&self.blocks, len, first);
        self.blocks[block].lend(len);
        Lease { block }
    }

    /// Whether a lease is live here.
    pub fn is_live(&self, lease: &Lease) -> bool
        ensures { result ≡ is_some (leases self.now lease.now) }
    {
        match self.blocks.get(lease.block) {
            Some(block) => block.is_lent(),
            None => false,
        }
    }

    /// The bytes of a live lease.
    pub fn bytes(&self, lease: &Lease) -> &[u8]
        requires { IsSome (leases self.now lease.now) }
        ensures { leases self.now lease.now ≡ Some result.now }
    {
        self.blocks[lease.block].bytes()
    }

    /// The bytes of a live lease, for writing. The bytes of all other leases stay.
    pub fn bytes_mut(&mut self, lease: &Lease) -> &mut [u8]
        requires { IsSome (leases self.old lease.now) }
        ensures* writes_back { sem 𝓛 (lends_of_pool self.entry lease.now result) }
        ensures value { leases self.old lease.now ≡ Some result.now }
    {
        self.blocks[lease.block].bytes_mut()
    }

    /// Makes a lease's block free again.
    pub fn give_back(&mut self, lease: Lease)
        requires { IsSome (leases self.old lease) }
        ensures leases { leases self.new ≡ without_lease (leases self.old) lease }
        ensures sizes { sizes self.new ≡ sizes self.old }
    {
        self.blocks[lease.block].take_back();
    }

    /// Writes the bytes of a live lease, all of them.
    pub fn write(&mut self, lease: &Lease, bytes: &[u8])
        requires { (old : List ℕ) × (leases self.old lease.now ≡ Some old) × (length old ≡ length bytes.now) }
        ensures leases { leases self.new ≡ with_lease (leases self.old) lease.now bytes.now }
        ensures sizes { sizes self.new ≡ sizes self.old }
    {
        self.bytes_mut(lease).copy_from_slice(bytes);
    }

    /// Makes a block of exactly so many bytes as these are, and lends one with them. Without memory all stays.
    pub fn lend(&mut self, bytes: &[u8]) -> Result<Lease, AllocError>
        ensures fresh { IfOk result (λ lease. leases self.old lease ≡ None) }
        ensures lent { IfOk result (λ lease. leases self.new ≡ with_lease (leases self.old) lease bytes.now) }
        ensures sizes { OnOk result (sizes self.new ≡ sizes self.old ++ length bytes.now ∷ []) }
        ensures err { OnErr result (self.new ≡ self.old) }
    {
        let len = bytes.len() as u64;
        self.reserve(1, len)?;
        let lease = self.lease(len);
        self.write(&lease, bytes);
        Ok(lease)
    }
}
