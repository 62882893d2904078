//! What one rank does.
ghost use Rattle.std.specs.Prelude.{◌≡◌, ◌<◌, ◌+◌, ◌^◌, ◌∷◌, ◌++◌, [], IfOk, OnOk, length};
ghost use Rattle.std.specs.List.{filter};
ghost use Rattle.rank_phases.specs.Phases.{names_from, names_to};
ghost use Rattle.gather_example.specs.Gathers.{gather_names, is_sent, told_part};

use byte_pool::{Lease, Pool};
use outside::Name;
use rank_phases::{Entered, Worker, lease_block, names_from_others, names_to_others};
use std::alloc::{AllocError, Global};

/// A rank that tells its word, and in each phase but the first what it heard in phase 0 too: in the first `rounds` phases
/// to each other rank, in each later one to rank 0.
#[derive(Drop)]
pub struct Teller {
    alloc: Global,
    rank: u32,
    ranks: u32,
    rounds: u32,
    phases: u32,
    word: Vec<u8>,
    heard: Vec<u8>,
}

/// Whether a letter between two different ranks is sent.
fn is_sent(rounds: u32, name: Name) -> bool
    ensures { result ≡ is_sent rounds name }
{
    name.phase < rounds || name.to == 0
}

/// Leaves the names of letters that are sent.
fn keep_sent(rounds: u32, names: &mut Vec<Name>)
    ensures { names.new.items ≡ filter (is_sent rounds) names.old.items }
{
    names.retain(|name| is_sent(rounds, *name));
}

/// Writes two parts into a block, one behind the other.
fn write_parts(block: &mut [u8], first: &[u8], second: &[u8])
    requires { length block.old ≡ length first.now + length second.now }
    ensures { block.new ≡ first.now ++ second.now }
{
    block[..first.len()].copy_from_slice(first);
    block[first.len()..].copy_from_slice(second);
}

impl Teller {
    ghost use Rattle.std.specs.Prelude.{ℕ, List};
    ghost use Rattle.rank_phases.specs.Stages.{beginning};
    ghost use Rattle.gather_example.specs.Gathers.{gather};
    ghost use Rattle.gather_example.specs.Tellers.{IsTeller};

    /// The worker of a rank, below `ranks`, with its word.
    pub fn new(
        alloc: Global,
        rank: u32,
        ranks: u32,
        rounds: u32,
        phases: u32,
        word: Vec<u8>,
    ) -> Teller
        requires rank { rank < ranks }
        requires phases { phases + 1 < 2 ^ 32 }
        ensures { (words : ℕ → List ℕ) → words rank ≡ word.items → IsTeller result (beginning (gather words ranks rounds phases) phases rank) }
    {
        Teller {
            alloc,
            rank,
            ranks,
            rounds,
            phases,
            word,
            heard: Vec::new(alloc),
        }
    }

    /// The names of the letters of a phase that it posts.
    fn posts(&self, phase: u32) -> Result<Vec<Name>, AllocError>
        requires { self.now.rank < self.now.ranks }
        ensures { IfOk result (λ names. names.items ≡ names_from (gather_names self.now.ranks self.now.rounds self.now.phases) phase self.now.rank) }
    {
        if phase >= self.phases {
            return Ok(Vec::new(self.alloc));
        }
        let mut names = names_to_others(self.alloc, self.ranks, phase, self.rank)?;
        keep_sent(self.rounds, &mut names);
        Ok(names)
    }

    /// The names of the letters of a phase that it awaits.
    fn awaits(&self, phase: u32) -> Result<Vec<Name>, AllocError>
        requires { self.now.rank < self.now.ranks }
        ensures { IfOk result (λ names. names.items ≡ names_to (gather_names self.now.ranks self.now.rounds self.now.phases) phase self.now.rank) }
    {
        if phase >= self.phases {
            return Ok(Vec::new(self.alloc));
        }
        let mut names = names_from_others(self.alloc, self.ranks, phase, self.rank)?;
        keep_sent(self.rounds, &mut names);
        Ok(names)
    }

    /// What it says in a letter behind its word.
    fn says(&self, name: Name) -> &[u8]
        ensures { result.now ≡ told_part name self.now.heard.items }
    {
        if name.phase == 0 {
            return &[];
        }
        &self.heard
    }

    /// What it heard in phase 0, in the order of arrival.
    pub fn heard(&self) -> &[u8]
        ensures { result.now ≡ self.now.heard.items }
    {
        &self.heard
    }
}

impl Worker for Teller {
    ghost use Rattle.gather_example.specs.Tellers.{IsTeller};

    ghost stands = { λ w s. IsTeller w s };

    fn phases(&self) -> u32 {
        self.phases
    }

    fn enter(&mut self, phase: u32, _pool: &mut Pool) -> Result<Entered, AllocError> {
        let posts = self.posts(phase)?;
        let awaits = self.awaits(phase)?;
        Ok(Entered { posts, awaits })
    }

    fn pack(&self, name: Name, pool: &mut Pool) -> Result<Lease, AllocError> {
        let said = self.says(name);
        let lease = lease_block(pool, (self.word.len() + said.len()) as u64)?;
        write_parts(pool.bytes_mut(&lease), &self.word, said);
        Ok(lease)
    }

    fn absorb(&mut self, name: Name, bytes: &[u8]) -> Result<(), AllocError> {
        if name.phase == 0 {
            self.heard.extend_from_slice(bytes)?;
        }
        Ok(())
    }
}
