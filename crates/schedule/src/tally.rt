//! Marks at places in a row, and the place of the mark that has so many before it.
ghost use Rattle.std.specs.Prelude.{ℕ, ◌≡◌, ◌+◌, ◌-◌, ◌*◌, ◌<◌, ◌≤◌, ◌^◌, ◌++◌, ◌==◌, [], not, true, false, length, replicate, slice_index, slice_set, IfOk, OnOk, OnErr};
ghost use Rattle.schedule.specs.Tallies.{CanLower, IsCounted, IsTower, base, counts_of, descended, halved, located, lowered, mark_count, mark_place, total};

use std::alloc::{AllocError, Global};
use std::marker::Model;

/// Marks at places that are counted from 0. Contracts see a list with 1 for each mark and 0 elsewhere. The place of a mark
/// is found in the logarithm of the places: above the marks stand levels of sums, each of pairs of the one below.
#[derive(Drop)]
pub(crate) struct Tally {
    alloc: Global,
    levels: Vec<Vec<usize>>,
}

impl Model for Tally {
    ghost use Rattle.std.specs.Prelude.{ℕ, List};
    ghost use Rattle.schedule.specs.Tallies.{AreMarks, IsTower, base, counts_of};

    ghost Value = { List ℕ };

    ghost view = { λ t. base (counts_of t.levels.items) };

    ghost invariant = { λ t. IsTower (counts_of t.levels.items) × AreMarks (base (counts_of t.levels.items)) };
}

impl Tally {
    /// No places. Takes no memory.
    pub(crate) fn new(alloc: Global) -> Tally
        ensures { result ≡ [] }
    {
        Tally {
            alloc,
            levels: Vec::new(alloc),
        }
    }

    /// More places, each with a mark. Without memory all stays.
    pub(crate) fn grow(&mut self) -> Result<(), AllocError>
        ensures ok { OnOk result (self.new ≡ self.old ++ replicate (length self.old + 32) 1) }
        ensures err { OnErr result (self.new ≡ self.old) }
    {
        let marks = longer(self.alloc, lowest(&self.levels))?;
        self.levels = tower(self.alloc, marks)?;
        Ok(())
    }

    /// Room for one place more than so many.
    pub(crate) fn make_room(&mut self, places: usize) -> Result<(), AllocError>
        requires { places ≤ length self.old }
        ensures ok { OnOk result ((more : ℕ) × (self.new ≡ self.old ++ replicate more 1) × (places < length self.new)) }
        ensures err { OnErr result (self.new ≡ self.old) }
    {
        if places < self.len() {
            return Ok(());
        }
        self.grow()
    }

    /// How many places there are.
    pub(crate) fn len(&self) -> usize
        ensures { result ≡ length self.now }
    {
        lowest(&self.levels).len()
    }

    /// Whether a place has a mark.
    pub(crate) fn is_marked(&self, at: usize) -> bool
        ensures { result ≡ not (slice_index self.now at == 0) }
    {
        match lowest(&self.levels).get(at) {
            Some(mark) => *mark != 0,
            None => false,
        }
    }

    /// Takes the mark from a place.
    pub(crate) fn clear(&mut self, at: usize)
        requires { (slice_index self.old at == 0) ≡ false }
        ensures { self.new ≡ slice_set self.old at 0 }
    {
        lower(&mut self.levels, at);
    }

    /// The place of the mark that has `before` marks before it.
    pub(crate) fn place(&self, before: usize) -> usize
        requires { before < mark_count self.now }
        ensures { result ≡ mark_place self.now before }
    {
        find(&self.levels, before).0
    }
}

/// The marks.
fn lowest(levels: &[Vec<usize>]) -> &[usize]
    ensures { result.now ≡ base (counts_of levels.now) }
{
    match levels {
        [] => &[],
        [level, ..] => level.as_slice(),
    }
}

/// The marks, and as many more and 32, each set.
fn longer(alloc: Global, marks: &[usize]) -> Result<Vec<usize>, AllocError>
    ensures { IfOk result (λ longer. longer.items ≡ marks.now ++ replicate (length marks.now + 32) 1) }
{
    let mut longer = Vec::with_capacity(alloc, 2 * marks.len() + 32)?;
    longer.extend_from_slice(marks)?;
    longer.resize(2 * marks.len() + 32, 1)?;
    Ok(longer)
}

/// The sums of pairs of neighbours.
fn halves(alloc: Global, level: &[usize]) -> Result<Vec<usize>, AllocError>
    requires { total level.now < 2 ^ 64 }
    ensures { IfOk result (λ sums. sums.items ≡ halved level.now) }
{
    let mut sums = Vec::with_capacity(alloc, level.len() / 2 + 1)?;
    let mut rest = level;
    while let [first, second, after @ ..] = rest {
        sums.push(*first + *second)?;
        rest = after;
    }
    if let [last] = rest {
        sums.push(*last)?;
    }
    Ok(sums)
}

/// The levels over the lowest one.
fn tower(alloc: Global, level: Vec<usize>) -> Result<Vec<Vec<usize>>, AllocError>
    requires { total level.items < 2 ^ 64 }
    ensures tower { IfOk result (λ levels. IsTower (counts_of levels.items)) }
    ensures lowest { IfOk result (λ levels. base (counts_of levels.items) ≡ level.items) }
{
    if level.len() <= 2 {
        let mut levels = Vec::new(alloc);
        levels.push(level)?;
        return Ok(levels);
    }
    let mut levels = tower(alloc, halves(alloc, &level)?)?;
    levels.insert(0, level)?;
    Ok(levels)
}

/// One less at a place.
fn lower_one(level: &mut Vec<usize>, at: usize)
    requires within { at < length level.old.items }
    requires some { 1 ≤ slice_index level.old.items at }
    ensures { level.new.items ≡ slice_set level.old.items at (slice_index level.old.items at - 1) }
{
    level[at] -= 1;
}

/// One less at a place, and in each level above.
fn lower(levels: &mut [Vec<usize>], at: usize)
    requires { CanLower at (counts_of levels.old) }
    ensures { counts_of levels.new ≡ lowered at (counts_of levels.old) }
{
    if let Some((level, above)) = levels.split_first_mut() {
        lower_one(level, at);
        lower(above, at / 2);
    }
}

/// The place of the number that counts a thing, by that of its pair, and which of the things of each it is.
fn descend(level: &[usize], pair: usize, rest: usize) -> (usize, usize)
    requires { 2 * pair < length level.now }
    ensures { result ≡ descended level.now (pair, rest) }
{
    let left = level[2 * pair];
    if rest < left {
        (2 * pair, rest)
    } else {
        (2 * pair + 1, rest - left)
    }
}

/// The place of the number that counts thing `k`, and which of its things that is.
fn find(levels: &[Vec<usize>], k: usize) -> (usize, usize)
    requires tower { IsTower (counts_of levels.now) }
    requires counted { IsCounted (counts_of levels.now) k }
    ensures { result ≡ located (counts_of levels.now) k }
{
    match levels.split_first() {
        None => (0, k),
        Some((level, above)) => {
            let (pair, rest) = find(above, k);
            descend(level, pair, rest)
        }
    }
}
