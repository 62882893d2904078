//! Import plans from a uniform to a cyclic map, made by all ranks as they make them: each knows the owners of its target's
//! indices by rule, says in a letter to each other rank what it wants of it, and accepts what is wanted of itself.
ghost use Rattle.std.specs.Prelude.{◌≡◌, ◌+◌, ◌<◌, ◌≤◌, ◌^◌, ℕ, true, length, map, All, IsSome, IfOk, OnOk};
ghost use Rattle.map_core.specs.Layouts.{owner, rank_list, stands};
ghost use Rattle.map_core.specs.Uniform.{uniform_layout};
ghost use Rattle.import_plan.specs.Imports.{import_start, want_of};

use crate::transfers::Fault;
use import_plan::{ImportPlan, WantFault};
use letter_codec::{Kind, letter_len, put_word, read_letter, word, word_count, write_head};
use map_core::{Gid, Layout, LocalMap, Plan, uniform_owner};
use std::alloc::{AllocError, AllocFailed, Global};

/// How many ranks there are.
const RANKS: u32 = 4;

/// The most indices of a map.
const MOST: usize = 16777216;

impl<T: Drop> From<AllocFailed<T>> for Fault {
    fn from(_: AllocFailed<T>) -> Fault {
        Fault::NoMem
    }
}

impl From<WantFault> for Fault {
    fn from(fault: WantFault) -> Fault {
        match fault {
            WantFault::NotHeld { .. } => Fault::NotTheLetter,
            WantFault::NoMem => Fault::NoMem,
        }
    }
}

/// The owners of a target's indices, each by the uniform map of so many indices.
fn owners_of(alloc: Global, size: Gid, target: &LocalMap) -> Result<Vec<Option<u32>>, AllocError>
    requires size_limit { size ≤ 2 ^ 40 }
    requires below { (g : ℕ) → stands g target.now ≡ true → g < size }
    ensures owners { IfOk result (λ owners. owners.items ≡ map (owner (uniform_layout 4 size)) target.now) }
{
    let mut owners = Vec::with_capacity(alloc, target.len() as usize)?;
    for lid in 0..target.len() {
        match target.global_of(lid) {
            Some(gid) => owners.push(Some(uniform_owner(RANKS, size, gid)))?,
            None => unreachable!(),
        }
    }
    Ok(owners)
}

/// The import of a rank, as it begins.
fn begun(alloc: Global, source: &Layout, target: &Layout, me: u32) -> Result<ImportPlan, AllocError>
    requires known { me < 4 }
    requires source { source.now ≡ uniform_layout 4 target.now.size }
    requires ranks { length target.now.lists ≡ 4 }
    requires size_limit { target.now.size ≤ 2 ^ 40 }
    ensures begun { let owners = map (owner source.now) (rank_list target.now me) in
        IfOk result (λ import. import ≡ import_start me 4 (rank_list source.now me) (rank_list target.now me) owners) }
{
    let owners = owners_of(alloc, target.size(), target.list(me))?;
    ImportPlan::start(alloc, me, RANKS, source.list(me), target.list(me), &owners)
}

/// So many bytes.
fn zeros(alloc: Global, len: usize) -> Result<Vec<u8>, AllocError>
    ensures { IfOk result (λ bytes. length bytes.items ≡ len) }
{
    vec![in alloc; 0; len]
}

/// The letter that says which indices are wanted.
fn want_letter(alloc: Global, gids: &[Gid]) -> Result<Vec<u8>, Fault> {
    if gids.len() > MOST {
        return Err(Fault::NoRoom);
    }
    let count = gids.len() as u64;
    let mut bytes = zeros(alloc, letter_len(count, 0) as usize)?;
    write_head(Kind::Want, count, &mut bytes);
    for at in 0..gids.len() {
        put_word(&mut bytes, at as u64, gids[at]);
    }
    Ok(bytes)
}

/// Puts the letters of a rank to each rank at the end.
fn add_letters(alloc: Global, letters: &mut Vec<Vec<u8>>, import: &ImportPlan) -> Result<(), Fault>
    requires ranks { import.now.ranks ≡ 4 }
    ensures count { OnOk result (length letters.new.items ≡ length letters.old.items + 4) }
{
    for to in 0..RANKS {
        letters.push(want_letter(alloc, import.wanted(to))?)?;
    }
    Ok(())
}

/// The indices that a letter says.
fn wanted_by(alloc: Global, bytes: &[u8]) -> Result<Vec<Gid>, Fault> {
    let Some(letter) = read_letter(bytes) else {
        return Err(Fault::NotTheLetter);
    };
    if !matches!(letter.kind, Kind::Want) {
        return Err(Fault::NotTheLetter);
    }
    let mut gids = Vec::with_capacity(alloc, word_count(&letter) as usize)?;
    for at in 0..word_count(&letter) {
        gids.push(word(&letter, at))?;
    }
    Ok(gids)
}

/// Accepts what the letter of a rank says.
fn accept(alloc: Global, import: &mut ImportPlan, from: u32, bytes: &[u8]) -> Result<(), Fault>
    requires known { from < import.old.ranks }
    ensures ranks { import.new.ranks ≡ import.old.ranks }
{
    if import.has_want(from) {
        return Err(Fault::NotTheLetter);
    }
    let gids = wanted_by(alloc, bytes)?;
    import.accept_want(from, &gids)?;
    Ok(())
}

/// Whether a want of each rank was accepted.
fn has_all(import: &ImportPlan) -> bool
    requires ranks { import.now.ranks ≡ 4 }
    ensures all { result ≡ true → (q : ℕ) → q < 4 → IsSome (want_of import.now q) }
{
    for from in 0..RANKS {
        if !import.has_want(from) {
            return false;
        }
    }
    true
}

/// The plan of a rank, once it accepted what each letter to it says.
fn finished(alloc: Global, import: ImportPlan, me: u32, letters: &[Vec<u8>]) -> Result<Plan, Fault>
    requires known { me < 4 }
    requires ranks { import.ranks ≡ 4 }
    requires letters { length letters.now ≡ 16 }
    ensures ranks { IfOk result (λ plan. plan.ranks ≡ 4) }
{
    let mut import = import;
    for from in 0..RANKS {
        accept(
            alloc,
            &mut import,
            from,
            &letters[(RANKS * from + me) as usize],
        )?;
    }
    if !has_all(&import) {
        return Err(Fault::NotTheLetter);
    }
    Ok(import.finish()?)
}

/// The plans of all ranks, that of the last one first.
fn all_finished(
    alloc: Global,
    imports: Vec<ImportPlan>,
    letters: &[Vec<u8>],
) -> Result<Vec<Plan>, Fault>
    requires few { length imports.items ≤ 4 }
    requires ranks { All (λ import. import.ranks ≡ 4) imports.items }
    requires letters { length letters.now ≡ 16 }
    ensures ranks { IfOk result (λ plans. All (λ plan. plan.ranks ≡ 4) plans.items) }
{
    let mut imports = imports;
    let mut plans = Vec::with_capacity(alloc, imports.len())?;
    while let Some(import) = imports.pop() {
        plans.push(finished(alloc, import, imports.len() as u32, letters)?)?;
    }
    Ok(plans)
}

/// The plans of all ranks from the uniform to the cyclic map of so many indices, that of the last rank first.
fn plans_of(alloc: Global, size: Gid) -> Result<Vec<Plan>, Fault>
    requires size_limit { size ≤ 16777216 }
    ensures ranks { IfOk result (λ plans. All (λ plan. plan.ranks ≡ 4) plans.items) }
{
    let source = Layout::uniform(alloc, RANKS, size)?;
    let target = Layout::cyclic(alloc, RANKS, size)?;
    let mut imports = Vec::with_capacity(alloc, RANKS as usize)?;
    let mut letters = Vec::new(alloc);
    for me in 0..RANKS {
        let import = begun(alloc, &source, &target, me)?;
        add_letters(alloc, &mut letters, &import)?;
        imports.push(import)?;
    }
    all_finished(alloc, imports, &letters)
}

/// The sum of these positions.
fn sum(positions: &[u32]) -> u64 {
    let mut sum = 0u64;
    for position in positions {
        sum = sum.wrapping_add(*position as u64);
    }
    sum
}

/// The sum of all positions of a plan.
fn sum_of(plan: &Plan) -> u64
    requires ranks { plan.now.ranks ≡ 4 }
{
    let mut all = plan.same() as u64;
    all = all.wrapping_add(sum(plan.permute_to()));
    all = all.wrapping_add(sum(plan.permute_from()));
    for rank in 0..RANKS {
        all = all.wrapping_add(sum(plan.exports_to(rank)));
        all = all.wrapping_add(sum(plan.remotes_from(rank)));
    }
    all
}

/// The sum of all positions of the plans of all rounds.
pub fn plan(alloc: Global, rounds: u32, count: u32) -> Result<u64, Fault> {
    let size = count.min(16_777_216) as u64;
    let mut all = 0u64;
    for _ in 0..rounds {
        for plan in &plans_of(alloc, size)? {
            all = all.wrapping_add(sum_of(plan));
        }
    }
    Ok(all)
}
