//! Arrays of numbers and of file names.
ghost use Rattle.std.specs.Prelude.{◌≡◌, ◌<◌, ◌≤◌, ◌^◌, [], All, IfOk, length, map, nat_le, sum};
ghost use Rattle.std.specs.List.{concat};
ghost use Rattle.job_text.specs.Outcomes.{Gives, GivesAs};
ghost use Rattle.job_text.specs.Keys.{file_of, integer_of, number_within};
ghost use Rattle.job_text.specs.Lists.{counts_of, each_element, each_item, file_names_of, index_lists_of, indices_of, integer_lists_of, integers_of};
ghost use Rattle.toml.specs.View.{array_view, view};

use crate::JobFault;
use crate::fault::{limit, wrong_kind};
use crate::place::Place;
use crate::value::{array_of, file_of, integer_of, number_within};
use map_core::Gid;
use model_defs::{ListOf, Text};
use std::alloc::Global;
use toml::Value;
use toml::value::Array;

/// The most that an integer may be.
const MOST: u64 = 9223372036854775807;

/// The integers of an array.
fn integers_in(
    alloc: Global,
    place: Place,
    key: &str,
    array: &Array,
) -> Result<ListOf<i64>, JobFault>
    ensures { Gives result (each_item (integer_of place key.now) [] (array_view array.now)) }
{
    let mut numbers = Vec::new(alloc);
    for item in array {
        let number = integer_of(alloc, place, key, item)?;
        numbers.push(number)?;
    }
    Ok(ListOf::new(numbers))
}

/// The integers of a value.
fn integers_of(
    alloc: Global,
    place: Place,
    key: &str,
    value: &Value,
) -> Result<ListOf<i64>, JobFault>
    ensures { Gives result (integers_of place key.now (view value.now)) }
{
    let array = array_of(alloc, place, key, value)?;
    integers_in(alloc, place, key, array)
}

/// The lists of integers of an array.
fn integer_lists_in(
    alloc: Global,
    place: Place,
    key: &str,
    array: &Array,
) -> Result<ListOf<ListOf<i64>>, JobFault>
    ensures { Gives result (each_item (integers_of place key.now) [] (array_view array.now)) }
{
    let mut lists = Vec::new(alloc);
    for item in array {
        let list = integers_of(alloc, place, key, item)?;
        lists.push(list)?;
    }
    Ok(ListOf::new(lists))
}

/// The lists of integers of a value.
fn integer_lists_of(
    alloc: Global,
    place: Place,
    key: &str,
    value: &Value,
) -> Result<ListOf<ListOf<i64>>, JobFault>
    ensures { Gives result (integer_lists_of place key.now (view value.now)) }
{
    let array = array_of(alloc, place, key, value)?;
    integer_lists_in(alloc, place, key, array)
}

/// The file names of an array.
fn file_names_in(
    alloc: Global,
    place: Place,
    key: &str,
    array: &Array,
) -> Result<ListOf<Text>, JobFault>
    ensures { Gives result (each_item (file_of place key.now) [] (array_view array.now)) }
{
    let mut names = Vec::new(alloc);
    for item in array {
        let name = file_of(alloc, place, key, item)?;
        names.push(name)?;
    }
    Ok(ListOf::new(names))
}

/// The file names of a value.
pub fn file_names_of(
    alloc: Global,
    place: Place,
    key: &str,
    value: &Value,
) -> Result<ListOf<Text>, JobFault>
    ensures { Gives result (file_names_of place key.now (view value.now)) }
{
    let array = array_of(alloc, place, key, value)?;
    file_names_in(alloc, place, key, array)
}

/// The number, from 0 to the most.
fn element_within(
    alloc: Global,
    place: Place,
    key: &str,
    most: u64,
    number: &i64,
) -> Result<u64, JobFault>
    ensures number { Gives result (number_within place key.now 0 most number.now) }
    ensures within { IfOk result (λ n. n ≤ most) }
{
    let number = *number;
    number_within(alloc, place, key, 0, most, number)
}

/// The numbers, each from 0 to the most.
fn numbers_within(
    alloc: Global,
    place: Place,
    key: &str,
    most: u32,
    numbers: &[i64],
) -> Result<ListOf<u32>, JobFault>
    ensures { Gives result (each_element (number_within place key.now 0 most) [] numbers.now) }
{
    let mut counts = Vec::new(alloc);
    for number in numbers {
        let count = element_within(alloc, place, key, most as u64, number)?;
        counts.push(count as u32)?;
    }
    Ok(ListOf::new(counts))
}

/// Whether the sum of the numbers is at most this.
fn is_sum_within(most: u32, counts: &[u32]) -> bool
    ensures { result ≡ nat_le (sum counts.now) most }
{
    let mut left = most;
    for count in counts {
        if *count > left {
            return false;
        }
        left -= *count;
    }
    true
}

/// The counts of a value: one for each rank, each and in sum at most this.
pub fn counts_of(
    alloc: Global,
    place: Place,
    key: &str,
    ranks: u32,
    most: u32,
    value: &Value,
) -> Result<ListOf<u32>, JobFault>
    ensures counts { Gives result (counts_of place key.now ranks most (view value.now)) }
    ensures one_per_rank { IfOk result (λ counts. length counts ≡ ranks) }
    ensures within { IfOk result (λ counts. sum counts ≤ most) }
{
    let numbers = integers_of(alloc, place, key, value)?;
    if numbers.as_slice().len() != ranks as usize {
        return Err(wrong_kind(alloc, place, key));
    }
    let counts = numbers_within(alloc, place, key, most, numbers.as_slice())?;
    if is_sum_within(most, counts.as_slice()) {
        Ok(counts)
    } else {
        Err(limit(alloc, place, key))
    }
}

/// The indices, none below 0.
fn indices_of(alloc: Global, place: Place, key: &str, numbers: &[i64]) -> Result<Vec<Gid>, JobFault>
    ensures { GivesAs (λ gids. gids.items) result (indices_of place key.now numbers.now) }
{
    let mut gids = Vec::with_capacity(alloc, numbers.len())?;
    for number in numbers {
        let gid = element_within(alloc, place, key, MOST, number)?;
        gids.push(gid)?;
    }
    Ok(gids)
}

/// The lists of indices, none below 0.
#[tactic(auto, using(crate::proofs::ListViews::items_push))]
fn index_lists(
    alloc: Global,
    place: Place,
    key: &str,
    lists: &[ListOf<i64>],
) -> Result<Vec<Vec<Gid>>, JobFault>
    ensures { GivesAs (λ all. map (λ list. list.items) all.items) result (each_element (indices_of place key.now) [] lists.now) }
{
    let mut all = Vec::with_capacity(alloc, lists.len())?;
    for list in lists {
        let gids = indices_of(alloc, place, key, list.as_slice())?;
        all.push(gids)?;
    }
    Ok(all)
}

/// Whether the lists have together at most so many indices.
#[tactic(auto, using(crate::proofs::ListViews::rest_count))]
fn are_few(most: u64, lists: &[Vec<Gid>]) -> bool
    ensures { result ≡ nat_le (length (concat (map (λ list. list.items) lists.now))) most }
{
    let mut left = most;
    for list in lists {
        let count = list.len() as u64;
        if count > left {
            return false;
        }
        left -= count;
    }
    true
}

/// The lists of indices of a value: one for each rank, none below 0, together at most so many.
pub fn index_lists_of(
    alloc: Global,
    place: Place,
    key: &str,
    ranks: u32,
    most: u64,
    value: &Value,
) -> Result<Vec<Vec<Gid>>, JobFault>
    ensures lists { GivesAs (λ all. map (λ list. list.items) all.items) result (index_lists_of place key.now ranks most (view value.now)) }
    ensures few { IfOk result (λ all. length (concat (map (λ list. list.items) all.items)) ≤ most) }
    ensures one_per_rank { IfOk result (λ all. length (map (λ list. list.items) all.items) ≡ ranks) }
{
    let numbers = integer_lists_of(alloc, place, key, value)?;
    if numbers.as_slice().len() != ranks as usize {
        return Err(wrong_kind(alloc, place, key));
    }
    let lists = index_lists(alloc, place, key, numbers.as_slice())?;
    if are_few(most, &lists) {
        Ok(lists)
    } else {
        Err(limit(alloc, place, key))
    }
}
