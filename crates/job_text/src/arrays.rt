//! The arrays of tables.
ghost use Rattle.std.specs.Prelude.{◌≡◌, ◌≤◌, ◌+◌, IfOk, length};
ghost use Rattle.job_text.specs.Outcomes.{GivesAs};
ghost use Rattle.job_text.specs.Lists.{are_tables, item_count};
ghost use Rattle.job_text.specs.Tables.{tables_at, tables_of, table_of};
ghost use Rattle.toml.specs.View.{items_view, table_view, view};

use crate::JobFault;
use crate::fault::{limit, wrong_kind};
use crate::place::Place;
use crate::value::{array_of, value_at};
use std::alloc::Global;
use toml::{Table, Value};

/// A table of an array.
pub fn table_of<'a>(alloc: Global, key: &str, item: &'a Value) -> Result<&'a Table, JobFault>
    ensures { GivesAs (λ t. table_view t.now) result (table_of key.now (view item.now)) }
{
    match item.as_table() {
        Some(table) => Ok(table),
        None => Err(wrong_kind(alloc, Place::Top, key)),
    }
}

/// Whether each item is a table.
fn are_tables(items: &[Value]) -> bool
    ensures { result ≡ are_tables (items_view items.now) }
{
    for item in items {
        if item.as_table().is_none() {
            return false;
        }
    }
    true
}

/// How many items there are.
#[tactic(auto, using(crate::proofs::KeyLists::items_counted))]
pub fn count(items: &[Value]) -> usize
    ensures items { result ≡ item_count (items_view items.now) }
    ensures len { result ≡ length items.now }
{
    items.len()
}

/// The tables of a value, where with those before they are at most so many.
fn tables_of<'a>(
    alloc: Global,
    key: &str,
    before: usize,
    most: usize,
    value: &'a Value,
) -> Result<&'a [Value], JobFault>
    requires { before ≤ most }
    ensures few { IfOk result (λ a. before + length a.now ≤ most) }
    ensures tables { GivesAs (λ a. items_view a.now) result (tables_of key.now before most (view value.now)) }
{
    let array = array_of(alloc, Place::Top, key, value)?;
    let items = array.as_slice();
    if !are_tables(items) {
        return Err(wrong_kind(alloc, Place::Top, key));
    }
    if count(items) > most - before {
        return Err(limit(alloc, Place::Top, key));
    }
    Ok(items)
}

/// The tables of an array of the top table, none where it is missing.
pub fn tables_at<'a>(
    alloc: Global,
    top: &'a Table,
    key: &str,
    before: usize,
    most: usize,
) -> Result<&'a [Value], JobFault>
    requires { before ≤ most }
    ensures few { IfOk result (λ a. before + length a.now ≤ most) }
    ensures tables { GivesAs (λ a. items_view a.now) result (tables_at (table_view top.now) key.now before most) }
{
    match value_at(top, key) {
        None => Ok(&[]),
        Some(value) => tables_of(alloc, key, before, most, value),
    }
}
