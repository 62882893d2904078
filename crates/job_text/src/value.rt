//! The values of the keys of a table.
ghost use Rattle.std.specs.Prelude.{◌≡◌, ◌<◌, ◌≤◌, ◌^◌, IfOk, option_map};
ghost use Rattle.job_text.specs.Outcomes.{Gives, GivesAs};
ghost use Rattle.job_text.specs.Names.{unknown_in};
ghost use Rattle.job_text.specs.Keys.{array_of, file_at, file_of, flag_of, flag_or, integer_at, integer_of, integer_or, map_at, map_named, mode_at, mode_of, mode_or, name_at, name_of, new_name_at, number_at, number_of, number_or, number_within, only_keys, required, text_of, value_named, value_or_none};
ghost use Rattle.job_text.specs.Keys.{value_at as value_of_name_at};
ghost use Rattle.toml.specs.Data.{get_member};
ghost use Rattle.toml.specs.View.{array_view, table_view, view};

use crate::JobFault;
use crate::fault::{limit, missing, name_taken, unknown_key, unknown_name, wrong_kind};
use crate::known::Known;
use crate::names::is_name;
use crate::place::Place;
use crate::words::{Form, is_key, mode_named};
use combine_modes::Mode;
use model_defs::Text;
use std::alloc::Global;
use toml::value::Array;
use toml::{Table, Value};

/// The first key of a table that its form does not have.
fn first_unknown(form: Form, table: &Table) -> Option<&str>
    ensures { option_map (λ s. s.now) result ≡ unknown_in form (table_view table.now) }
{
    for key in table.keys() {
        if !is_key(form, key.as_str()) {
            return Some(key.as_str());
        }
    }
    None
}

/// Refuses a key that the form of the table does not have.
pub fn only_keys(alloc: Global, place: Place, form: Form, table: &Table) -> Result<(), JobFault>
    ensures { Gives result (only_keys place form (table_view table.now)) }
{
    match first_unknown(form, table) {
        None => Ok(()),
        Some(key) => Err(unknown_key(alloc, place, key)),
    }
}

/// The value at a key.
pub fn value_at<'a>(table: &'a Table, key: &str) -> Option<&'a Value>
    ensures { option_map (λ v. view v.now) result ≡ get_member key.now (table_view table.now) }
{
    table.get(key)
}

/// The value at a key that must stand.
pub fn required<'a>(
    alloc: Global,
    place: Place,
    table: &'a Table,
    key: &str,
) -> Result<&'a Value, JobFault>
    ensures { GivesAs (λ v. view v.now) result (required place (table_view table.now) key.now) }
{
    match value_at(table, key) {
        Some(value) => Ok(value),
        None => Err(missing(alloc, place, key)),
    }
}

/// The integer of a value.
pub fn integer_of(alloc: Global, place: Place, key: &str, value: &Value) -> Result<i64, JobFault>
    ensures { Gives result (integer_of place key.now (view value.now)) }
{
    match value.as_integer() {
        Some(number) => Ok(number),
        None => Err(wrong_kind(alloc, place, key)),
    }
}

/// The text of a value.
pub fn text_of<'a>(
    alloc: Global,
    place: Place,
    key: &str,
    value: &'a Value,
) -> Result<&'a str, JobFault>
    ensures { GivesAs (λ s. s.now) result (text_of place key.now (view value.now)) }
{
    match value.as_str() {
        Some(text) => Ok(text),
        None => Err(wrong_kind(alloc, place, key)),
    }
}

/// The truth value of a value.
fn flag_of(alloc: Global, place: Place, key: &str, value: &Value) -> Result<bool, JobFault>
    ensures { Gives result (flag_of place key.now (view value.now)) }
{
    match value.as_bool() {
        Some(flag) => Ok(flag),
        None => Err(wrong_kind(alloc, place, key)),
    }
}

/// The array of a value.
pub fn array_of<'a>(
    alloc: Global,
    place: Place,
    key: &str,
    value: &'a Value,
) -> Result<&'a Array, JobFault>
    ensures { GivesAs (λ a. array_view a.now) result (array_of place key.now (view value.now)) }
{
    match value.as_array() {
        Some(array) => Ok(array),
        None => Err(wrong_kind(alloc, place, key)),
    }
}

/// The number, where it is within its range.
pub fn number_within(
    alloc: Global,
    place: Place,
    key: &str,
    low: u64,
    high: u64,
    number: i64,
) -> Result<u64, JobFault>
    ensures number { Gives result (number_within place key.now low high number) }
    ensures within { IfOk result (λ n. n ≤ high) }
{
    if number < 0 {
        return Err(limit(alloc, place, key));
    }
    let number = number as u64;
    if low <= number && number <= high {
        Ok(number)
    } else {
        Err(limit(alloc, place, key))
    }
}

/// The number of a value, within its range.
pub fn number_of(
    alloc: Global,
    place: Place,
    key: &str,
    low: u64,
    high: u64,
    value: &Value,
) -> Result<u64, JobFault>
    ensures number { Gives result (number_of place key.now low high (view value.now)) }
    ensures within { IfOk result (λ n. n ≤ high) }
{
    let number = integer_of(alloc, place, key, value)?;
    number_within(alloc, place, key, low, high, number)
}

/// The name of a value.
pub fn name_of<'a>(
    alloc: Global,
    place: Place,
    key: &str,
    value: &'a Value,
) -> Result<&'a str, JobFault>
    ensures { GivesAs (λ s. s.now) result (name_of place key.now (view value.now)) }
{
    let text = text_of(alloc, place, key, value)?;
    if is_name(text) {
        Ok(text)
    } else {
        Err(wrong_kind(alloc, place, key))
    }
}

/// The file name of a value.
pub fn file_of(alloc: Global, place: Place, key: &str, value: &Value) -> Result<Text, JobFault>
    ensures { Gives result (file_of place key.now (view value.now)) }
{
    let text = text_of(alloc, place, key, value)?;
    if text.len() >= 1 {
        Ok(Text::new(alloc, text)?)
    } else {
        Err(wrong_kind(alloc, place, key))
    }
}

/// The combine mode of a value.
fn mode_of(alloc: Global, place: Place, key: &str, value: &Value) -> Result<Mode, JobFault>
    ensures { Gives result (mode_of place key.now (view value.now)) }
{
    let word = text_of(alloc, place, key, value)?;
    match mode_named(word) {
        Some(mode) => Ok(mode),
        None => Err(wrong_kind(alloc, place, key)),
    }
}

/// The number of the map of this name.
pub fn map_named(alloc: Global, name: &str, known: &Known) -> Result<u32, JobFault>
    ensures { Gives result (map_named known.now name.now) }
{
    match known.map_number(name) {
        Some(number) => Ok(number),
        None => Err(unknown_name(alloc, name)),
    }
}

/// The number of the value of this name.
pub fn value_named(alloc: Global, name: &str, known: &Known) -> Result<u32, JobFault>
    ensures { Gives result (value_named known.now name.now) }
{
    match known.value_number(name) {
        Some(number) => Ok(number),
        None => Err(unknown_name(alloc, name)),
    }
}

/// The integer at a key that must stand.
pub fn integer_at(alloc: Global, place: Place, table: &Table, key: &str) -> Result<i64, JobFault>
    ensures { Gives result (integer_at place (table_view table.now) key.now) }
{
    let value = required(alloc, place, table, key)?;
    integer_of(alloc, place, key, value)
}

/// The number at a key that must stand.
pub fn number_at(
    alloc: Global,
    place: Place,
    table: &Table,
    key: &str,
    low: u64,
    high: u64,
) -> Result<u64, JobFault>
    ensures number { Gives result (number_at place (table_view table.now) key.now low high) }
    ensures within { IfOk result (λ n. n ≤ high) }
{
    let value = required(alloc, place, table, key)?;
    number_of(alloc, place, key, low, high, value)
}

/// The name at a key that must stand.
pub fn name_at<'a>(
    alloc: Global,
    place: Place,
    table: &'a Table,
    key: &str,
) -> Result<&'a str, JobFault>
    ensures { GivesAs (λ s. s.now) result (name_at place (table_view table.now) key.now) }
{
    let value = required(alloc, place, table, key)?;
    name_of(alloc, place, key, value)
}

/// The file name at a key that must stand.
pub fn file_at(alloc: Global, place: Place, table: &Table, key: &str) -> Result<Text, JobFault>
    ensures { Gives result (file_at place (table_view table.now) key.now) }
{
    let value = required(alloc, place, table, key)?;
    file_of(alloc, place, key, value)
}

/// The combine mode at a key that must stand.
pub fn mode_at(alloc: Global, place: Place, table: &Table, key: &str) -> Result<Mode, JobFault>
    ensures { Gives result (mode_at place (table_view table.now) key.now) }
{
    let value = required(alloc, place, table, key)?;
    mode_of(alloc, place, key, value)
}

/// The name at the key `name`, which no map and no value has.
pub fn new_name_at(
    alloc: Global,
    place: Place,
    table: &Table,
    known: &Known,
) -> Result<Text, JobFault>
    ensures { Gives result (new_name_at place (table_view table.now) known.now) }
{
    let name = name_at(alloc, place, table, "name")?;
    if known.is_taken(name) {
        return Err(name_taken(alloc, name));
    }
    Ok(Text::new(alloc, name)?)
}

/// The map that a key names.
pub fn map_at(
    alloc: Global,
    place: Place,
    table: &Table,
    key: &str,
    known: &Known,
) -> Result<u32, JobFault>
    ensures { Gives result (map_at place (table_view table.now) key.now known.now) }
{
    let name = name_at(alloc, place, table, key)?;
    map_named(alloc, name, known)
}

/// The value that a key names.
pub fn known_value_at(
    alloc: Global,
    place: Place,
    table: &Table,
    key: &str,
    known: &Known,
) -> Result<u32, JobFault>
    ensures { Gives result (value_of_name_at place (table_view table.now) key.now known.now) }
{
    let name = name_at(alloc, place, table, key)?;
    value_named(alloc, name, known)
}

/// The integer at a key, or what stands for it where it is missing.
pub fn integer_or(
    alloc: Global,
    place: Place,
    table: &Table,
    key: &str,
    default: i64,
) -> Result<i64, JobFault>
    ensures { Gives result (integer_or place (table_view table.now) key.now default) }
{
    match value_at(table, key) {
        None => Ok(default),
        Some(value) => integer_of(alloc, place, key, value),
    }
}

/// The number at a key, or what stands for it where it is missing.
pub fn number_or(
    alloc: Global,
    place: Place,
    table: &Table,
    key: &str,
    default: u64,
    low: u64,
    high: u64,
) -> Result<u64, JobFault>
    requires { default ≤ high }
    ensures number { Gives result (number_or place (table_view table.now) key.now default low high) }
    ensures within { IfOk result (λ n. n ≤ high) }
{
    match value_at(table, key) {
        None => Ok(default),
        Some(value) => number_of(alloc, place, key, low, high, value),
    }
}

/// The truth value at a key, or what stands for it where it is missing.
pub fn flag_or(
    alloc: Global,
    place: Place,
    table: &Table,
    key: &str,
    default: bool,
) -> Result<bool, JobFault>
    ensures { Gives result (flag_or place (table_view table.now) key.now default) }
{
    match value_at(table, key) {
        None => Ok(default),
        Some(value) => flag_of(alloc, place, key, value),
    }
}

/// The combine mode at a key, or what stands for it where it is missing.
pub fn mode_or(
    alloc: Global,
    place: Place,
    table: &Table,
    key: &str,
    default: Mode,
) -> Result<Mode, JobFault>
    ensures { Gives result (mode_or place (table_view table.now) key.now default) }
{
    match value_at(table, key) {
        None => Ok(default),
        Some(value) => mode_of(alloc, place, key, value),
    }
}

/// The value that a key names, or none where it is missing.
pub fn value_or_none(
    alloc: Global,
    place: Place,
    table: &Table,
    key: &str,
    known: &Known,
) -> Result<Option<u32>, JobFault>
    ensures { Gives result (value_or_none place (table_view table.now) key.now known.now) }
{
    match value_at(table, key) {
        None => Ok(None),
        Some(value) => {
            let name = name_of(alloc, place, key, value)?;
            let number = value_named(alloc, name, known)?;
            Ok(Some(number))
        }
    }
}
