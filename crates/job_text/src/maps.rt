//! The tables of `map`.
ghost use Rattle.std.specs.Prelude.{◌≡◌, ◌<◌, ◌≤◌, ◌^◌, [], All, IfErr, IfOk, OnOk, length, map, ◌↔◌, true};
ghost use Rattle.model_defs.specs.Limits.{most_indices};
ghost use Rattle.job_text.specs.Outcomes.{Gives, GivesAs};
ghost use Rattle.job_text.specs.Known.{layout_by, read, with_spec};
ghost use Rattle.job_text.specs.SoundLayouts.{IsSoundLayout};
ghost use Rattle.job_text.specs.Maps.{blocks_in, cyclic_in, form_in, kind_at, kind_of, lists_at, lists_in, map_in, map_of_kind, maps_after, uniform_in};
ghost use Rattle.toml.specs.View.{items_view, table_view, view};

use crate::JobFault;
use crate::arrays::table_of;
use crate::fault::{bad_map, wrong_kind};
use crate::known::Known;
use crate::lists::{counts_of, index_lists_of};
use crate::place::Place;
use crate::value::{new_name_at, number_at, only_keys, required, text_of};
use crate::words::{Form, MapKind, kind_named};
use map_core::{Gid, Layout, MapFault};
use model_defs::{ListOf, MapForm, MapSpec, Text};
use std::alloc::{AllocError, Global};
use toml::{Table, Value};

/// A map that was read, and its layout.
#[derive(Drop)]
struct ReadMap {
    spec: MapSpec,
    layout: Layout,
}

/// The kind of a map, from its word.
fn kind_of(alloc: Global, place: Place, value: &Value) -> Result<MapKind, JobFault>
    ensures { Gives result (kind_of place (view value.now)) }
{
    let word = text_of(alloc, place, "kind", value)?;
    match kind_named(word) {
        Some(kind) => Ok(kind),
        None => Err(wrong_kind(alloc, place, "kind")),
    }
}

/// The kind of a map.
fn kind_at(alloc: Global, place: Place, table: &Table) -> Result<MapKind, JobFault>
    ensures { Gives result (kind_at place (table_view table.now)) }
{
    let value = required(alloc, place, table, "kind")?;
    kind_of(alloc, place, value)
}

/// A uniform map.
fn uniform_in(
    alloc: Global,
    place: Place,
    table: &Table,
    ranks: u32,
    name: Text,
) -> Result<ReadMap, JobFault>
    requires some_rank { 1 ≤ ranks }
    requires ranks_limit { ranks ≤ 32 }
    ensures spec { GivesAs (λ r. r.spec) result (uniform_in place (table_view table.now) ranks name) }
    ensures layout { IfOk result (λ r. r.layout ≡ layout_by ranks r.spec) }
{
    let size = number_at(alloc, place, table, "size", 0, 16777216)?;
    let layout = Layout::uniform(alloc, ranks, size)?;
    let form = MapForm::Uniform;
    let spec = MapSpec { name, size, form };
    Ok(ReadMap { spec, layout })
}

/// A cyclic map.
fn cyclic_in(
    alloc: Global,
    place: Place,
    table: &Table,
    ranks: u32,
    name: Text,
) -> Result<ReadMap, JobFault>
    requires some_rank { 1 ≤ ranks }
    requires ranks_limit { ranks ≤ 32 }
    ensures spec { GivesAs (λ r. r.spec) result (cyclic_in place (table_view table.now) ranks name) }
    ensures layout { IfOk result (λ r. r.layout ≡ layout_by ranks r.spec) }
{
    let size = number_at(alloc, place, table, "size", 0, 16777216)?;
    let layout = Layout::cyclic(alloc, ranks, size)?;
    let form = MapForm::Cyclic;
    let spec = MapSpec { name, size, form };
    Ok(ReadMap { spec, layout })
}

/// A map of consecutive runs.
fn blocks_in(
    alloc: Global,
    place: Place,
    table: &Table,
    ranks: u32,
    name: Text,
) -> Result<ReadMap, JobFault>
    requires some_rank { 1 ≤ ranks }
    requires ranks_limit { ranks ≤ 32 }
    ensures spec { GivesAs (λ r. r.spec) result (blocks_in place (table_view table.now) ranks name) }
    ensures layout { IfOk result (λ r. r.layout ≡ layout_by ranks r.spec) }
{
    let value = required(alloc, place, table, "counts")?;
    let counts = counts_of(alloc, place, "counts", ranks, 16777216, value)?;
    let layout = Layout::blocks(alloc, counts.as_slice())?;
    let size = layout.size();
    let form = MapForm::Blocks(counts);
    let spec = MapSpec { name, size, form };
    Ok(ReadMap { spec, layout })
}

/// Whether a fault of lists is want of memory.
fn is_memory(fault: &MapFault) -> bool
    ensures { (result ≡ true) ↔ (fault.now ≡ MapFault.NoMem) }
{
    matches!(fault, MapFault::NoMem)
}

/// The layout of lists, where each has distinct indices below the size.
fn sound_layout(alloc: Global, size: Gid, lists: &[Vec<Gid>]) -> Result<Option<Layout>, AllocError>
    requires some_rank { 1 ≤ length lists.now }
    requires ranks_limit { length lists.now ≤ 32 }
    requires few { All (λ list. length list.items < 2 ^ 32) lists.now }
    requires size_limit { size ≤ 2 ^ 40 }
    ensures { IfOk result (λ o. IsSoundLayout size (map (λ list. list.items) lists.now) o) }
{
    match Layout::from_lists(alloc, size, lists) {
        Ok(layout) => Ok(Some(layout)),
        Err(fault) => {
            if is_memory(&fault) {
                return Err(AllocError);
            }
            Ok(None)
        }
    }
}

/// The lists as a map keeps them.
#[tactic(auto, using(crate::proofs::ListViews::items_push))]
fn kept_lists(alloc: Global, lists: Vec<Vec<Gid>>) -> Result<ListOf<ListOf<u64>>, AllocError>
    ensures { IfOk result (λ kept. kept ≡ map (λ list. list.items) lists.items) }
{
    let mut all = Vec::with_capacity(alloc, lists.len())?;
    for list in lists {
        all.push(ListOf::new(list))?;
    }
    Ok(ListOf::new(all))
}

/// The lists of the ranks, one for each.
#[tactic(auto, using(crate::proofs::ListViews::few_lists, crate::proofs::ListViews::one_each))]
fn lists_at(
    alloc: Global,
    place: Place,
    table: &Table,
    ranks: u32,
) -> Result<Vec<Vec<Gid>>, JobFault>
    ensures lists { GivesAs (λ all. map (λ list. list.items) all.items) result (lists_at place (table_view table.now) ranks) }
    ensures one_per_rank { IfOk result (λ all. length all.items ≡ ranks) }
    ensures few { IfOk result (λ all. All (λ list. length list.items < 2 ^ 32) all.items) }
{
    let value = required(alloc, place, table, "lists")?;
    index_lists_of(alloc, place, "lists", ranks, 16777216, value)
}

/// A map of lists.
fn lists_in(
    alloc: Global,
    place: Place,
    table: &Table,
    ranks: u32,
    name: Text,
) -> Result<ReadMap, JobFault>
    requires some_rank { 1 ≤ ranks }
    requires ranks_limit { ranks ≤ 32 }
    ensures spec { GivesAs (λ r. r.spec) result (lists_in place (table_view table.now) ranks name) }
    ensures layout { IfOk result (λ r. r.layout ≡ layout_by ranks r.spec) }
{
    let size = number_at(alloc, place, table, "size", 0, 1099511627776)?;
    let lists = lists_at(alloc, place, table, ranks)?;
    match sound_layout(alloc, size, &lists)? {
        None => Err(bad_map(alloc, name.as_str())),
        Some(layout) => {
            let form = MapForm::Lists(kept_lists(alloc, lists)?);
            let spec = MapSpec { name, size, form };
            Ok(ReadMap { spec, layout })
        }
    }
}

/// What a map of a kind states.
fn form_in(
    alloc: Global,
    place: Place,
    table: &Table,
    ranks: u32,
    name: Text,
    kind: MapKind,
) -> Result<ReadMap, JobFault>
    requires some_rank { 1 ≤ ranks }
    requires ranks_limit { ranks ≤ 32 }
    ensures spec { GivesAs (λ r. r.spec) result (form_in place (table_view table.now) ranks name kind) }
    ensures layout { IfOk result (λ r. r.layout ≡ layout_by ranks r.spec) }
{
    match kind {
        MapKind::Uniform => uniform_in(alloc, place, table, ranks, name),
        MapKind::Blocks => blocks_in(alloc, place, table, ranks, name),
        MapKind::Cyclic => cyclic_in(alloc, place, table, ranks, name),
        MapKind::Lists => lists_in(alloc, place, table, ranks, name),
    }
}

/// The map of a table, by its kind.
fn map_of_kind(
    alloc: Global,
    place: Place,
    table: &Table,
    known: &Known,
    kind: MapKind,
) -> Result<ReadMap, JobFault>
    ensures spec { GivesAs (λ r. r.spec) result (map_of_kind place (table_view table.now) known.now kind) }
    ensures layout { IfOk result (λ r. r.layout ≡ layout_by known.now.ranks r.spec) }
{
    only_keys(alloc, place, Form::Map(kind), table)?;
    let name = new_name_at(alloc, place, table, known)?;
    form_in(alloc, place, table, known.ranks(), name, kind)
}

/// The map of a table.
fn map_in(alloc: Global, place: Place, table: &Table, known: &Known) -> Result<ReadMap, JobFault>
    ensures spec { GivesAs (λ r. r.spec) result (map_in place (table_view table.now) known.now) }
    ensures layout { IfOk result (λ r. r.layout ≡ layout_by known.now.ranks r.spec) }
{
    let kind = kind_at(alloc, place, table)?;
    map_of_kind(alloc, place, table, known, kind)
}

/// Names a map that was read.
fn add_map(alloc: Global, known: &mut Known, map: ReadMap) -> Result<MapSpec, JobFault>
    requires { map.layout ≡ layout_by known.old.ranks map.spec }
    ensures memory { IfErr result (λ fault. fault ≡ JobFault.NoMem) }
    ensures spec { IfOk result (λ spec. spec ≡ map.spec) }
    ensures named { OnOk result (known.new ≡ with_spec known.old map.spec) }
{
    let name = Text::new(alloc, map.spec.name.as_str())?;
    known.add_map(name, map.layout)?;
    Ok(map.spec)
}

/// The maps of the tables, which are named in their order.
pub fn read_maps(
    alloc: Global,
    tables: &[Value],
    known: &mut Known,
) -> Result<Vec<MapSpec>, JobFault>
    ensures { GivesAs (λ specs. read known.new specs.items) result (maps_after (read known.old []) 0 (items_view tables.now)) }
{
    let mut specs = Vec::with_capacity(alloc, tables.len())?;
    for (k, item) in tables.iter().enumerate() {
        let table = table_of(alloc, "map", item)?;
        let map = map_in(alloc, Place::Map(k), table, known)?;
        let spec = add_map(alloc, known, map)?;
        specs.push(spec)?;
    }
    Ok(specs)
}
