//! The column map of a structure.
ghost use Rattle.std.specs.Prelude.{◌≡◌, ◌<◌, ◌≤◌, ◌^◌, ◌++◌, ℕ, List, length, map, IfOk};
ghost use Rattle.std.specs.List.{filter};
ghost use Rattle.map_core.specs.Layouts.{stands, AreDistinct};
ghost use Rattle.crs_graph.specs.Ascending.{IsAscending};
ghost use Rattle.crs_graph.specs.ColumnMaps.{foreign, IsColumnList};

use map_core::{Gid, ListFault, LocalMap};
use std::alloc::{AllocError, Global};
use std::rc::Rc;

/// The column map of a structure with these columns, which ascend and are fewer than 2^32: first those that `domain` has, in
/// its order, then the others by owner, then by index (`Tpetra::CrsGraph::fillComplete`). There is one owner per column.
/// `Err` means that memory ran out.
pub fn column_map(
    alloc: Global,
    columns: &[Gid],
    domain: &LocalMap,
    owners: &[u32],
) -> Result<Rc<LocalMap>, AllocError>
    requires ascend { IsAscending columns.now }
    requires few { length columns.now < 2 ^ 32 }
    requires each { length owners.now ≡ length columns.now }
    ensures list { IfOk result (λ map. IsColumnList domain.now columns.now owners.now map.value) }
    ensures once { IfOk result (λ map. AreDistinct map.value) }
    ensures same { IfOk result (λ map. (g : ℕ) → stands g map.value ≡ stands g columns.now) }
    ensures as_many { IfOk result (λ map. length map.value ≤ length columns.now) }
{
    let mut list = own_columns(alloc, columns, domain)?;
    let mut others = foreign_columns(alloc, columns, domain, owners)?;
    others.sort()?;
    push_indices(&mut list, &others)?;
    match LocalMap::from_list(alloc, &list) {
        Ok(map) => Ok(map),
        Err(ListFault::NoMem) => Err(AllocError),
        Err(ListFault::Repeated { .. }) => unreachable!(),
    }
}

/// The columns that the domain has, in its order.
fn own_columns(alloc: Global, columns: &[Gid], domain: &LocalMap) -> Result<Vec<Gid>, AllocError>
    requires ascend { IsAscending columns.now }
    ensures own { IfOk result (λ own. own.items ≡ filter (λ g. stands g columns.now) domain.now) }
    ensures distinct { AreDistinct domain.now }
{
    let mut own = Vec::new(alloc);
    for lid in 0..domain.len() {
        let gid = domain.global_of(lid).unwrap();
        if has_column(columns, own.len(), gid) {
            own.push(gid)?;
        }
    }
    Ok(own)
}

/// Whether a column is among those that ascend; it is first looked for at a place.
#[inline]
fn has_column(columns: &[Gid], place: usize, col: Gid) -> bool
    requires ascend { IsAscending columns.now }
    ensures has { result ≡ stands col columns.now }
{
    if place < columns.len() && columns[place] == col {
        return true;
    }
    match columns.binary_search(&col) {
        Ok(_) => true,
        Err(_) => false,
    }
}

/// The owner and the index of each column that the domain lacks.
fn foreign_columns(
    alloc: Global,
    columns: &[Gid],
    domain: &LocalMap,
    owners: &[u32],
) -> Result<Vec<(u32, Gid)>, AllocError>
    requires each { length owners.now ≡ length columns.now }
    ensures foreign { IfOk result (λ others. others.items ≡ foreign domain.now columns.now owners.now) }
{
    let mut others = Vec::new(alloc);
    for place in 0..columns.len() {
        let gid = columns[place];
        if domain.local_of(gid).is_none() {
            others.push((owners[place], gid))?;
        }
    }
    Ok(others)
}

/// Puts the indices of pairs at the end of a list.
fn push_indices(list: &mut Vec<Gid>, pairs: &[(u32, Gid)]) -> Result<(), AllocError>
    ensures pushed { IfOk result (λ _. list.new.items ≡ list.old.items ++ map (λ x. x.1) pairs.now) }
{
    for pair in pairs {
        list.push(pair.1)?;
    }
    Ok(())
}
