//! Worked texts, and sinks that fail.
ghost use Rattle.std.specs.Prelude.{IsTrue};
ghost use Rattle.mm_text.specs.Written.{ArePlacesWithin, ArePlacesInOrder, IsBefore};

use crate::{Shown, write_array, write_coordinate};
use outside::MemSink;
use std::alloc::{AllocError, Global};
use std::test::Fail;

fn are_within(rows: u64, cols: u64, cells: &[Shown]) -> bool
    ensures { IsTrue result → ArePlacesWithin rows cols cells.now }
{
    cells.iter().all(|cell| cell.row < rows && cell.col < cols)
}

fn are_in_order(cells: &[Shown]) -> bool
    ensures { IsTrue result → ArePlacesInOrder cells.now }
{
    for k in 1..cells.len() {
        if !is_before(&cells[k - 1], &cells[k]) {
            return false;
        }
    }
    true
}

fn is_before(cell: &Shown, next: &Shown) -> bool
    ensures { IsTrue result → IsBefore cell.now next.now }
{
    cell.row < next.row || cell.row == next.row && cell.col < next.col
}

fn shown(row: u64, col: u64, value: i128) -> Shown {
    Shown { row, col, value }
}

#[test]
fn places_are_counted_from_one(rt: HostRuntime) -> Result<(), Fail> {
    let cells = [
        shown(0, 0, 2),
        shown(0, 2, 5),
        shown(1, 1, 3),
        shown(2, 0, -1),
    ];
    assert!(rt; are_within(3, 3, &cells));
    assert!(rt; are_in_order(&cells));
    let mut sink = MemSink::new(rt.alloc(), 1000)?;
    write_coordinate(&mut sink, 3, 3, None, &cells).expect(&rt, "room");
    assert_eq!(rt;
        sink.bytes(),
        b"%%MatrixMarket matrix coordinate integer general\n3 3 4\n1 1 2\n1 3 5\n2 2 3\n3 1 -1\n".as_slice()
    );
    Ok(())
}

#[test]
fn a_part_names_its_rank(rt: HostRuntime) -> Result<(), Fail> {
    let cells = [shown(7, 0, 9)];
    assert!(rt; are_within(8, 1, &cells));
    assert!(rt; are_in_order(&cells));
    let mut sink = MemSink::new(rt.alloc(), 1000)?;
    write_coordinate(&mut sink, 8, 1, Some(1), &cells).expect(&rt, "room");
    assert_eq!(rt;
        sink.bytes(),
        b"%%MatrixMarket matrix coordinate integer general\n% part 1\n8 1 1\n8 1 9\n".as_slice()
    );
    Ok(())
}

#[test]
fn no_place_leaves_the_banner_and_the_sizes(rt: HostRuntime) -> Result<(), Fail> {
    let cells: [Shown; 0] = [];
    assert!(rt; are_within(0, 0, &cells));
    assert!(rt; are_in_order(&cells));
    let mut sink = MemSink::new(rt.alloc(), 1000)?;
    write_coordinate(&mut sink, 0, 0, None, &cells).expect(&rt, "room");
    assert_eq!(rt;
        sink.bytes(),
        b"%%MatrixMarket matrix coordinate integer general\n0 0 0\n".as_slice()
    );
    Ok(())
}

#[test]
fn values_stand_one_a_line(rt: HostRuntime) -> Result<(), Fail> {
    let mut sink = MemSink::new(rt.alloc(), 1000)?;
    write_array(&mut sink, 3, 1, &[502, 30, -1]).expect(&rt, "room");
    write_array(&mut sink, 1, 2, &[i128::MAX, -i128::MAX]).expect(&rt, "room");
    assert_eq!(rt;
        sink.bytes(),
        b"%%MatrixMarket matrix array integer general\n3 1\n502\n30\n-1\n\
          %%MatrixMarket matrix array integer general\n1 2\n\
          170141183460469231731687303715884105727\n-170141183460469231731687303715884105727\n"
            .as_slice()
    );
    Ok(())
}

/// Twenty thousand places, whose text is longer than what is held back.
fn many(alloc: Global) -> Result<Vec<Shown>, AllocError> {
    let mut cells = Vec::new(alloc);
    for k in 0..20_000u64 {
        cells.push(shown(k, k % 7, i128::from(k) * 1_000_000_007 - 9_999_999_999))?;
    }
    Ok(cells)
}

fn text_of_many(alloc: Global, cells: &[Shown]) -> Result<String, AllocError> {
    let mut text = String::from_str(
        alloc,
        "%%MatrixMarket matrix coordinate integer general\n20000 7 20000\n",
    )?;
    for cell in cells {
        if let (Some(row), Some(col)) = (cell.row.checked_add(1), cell.col.checked_add(1)) {
            text.push_str(format!(in alloc; "{row} {col} {}\n", cell.value)?.as_str())?;
        }
    }
    Ok(text)
}

#[test]
fn a_fault_leaves_a_prefix_of_a_long_text(rt: HostRuntime) -> Result<(), Fail> {
    let cells = many(rt.alloc())?;
    let text = text_of_many(rt.alloc(), &cells)?;
    assert!(rt; are_within(20_000, 7, &cells));
    assert!(rt; are_in_order(&cells));
    let mut sink = MemSink::new(rt.alloc(), 1_000_000)?;
    write_coordinate(&mut sink, 20_000, 7, None, &cells).expect(&rt, "room");
    assert_eq!(rt; sink.bytes(), text.as_bytes());
    for (room, failing) in [(1_000_000, 0), (1_000_000, 1), (1_000_000, 2), (70_001, 9)] {
        let mut sink = MemSink::new(rt.alloc(), room)?;
        sink.fail_at(&[failing])?;
        assert!(rt; write_coordinate(&mut sink, 20_000, 7, None, &cells).is_err());
        assert!(rt; text.as_bytes().starts_with(sink.bytes()));
        assert_eq!(rt; sink.bytes().is_empty(), failing == 0);
    }
    Ok(())
}
