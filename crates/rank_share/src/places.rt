//! The places of the entries that are dealt to a rank.
ghost use Rattle.std.specs.Prelude.{◌≡◌, ◌≤◌, ◌<◌, ◌+◌, ◌%◌, ◌∷◌, ◌++◌, unsigned_abs, option_to_list, IfOk, OnOk};
ghost use Rattle.mm_text.specs.Limits.{widest};
ghost use Rattle.mm_text.specs.Reading.{file_of};
ghost use Rattle.mm_text.specs.Sound.{IsSound};
ghost use Rattle.rank_share.specs.Shares.{entry_lines, place_lines};

use model_defs::{FileData, Line, Mirror};
use std::alloc::{AllocError, Global};

/// The mirrored place of an entry: None on the diagonal, and in a file without symmetry.
fn mirrored(mirror: Mirror, line: &Line) -> Option<Line>
    requires width { unsigned_abs line.now.value ≤ widest }
    ensures places { entry_lines mirror line.now ≡ line.now ∷ option_to_list result }
{
    if line.row == line.col {
        return None;
    }
    let value = match mirror {
        Mirror::Plain => return None,
        Mirror::Same => line.value,
        Mirror::Negated => -line.value,
    };
    Some(Line {
        row: line.col,
        col: line.row,
        value,
    })
}

/// Adds the places of an entry: its own, then the mirrored one, if it has one. `Err` means that memory ran out.
fn add_places(places: &mut Vec<Line>, mirror: Mirror, line: &Line) -> Result<(), AllocError>
    requires width { unsigned_abs line.now.value ≤ widest }
    ensures places { OnOk result (places.new.items ≡ places.old.items ++ entry_lines mirror line.now) }
{
    places.push(*line)?;
    if let Some(other) = mirrored(mirror, line) {
        places.push(other)?;
    }
    Ok(())
}

/// The places of the entries k with `k mod ranks = me`, counted from 0 in file order. `Err` means that memory ran out.
pub(crate) fn dealt_places(
    alloc: Global,
    ranks: u32,
    me: u32,
    file: &FileData,
) -> Result<Vec<Line>, AllocError>
    requires rank { me < ranks }
    requires sound { IsSound (file_of file.now) }
    ensures places { IfOk result (λ places. places.items ≡ place_lines ranks me (file_of file.now)) }
{
    let mut places = Vec::new(alloc);
    let mut turn = 0;
    for line in &file.lines {
        if turn == me {
            add_places(&mut places, file.mirror, line)?;
        }
        turn = next_turn(turn, ranks);
    }
    Ok(places)
}

/// The rank after this one, and after the last one the first.
fn next_turn(turn: u32, ranks: u32) -> u32
    requires rank { turn < ranks }
    ensures next { result ≡ (turn + 1) % ranks }
    ensures rank { result < ranks }
{
    if turn + 1 == ranks { 0 } else { turn + 1 }
}
