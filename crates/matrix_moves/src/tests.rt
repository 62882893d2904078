//! Rows that stay, rows that are sent and rows that come.
ghost use Rattle.std.specs.Prelude.{◌≡◌, ◌<◌, ◌^◌, ◌∷◌, [], length, IfOk};

use crate::{ArrivingRows, fill_is_source};
use byte_pool::Pool;
use combine_modes::Mode;
use crs_matrix::MatrixFill;
use letter_codec::{read_letter, word, word_count};
use map_core::{LocalMap, Plan};
use scalar_laws::Weighed;
use std::alloc::Global;
use std::test::Fail;

fn number(value: i128) -> Weighed {
    Weighed::new(value, value.unsigned_abs())
}

/// A matrix on the rows of a list with these places and numbers.
fn matrix(
    alloc: Global,
    list: &[u64],
    places: &[(u64, u64, i128)],
) -> Result<MatrixFill<Weighed>, Fail>
    requires few { length list.now < 2 ^ 32 }
    ensures rows { IfOk result (λ fill. fill.rows ≡ list.now) }
{
    let rows = LocalMap::from_list(alloc, list)?;
    let mut fill = MatrixFill::new(alloc, rows)?;
    for (row, col, value) in places {
        fill.insert(*row, *col, number(*value))?;
    }
    Ok(fill)
}

/// Rank 1 sends its first two rows to rank 0.
fn sender(alloc: Global) -> Result<Plan, Fail>
    ensures plan { IfOk result (λ p. p ≡ record { me = 1; ranks = 2; same = 0; permute_to = []; permute_from = []; exports = (0 ∷ 1 ∷ []) ∷ [] ∷ []; remotes = [] ∷ [] ∷ [] }) }
{
    let exports = [vec![in alloc; 0, 1]?, Vec::new(alloc)];
    let remotes = [Vec::new(alloc), Vec::new(alloc)];
    Ok(Plan::new(alloc, 1, 2, 0, &[], &[], &exports, &remotes)?)
}

/// Rank 0 keeps its first row, its second one is the third of the target, and the fourth and the second come from rank 1.
fn receiver(alloc: Global) -> Result<Plan, Fail>
    ensures plan { IfOk result (λ p. p ≡ record { me = 0; ranks = 2; same = 1; permute_to = 2 ∷ []; permute_from = 1 ∷ []; exports = [] ∷ [] ∷ []; remotes = [] ∷ (3 ∷ 1 ∷ []) ∷ [] }) }
{
    let exports = [Vec::new(alloc), Vec::new(alloc)];
    let remotes = [Vec::new(alloc), vec![in alloc; 3, 1]?];
    Ok(Plan::new(alloc, 0, 2, 1, &[2], &[1], &exports, &remotes)?)
}

/// The words of a letter of rows, or none where the bytes are no such letter.
fn words_in(alloc: Global, bytes: &[u8]) -> Result<Vec<u64>, Fail> {
    let mut words = Vec::new(alloc);
    let Some(letter) = read_letter(bytes) else {
        return Ok(words);
    };
    for at in 0..word_count(&letter) {
        words.push(word(&letter, at))?;
    }
    Ok(words)
}

#[test]
fn rows_that_are_sent(rt: HostRuntime) -> Result<(), Fail> {
    let alloc = rt.alloc();
    let mut pool = Pool::new(alloc);
    let fill = matrix(alloc, &[3, 5, 7], &[(3, 4, 34), (3, 0, 30), (7, 2, 72)])?;
    fill_is_source(&fill);
    let given = ArrivingRows::begin(sender(alloc)?, &fill, matrix(alloc, &[], &[])?, Mode::Add)?;
    assert!(rt; given.has_letter_to(0));
    let lease = given.pack(&fill, 0, &mut pool)?;
    assert!(rt; pool.is_live(&lease));
    let words = words_in(alloc, pool.bytes(&lease))?;
    assert_eq!(rt; words.as_slice(), [3, 2, 0, 4, 5, 0].as_slice());
    Ok(())
}

#[test]
fn rows_that_stay(rt: HostRuntime) -> Result<(), Fail> {
    let alloc = rt.alloc();
    let here = matrix(alloc, &[4, 9], &[(4, 4, 44), (9, 1, 91), (9, 0, 0)])?;
    fill_is_source(&here);
    let target = matrix(alloc, &[4, 5, 9, 3], &[(3, 0, 1), (9, 1, 9)])?;
    let arriving = ArrivingRows::begin(receiver(alloc)?, &here, target, Mode::Add)?;
    assert!(rt; arriving.has_letter_from(1));
    let kept = arriving.into_fill();
    assert_eq!(rt; kept.get(4, 4), Some(number(44)));
    assert_eq!(rt; kept.get(9, 1), Some(number(100)));
    assert_eq!(rt; kept.columns()?.as_slice(), [0, 1, 4].as_slice());
    Ok(())
}
