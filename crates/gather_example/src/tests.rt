//! Three ranks over the honest wire: in each kind of order, in every order that is complete, and over a wire that fails at each call. Two
//! ranks over a wire that changes numbers.
ghost use Rattle.std.specs.Prelude.{◌≡◌, ◌<◌, IfOk, IfSome, length};

use crate::{Outcome, play_tellers};
use message_play::{PlayFault, Played};
use outside::{MailRoom, Name, TwistWire, Wire};
use schedule::{Entry, Order};
use std::alloc::{AllocError, Global};
use std::test::Fail;

fn name(phase: u32, from: u32, to: u32) -> Name {
    Name { phase, from, to }
}

/// The words "a", "b" and "c".
fn words(alloc: Global) -> Result<Vec<Vec<u8>>, AllocError>
    ensures { IfOk result (λ words. length words.items ≡ 3) }
{
    let mut words = Vec::with_capacity(alloc, 3)?;
    words.push(b"a".to_vec(alloc)?)?;
    words.push(b"b".to_vec(alloc)?)?;
    words.push(b"c".to_vec(alloc)?)?;
    Ok(words)
}

/// The word of a rank.
fn word(rank: u32) -> u8 {
    match rank {
        0 => b'a',
        1 => b'b',
        _ => b'c',
    }
}

/// The letters of three ranks in two phases.
fn letters(alloc: Global) -> Result<Vec<Name>, AllocError> {
    let mut names = Vec::with_capacity(alloc, 8)?;
    names.push(name(0, 0, 1))?;
    names.push(name(0, 0, 2))?;
    names.push(name(0, 1, 0))?;
    names.push(name(0, 1, 2))?;
    names.push(name(0, 2, 0))?;
    names.push(name(0, 2, 1))?;
    names.push(name(1, 1, 0))?;
    names.push(name(1, 2, 0))?;
    Ok(names)
}

/// Plays the three ranks over a new wire, on which nothing may be left after a complete play.
fn played(alloc: Global, order: &Order) -> Result<Result<Outcome, PlayFault>, AllocError> {
    let mut wire = MailRoom::new(alloc);
    Ok(play_tellers(alloc, &words(alloc)?, 1, 2, &mut wire, order))
}

/// Whether the play was complete and the ranks heard these.
fn heard_are(outcome: &Outcome, zero: &[u8], one: &[u8], two: &[u8]) -> bool {
    let heard = outcome.heard.as_slice();
    matches!(outcome.played, Played::Complete)
        && heard.len() == 3
        && heard[0].as_slice() == zero
        && heard[1].as_slice() == one
        && heard[2].as_slice() == two
}

#[test]
fn the_first_posted_comes_first(rt: HostRuntime) -> Result<(), Fail> {
    let outcome = played(rt.alloc(), &Order::Fifo)??;
    assert!(rt; heard_are(&outcome, b"bc", b"ac", b"ab"));
    Ok(())
}

#[test]
fn the_last_posted_comes_first(rt: HostRuntime) -> Result<(), Fail> {
    let outcome = played(rt.alloc(), &Order::Lifo)??;
    assert!(rt; heard_are(&outcome, b"cb", b"ca", b"ba"));
    Ok(())
}

#[test]
fn seeds_deliver_all(rt: HostRuntime) -> Result<(), Fail> {
    for seed in [0, 1, u64::MAX] {
        let outcome = played(rt.alloc(), &Order::Seed(seed))??;
        assert!(rt; matches!(outcome.played, Played::Complete));
        assert_eq!(rt; outcome.heard.len(), 3);
    }
    Ok(())
}

/// The letters of a schedule, on every second line.
fn listed(alloc: Global, names: &[Name]) -> Result<Order, AllocError> {
    let mut entries = Vec::new(alloc);
    let mut line = 2;
    for name in names {
        entries.push(Entry { line, name: *name })?;
        line = line.wrapping_add(2);
    }
    Ok(Order::Listed(entries))
}

#[test]
fn a_list_has_an_early_letter_and_repeats(rt: HostRuntime) -> Result<(), Fail> {
    let names = [
        name(0, 2, 1),
        name(0, 0, 1),
        name(0, 2, 1),
        name(1, 1, 0),
        name(0, 2, 0),
        name(1, 1, 0),
        name(0, 1, 0),
        name(0, 1, 2),
        name(0, 0, 2),
        name(0, 1, 0),
        name(1, 2, 0),
        name(1, 2, 0),
    ];
    let outcome = played(rt.alloc(), &listed(rt.alloc(), &names)?)??;
    assert!(rt; heard_are(&outcome, b"cb", b"ca", b"ba"));
    Ok(())
}

#[test]
fn a_short_list_leaves_letters(rt: HostRuntime) -> Result<(), Fail> {
    let names = [name(0, 2, 1), name(0, 0, 1)];
    let outcome = played(rt.alloc(), &listed(rt.alloc(), &names)?)??;
    let left = [
        name(0, 0, 2),
        name(0, 1, 0),
        name(0, 1, 2),
        name(0, 2, 0),
        name(1, 1, 0),
    ];
    match &outcome.played {
        Played::Complete => assert!(rt; false),
        Played::Left(names) => assert_eq!(rt; names.as_slice(), left.as_slice()),
    }
    Ok(())
}

/// The letters in the order with this number, of the 40,320.
fn arrangement(alloc: Global, number: u32) -> Result<Vec<Name>, AllocError> {
    let mut left = letters(alloc)?;
    let mut names = Vec::with_capacity(alloc, 8)?;
    let mut rest = number as usize;
    for _ in 0..8 {
        let count = left.len();
        if count == 0 {
            break;
        }
        names.push(left.remove(rest % count))?;
        rest /= count;
    }
    Ok(names)
}

/// How many of the letters of phase 0 to a rank stand among these.
fn told_to(names: &[Name], rank: u32) -> usize {
    names
        .iter()
        .filter(|name| name.phase == 0 && name.to == rank)
        .count()
}

/// The place of the first letter that comes before its sender was told both words.
fn first_wrong(names: &[Name]) -> Option<usize>
    ensures { IfSome result (λ place. place < length names.now) }
{
    for place in 0..names.len() {
        let name = names[place];
        if name.phase == 1 && told_to(&names[..place], name.from) < 2 {
            return Some(place);
        }
    }
    None
}

/// What a rank hears in this order.
fn expected(alloc: Global, names: &[Name], rank: u32) -> Result<Vec<u8>, AllocError> {
    let mut heard = Vec::new(alloc);
    for name in names {
        if name.phase == 0 && name.to == rank {
            heard.push(word(name.from))?;
        }
    }
    Ok(heard)
}

#[test]
fn every_order_is_played(rt: HostRuntime) -> Result<(), Fail> {
    let alloc = rt.alloc();
    let mut complete: u32 = 0;
    for number in 0..40_320 {
        let names = arrangement(alloc, number)?;
        // All orders that are complete, and of the others one in 32.
        if number % 32 != 0 && first_wrong(&names).is_some() {
            continue;
        }
        let order = listed(alloc, &names)?;
        match (played(alloc, &order)?, first_wrong(&names)) {
            (Ok(outcome), None) => {
                let zero = expected(alloc, &names, 0)?;
                let one = expected(alloc, &names, 1)?;
                let two = expected(alloc, &names, 2)?;
                assert!(rt; heard_are(&outcome, &zero, &one, &two));
                complete = complete.wrapping_add(1);
            }
            (Err(fault), Some(place)) => {
                let at = u32::try_from(place).unwrap_or(0);
                let line = at.wrapping_mul(2).wrapping_add(2);
                let name = names[place];
                assert_eq!(rt; fault, PlayFault::NotInFlight { line, name });
            }
            _ => assert!(rt; false),
        }
    }
    // Each of two letters has to come behind two others: a third of a third of all orders.
    assert_eq!(rt; complete, 4_480);
    Ok(())
}

#[test]
fn the_wire_fails_at_each_call(rt: HostRuntime) -> Result<(), Fail> {
    let alloc = rt.alloc();
    let words = words(alloc)?;
    for call in 0..17 {
        let mut wire = MailRoom::new(alloc);
        wire.fail_at(&[call])?;
        let outcome = play_tellers(alloc, &words, 1, 2, &mut wire, &Order::Fifo);
        if call < 16 {
            assert_eq!(rt; outcome.err(), Some(PlayFault::WireFault));
        } else {
            assert!(rt; heard_are(&outcome?, b"bc", b"ac", b"ab"));
            assert_eq!(rt; wire.pending_count(), 0);
        }
    }
    Ok(())
}

/// A letter with one index and one number, whose value and weight are this.
fn letter_of_number(alloc: Global, number: u8) -> Result<Vec<u8>, AllocError> {
    let mut bytes = Vec::new(alloc);
    bytes.push(22)?;
    bytes.extend_from_slice(&[1, 0, 0, 0, 0, 0, 0, 0])?;
    bytes.extend_from_slice(&[3, 0, 0, 0, 0, 0, 0, 0])?;
    for _ in 0..2 {
        bytes.push(number)?;
        bytes.extend_from_slice(&[0; 15])?;
    }
    Ok(bytes)
}

/// A word that is such a letter, and one that is not.
fn two_words(alloc: Global) -> Result<Vec<Vec<u8>>, AllocError>
    ensures { IfOk result (λ words. length words.items ≡ 2) }
{
    let mut words = Vec::with_capacity(alloc, 2)?;
    words.push(letter_of_number(alloc, 7)?)?;
    words.push(b"b".to_vec(alloc)?)?;
    Ok(words)
}

#[test]
fn what_the_wire_changes_is_heard(rt: HostRuntime) -> Result<(), Fail> {
    let alloc = rt.alloc();
    let mut wire = TwistWire::new(alloc, 5);
    let outcome = play_tellers(alloc, &two_words(alloc)?, 1, 1, &mut wire, &Order::Fifo)?;
    assert!(rt; matches!(outcome.played, Played::Complete));
    let heard = outcome.heard.as_slice();
    let twisted = letter_of_number(alloc, 12)?;
    assert!(rt;
        heard.len() == 2
            && heard[0].as_slice() == [b'b'].as_slice()
            && heard[1].as_slice() == twisted.as_slice()
    );
    Ok(())
}
