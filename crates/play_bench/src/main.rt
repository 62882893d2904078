//! Times the play of 32 ranks: `fifo`, `lifo` or `seed`, and the number of phases, 4 without words.
//! bench/play.sh runs it beside the same play in C++.
#![tactic(auto)]

ghost use Rattle.std.specs.Prelude.{◌≡◌, IfOk, length};

use gather_example::play_tellers;
use outside::MailRoom;
use schedule::Order;
use std::alloc::{AllocError, Global};
use std::{env, io};

const RANKS: u8 = 32;

/// A word of one byte for each rank.
fn words(alloc: Global) -> Result<Vec<Vec<u8>>, AllocError>
    ensures { IfOk result (λ words. length words.items ≡ 32) }
{
    let mut words = Vec::new(alloc);
    for rank in 0..RANKS {
        words.push([b'0'.wrapping_add(rank)].to_vec(alloc)?)?;
    }
    Ok(words)
}

fn main(rt: HostRuntime) -> io::Result<()> {
    let word = env::args(&rt)?.nth(1);
    let order = match word.as_ref().map(|word| word.as_str()) {
        Some("lifo") => Order::Lifo,
        Some("seed") => Order::Seed(1),
        _ => Order::Fifo,
    };
    let count = env::args(&rt)?.nth(2);
    let phases = match count.as_ref().map(|count| count.as_str().parse::<u32>()) {
        Some(Ok(phases)) if phases < 1_000_000 => phases,
        _ => 4,
    };
    let words = words(rt.alloc())?;
    let mut wire = MailRoom::new(rt.alloc());
    match play_tellers(rt.alloc(), &words, phases, phases, &mut wire, &order) {
        Ok(outcome) => {
            for heard in &outcome.heard {
                println!(rt; "{heard:?}")?;
            }
        }
        Err(fault) => println!(rt; "{fault:?}")?,
    }
    Ok(())
}
