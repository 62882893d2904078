//! Times weighed numbers: `add`, `mul` or `product` (a product added to a sum), ten million times.
//! bench/scalars.sh runs it beside the same loops in C++.
#![tactic(auto)]

use scalar_laws::{Scalar, Weighed};
use std::{env, io};

/// How often the operation is done.
const COUNT: u64 = 10000000;

/// Numbers of at most a million, of both signs; the weight is `extra` times the magnitude.
fn numbers(seed: u64, extra: u8) -> [Weighed; 256] {
    let mut state = seed;
    let mut all = [Weighed::zero(); 256];
    for number in all.iter_mut() {
        state ^= state << 13;
        state ^= state >> 7;
        state ^= state << 17;
        let magnitude = 1 + state % 1000000;
        *number = signed(magnitude, extra, state % 2 == 0);
    }
    all
}

/// 1 and -1 in turn.
fn signs() -> [Weighed; 256] {
    let mut all = [Weighed::one(); 256];
    for (i, number) in all.iter_mut().enumerate() {
        *number = signed(1, 1, i % 2 == 0);
    }
    all
}

fn signed(magnitude: u64, extra: u8, positive: bool) -> Weighed {
    let value = magnitude as i128;
    Weighed::new(
        if positive { value } else { -value },
        magnitude as u128 * extra as u128,
    )
}

fn sum_of<S: Scalar>(start: S, terms: &[S; 256]) -> S {
    let mut all = start;
    for i in 0..COUNT {
        all = all.add(terms[i as usize % 256]);
    }
    all
}

fn product_of<S: Scalar>(start: S, factors: &[S; 256]) -> S {
    let mut all = start;
    for i in 0..COUNT {
        all = all.mul(factors[i as usize % 256]);
    }
    all
}

fn sum_of_products<S: Scalar>(start: S, left: &[S; 256], right: &[S; 256]) -> S {
    let mut all = start;
    for i in 0..COUNT {
        all = all.add(left[i as usize % 256].mul(right[i as usize % 256]));
    }
    all
}

fn main(rt: HostRuntime) -> io::Result<()> {
    let word = env::args(&rt)?.nth(1);
    let start = Weighed::new(-1234567890123456789, 12345678901234567890);
    let result = match word.as_ref().map(|word| word.as_str()) {
        Some("mul") => product_of(start, &signs()),
        Some("product") => sum_of_products(start, &numbers(7, 3), &numbers(9, 2)),
        _ => sum_of(start, &numbers(7, 3)),
    };
    match result.parts() {
        Some((value, weight)) => println!(rt; "{value} {weight}"),
        None => println!(rt; "over"),
    }
}
