//! Times letters of numbers: four letters of a million entries each are laid out one after the other in the same bytes,
//! read, and taken apart. bench/letters.sh runs it beside the same work in C++.
#![tactic(auto)]

ghost use Rattle.std.specs.Prelude.{◌≡◌, ◌≤◌, IfOk, length};

use letter_codec::{Kind, number, put_number, put_word, read_letter, word, word_count, write_head};
use scalar_laws::{Scalar, Weighed};
use std::alloc::{AllocError, Global};
use std::io;

/// The entries of a letter, each with one number.
const ENTRIES: u64 = 1000000;

/// How many letters there are.
const LETTERS: u64 = 4;

/// The length of a letter.
const LEN: usize = 40000009;

/// Lays out the letter of a sender: every fourth index, each with a number of it.
fn lay_out(out: &mut [u8], sender: u64)
    requires { 40000009 ≤ length out.old }
{
    write_head(Kind::Nums, ENTRIES, out);
    for at in 0..ENTRIES {
        let index = LETTERS * at + sender % LETTERS;
        put_word(out, at, index);
        put_number(out, ENTRIES, at, Weighed::new(index as i128, index as u128));
    }
}

/// The sum of the words and of the numbers of a letter; nothing where the bytes are none.
fn take_apart(bytes: &[u8]) -> Option<(u64, Weighed)> {
    let letter = read_letter(bytes)?;
    let mut words = 0u64;
    for at in 0..word_count(&letter) {
        words = words.wrapping_add(word(&letter, at));
    }
    let mut numbers = Weighed::zero();
    for at in 0..(letter.numbers.len() / 32) as u64 {
        numbers = numbers.add(number(&letter, at));
    }
    Some((words, numbers))
}

/// So many bytes.
fn zeros(alloc: Global, len: usize) -> Result<Vec<u8>, AllocError>
    ensures { IfOk result (λ bytes. length bytes.items ≡ len) }
{
    vec![in alloc; 0; len]
}

fn main(rt: HostRuntime) -> io::Result<()> {
    let mut bytes = zeros(rt.alloc(), LEN)?;
    let mut words = 0u64;
    let mut numbers = Weighed::zero();
    for sender in 0..LETTERS {
        lay_out(&mut bytes, sender);
        if let Some(parts) = take_apart(&bytes) {
            words = words.wrapping_add(parts.0);
            numbers = numbers.add(parts.1);
        }
    }
    match numbers.parts() {
        Some((value, weight)) => println!(rt; "{words} {value} {weight}"),
        None => println!(rt; "{words} over"),
    }
}
