//! Words as a letter.
ghost use Rattle.std.specs.Prelude.{◌≡◌, ◌<◌, ◌≤◌, ◌+◌, ◌*◌, ◌^◌, ◌++◌, ℕ, List, [], None, length, IfOk, OnErr};
ghost use Rattle.byte_pool.specs.Leases.{leases, with_lease};
ghost use Rattle.letter_codec.specs.Letters.{letter_bytes, word_bytes};
ghost use Rattle.letter_codec.specs.Writing.{StartsWith};

use byte_pool::{Lease, Pool};
use letter_codec::{Kind, put_word, write_head};
use rank_phases::lease_block;
use std::alloc::AllocError;

/// Writes words behind the first 9 bytes.
fn put_words(out: &mut [u8], words: &[u64])
    requires room { 9 + 8 * length words.now ≤ length out.old }
    ensures next { (before : List ℕ) → length before ≡ 9 → StartsWith before out.old → StartsWith (before ++ word_bytes words.now) out.new }
{
    for at in 0..words.len() {
        put_word(out, at as u64, words[at]);
    }
}

/// Writes the letter of these words.
fn write_words(out: &mut [u8], kind: Kind, words: &[u64])
    requires room { length out.old ≡ 9 + 8 * length words.now }
    ensures letter { out.new ≡ letter_bytes kind words.now [] }
{
    write_head(kind, words.len() as u64, out);
    put_words(out, words);
}

/// The letter of this kind that has these words and no number, in a block that the pool lends. Where no free block has room
/// for it, one is made. The other leases stay, also without memory.
pub fn lease_words(kind: Kind, words: &[u64], pool: &mut Pool) -> Result<Lease, AllocError>
    ensures fresh { IfOk result (λ lease. leases pool.old lease ≡ None) }
    ensures letter { IfOk result (λ lease. leases pool.new ≡ with_lease (leases pool.old) lease (letter_bytes kind words.now [])) }
    ensures err { OnErr result (leases pool.new ≡ leases pool.old) }
{
    let lease = lease_block(pool, 9 + 8 * words.len() as u64)?;
    write_words(pool.bytes_mut(&lease), kind, words);
    Ok(lease)
}
