//! Words of 8 bytes.
ghost use Rattle.std.specs.Prelude.{◌≡◌, ◌+◌, ◌≤◌, length, take, drop};
ghost use Rattle.letter_codec.specs.Letters.{word_of_bytes};

/// The word that stands in these bytes from a place on.
#[inline]
#[tactic(auto, unfolding(crate::specs::Letters::word_of_bytes))]
pub(crate) fn word_at(bytes: &[u8], place: usize) -> u64
    requires { place + 8 ≤ length bytes.now }
    ensures { result ≡ word_of_bytes (take 8 (drop place bytes.now)) }
{
    let mut word = [0; 8];
    word.copy_from_slice(&bytes[place..place + 8]);
    u64::from_le_bytes(word)
}
