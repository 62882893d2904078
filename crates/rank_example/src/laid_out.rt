//! Letters of the job, laid out by hand.
ghost use Rattle.std.specs.Prelude.{◌≡◌};
ghost use Rattle.rank_example.specs.LaidOut.{data_letter};

use outside::Name;

/// The letters to rank 0: what rank 1 wants, and its numbers. And those to rank 1.
pub const WANT_TO_0: Name = Name {
    phase: 0,
    from: 1,
    to: 0,
};

pub const DATA_TO_0: Name = Name {
    phase: 1,
    from: 1,
    to: 0,
};

pub const WANT_TO_1: Name = Name {
    phase: 0,
    from: 0,
    to: 1,
};

pub const DATA_TO_1: Name = Name {
    phase: 1,
    from: 0,
    to: 1,
};

/// The WANT letter of index 1: its kind, the number of its words, and the word.
pub const WANT_1: [u8; 17] = [20, 1, 0, 0, 0, 0, 0, 0, 0, 1, 0, 0, 0, 0, 0, 0, 0];

/// That of index 2.
pub const WANT_2: [u8; 17] = [20, 1, 0, 0, 0, 0, 0, 0, 0, 2, 0, 0, 0, 0, 0, 0, 0];

/// The DATA letter of an index with a number: its kind, the number of its words, the word, and the value and the weight.
pub fn data(index: u8, number: u8) -> [u8; 49]
    ensures { result ≡ data_letter index number }
{
    [
        22, 1, 0, 0, 0, 0, 0, 0, 0, index, 0, 0, 0, 0, 0, 0, 0, number, 0, 0, 0, 0, 0, 0, 0, 0, 0,
        0, 0, 0, 0, 0, 0, number, 0, 0, 0, 0, 0, 0, 0, 0, 0, 0, 0, 0, 0, 0, 0,
    ]
}
