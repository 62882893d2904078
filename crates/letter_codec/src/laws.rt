//! Theorems over the bytes of letters, each the contract of a function that does nothing.
ghost use Rattle.letter_codec.specs.Laws.{PartsAreUnique, EntriesAreUnique, LettersHaveTheirLength, WholeLettersAreWritten, NumbersAreReadBack, AlikeIsMutual, AlikeLettersDifferInNumbers};

/// Bytes are a letter in one way, and words are rows in one way.
pub fn parts_are_unique()
    ensures letters { PartsAreUnique }
    ensures rows { EntriesAreUnique }
{}

/// Bytes that were written in their order: the length of a letter, and what begins like it and has this length.
pub fn letters_are_written()
    ensures length { LettersHaveTheirLength }
    ensures whole { WholeLettersAreWritten }
{}

/// Each number is read where it was written, for every kind of number.
pub fn numbers_are_read_back<S>()
    ensures { NumbersAreReadBack S }
{}

/// Letters that are alike, as a wire may change them: kind, words and the count of numbers are the same, and each is a
/// letter where the other is one.
pub fn alike_letters_differ_in_numbers()
    ensures mutual { AlikeIsMutual }
    ensures numbers { AlikeLettersDifferInNumbers }
{}
