//! Laws of the text: what it is read as, and that what is written is read again.
ghost use Rattle.std.specs.Prelude.{◌≡◌, ◌⊎◌, ℕ, List};
ghost use Rattle.mm_text.specs.declared.fault.MmFault.{MmFault};
ghost use Rattle.mm_text.specs.declared.profile.Profile.{Profile};
ghost use Rattle.mm_text.specs.Outcomes.{IsTextFault};
ghost use Rattle.mm_text.specs.ReadAgain.{TextsAreReadAgain};
ghost use Rattle.mm_text.specs.Reading.{File, HasFault, IsFile};
ghost use Rattle.mm_text.specs.Sound.{IsSound, KeepsLimits};
ghost use Rattle.mm_text.specs.WrittenFiles.{CoordinateTextIsFile, ArrayTextIsFile};

/// Each text is one file or has one fault, and never both.
pub fn one_reading()
    ensures file_or_fault { (profile : Profile) (text : List ℕ) →
        ((file : File) × IsFile profile text file)
        ⊎ ((fault : MmFault) × HasFault profile text fault) }
    ensures not_both { (profile : Profile) (text : List ℕ) (file : File) (fault : MmFault) →
        IsFile profile text file → HasFault profile text fault → ⊥ }
    ensures one_file { (profile : Profile) (text : List ℕ) (file other : File) →
        IsFile profile text file → IsFile profile text other → file ≡ other }
    ensures one_fault { (profile : Profile) (text : List ℕ) (fault other : MmFault) →
        HasFault profile text fault → HasFault profile text other → fault ≡ other }
{}

/// The fault of a text is neither a fault of a read nor want of memory.
pub fn text_faults()
    ensures { (profile : Profile) (text : List ℕ) (fault : MmFault)
        → HasFault profile text fault → IsTextFault fault }
{}

/// What a text is read as is sound: places within the sizes, values within their width, a symmetric file square, and a
/// skew-symmetric one without a diagonal.
pub fn sound_files()
    ensures { (profile : Profile) (text : List ℕ) (file : File) → IsFile profile text file → IsSound file }
{}

/// What a text is read as keeps the limits: sizes and number of entries, and an array is whole and column by column.
pub fn limited_files()
    ensures { (profile : Profile) (text : List ℕ) (file : File)
        → IsFile profile text file → KeepsLimits profile file }
{}

/// What the text of a file is in another form and within other limits follows from what was read of it: `WrongForm` where
/// the forms differ, `BadSize` where rows or columns exceed the other limits, `TooManyEntries` where the entries do, and
/// else the same file.
pub fn texts_are_read_again()
    ensures { TextsAreReadAgain }
{}

/// Coordinate text of places within its sizes is a Matrix Market file with just these entries, in the same order, and
/// with symmetry "general".
pub fn coordinate_text_is_file()
    ensures { CoordinateTextIsFile }
{}

/// Array text of a dense array is a Matrix Market file with just these values, column by column.
pub fn array_text_is_file()
    ensures { ArrayTextIsFile }
{}
