//! The banner: line 1 of a file.
ghost use Rattle.std.specs.Prelude.{◌≡◌, map, bytes_eq};
ghost use Rattle.std.specs.Char.{to_ascii_lowercase};
ghost use Rattle.mm_text.specs.Banner.{banner_of, field_named, form_named, is_named, kind_of, mirror_of, banner_named, object_named, same_form, banner_supported, symmetry_named};
ghost use Rattle.mm_text.specs.Lines.{words_in, words_of};
ghost use Rattle.mm_text.specs.Outcomes.{or_fault};

use crate::{Form, Mirror, MmFault};
use text_lines::{four_words, next_word, without_return};

/// The field of a banner.
#[derive(Clone, Copy, PartialEq, Eq)]
pub enum Field {
    Real,
    Integer,
    Complex,
    Pattern,
}

/// The symmetry of a banner.
#[derive(Clone, Copy, PartialEq, Eq)]
pub enum Symmetry {
    General,
    Symmetric,
    SkewSymmetric,
    Hermitian,
}

/// What an entry line holds: a place and a value, a place alone, or a value alone.
#[derive(Clone, Copy, PartialEq, Eq)]
pub enum Kind {
    Valued,
    Pattern,
    Dense,
}

/// What a banner says of the lines after it.
#[derive(Clone, Copy, PartialEq, Eq)]
pub struct Banner {
    pub kind: Kind,
    pub mirror: Mirror,
}

/// Whether the word is the name, whatever the case of its letters.
fn is_named(name: &str, word: &[u8]) -> bool
    ensures { result ≡ is_named name.now word.now }
{
    word.eq_ignore_ascii_case(name.as_bytes())
}

/// The form of this name.
fn form_named(word: &[u8]) -> Option<Form>
    ensures { result ≡ form_named word.now }
{
    if is_named("coordinate", word) {
        Some(Form::Coordinate)
    } else if is_named("array", word) {
        Some(Form::Array)
    } else {
        None
    }
}

/// The field of this name.
fn field_named(word: &[u8]) -> Option<Field>
    ensures { result ≡ field_named word.now }
{
    if is_named("real", word) {
        Some(Field::Real)
    } else if is_named("integer", word) {
        Some(Field::Integer)
    } else if is_named("complex", word) {
        Some(Field::Complex)
    } else if is_named("pattern", word) {
        Some(Field::Pattern)
    } else {
        None
    }
}

/// The symmetry of this name.
fn symmetry_named(word: &[u8]) -> Option<Symmetry>
    ensures { result ≡ symmetry_named word.now }
{
    if is_named("general", word) {
        Some(Symmetry::General)
    } else if is_named("symmetric", word) {
        Some(Symmetry::Symmetric)
    } else if is_named("skew-symmetric", word) {
        Some(Symmetry::SkewSymmetric)
    } else if is_named("hermitian", word) {
        Some(Symmetry::Hermitian)
    } else {
        None
    }
}

/// What the entries of this form and field are.
fn kind_of(form: Form, field: Field) -> Result<Kind, MmFault>
    ensures { result ≡ kind_of form field }
{
    match (form, field) {
        (Form::Coordinate, Field::Integer) => Ok(Kind::Valued),
        (Form::Coordinate, Field::Pattern) => Ok(Kind::Pattern),
        (Form::Array, Field::Integer) => Ok(Kind::Dense),
        _ => Err(MmFault::UnsupportedField),
    }
}

/// What an entry of this kind says of the place across the diagonal.
fn mirror_of(kind: Kind, symmetry: Symmetry) -> Result<Mirror, MmFault>
    ensures { result ≡ mirror_of kind symmetry }
{
    match (kind, symmetry) {
        (_, Symmetry::General) => Ok(Mirror::Plain),
        (Kind::Valued, Symmetry::Symmetric) => Ok(Mirror::Same),
        (Kind::Pattern, Symmetry::Symmetric) => Ok(Mirror::Same),
        (Kind::Valued, Symmetry::SkewSymmetric) => Ok(Mirror::Negated),
        _ => Err(MmFault::UnsupportedSymmetry),
    }
}

/// Whether both forms are one.
pub fn same_form(want: Form, form: Form) -> bool
    ensures { result ≡ same_form want form }
{
    match (want, form) {
        (Form::Coordinate, Form::Coordinate) => true,
        (Form::Array, Form::Array) => true,
        _ => false,
    }
}

/// The banner of this form, field and symmetry.
fn banner_supported(
    want: Form,
    form: Form,
    field: Field,
    symmetry: Symmetry,
) -> Result<Banner, MmFault>
    ensures { result ≡ banner_supported want form field symmetry }
{
    let kind = kind_of(form, field)?;
    let mirror = mirror_of(kind, symmetry)?;
    if same_form(want, form) {
        Ok(Banner { kind, mirror })
    } else {
        Err(MmFault::WrongForm)
    }
}

/// The banner of the four words after the first.
fn banner_named(
    want: Form,
    object: &[u8],
    form: &[u8],
    field: &[u8],
    symmetry: &[u8],
) -> Result<Banner, MmFault>
    ensures { result ≡ banner_named want (object.now, form.now, field.now, symmetry.now) }
{
    if !is_named("matrix", object) {
        return Err(MmFault::BadBanner);
    }
    match (
        form_named(form),
        field_named(field),
        symmetry_named(symmetry),
    ) {
        (Some(form), Some(field), Some(symmetry)) => banner_supported(want, form, field, symmetry),
        _ => Err(MmFault::BadBanner),
    }
}

/// The banner of a line, where its form is the one that is wanted.
pub fn read_banner(want: Form, line: &[u8]) -> Result<Banner, MmFault>
    ensures { result ≡ banner_of want (words_of line.now) }
{
    match next_word(without_return(line)) {
        None => Err(MmFault::NoBanner),
        Some((mark, rest)) => {
            if mark != b"%%MatrixMarket".as_slice() {
                return Err(MmFault::NoBanner);
            }
            match four_words(rest) {
                None => Err(MmFault::BadBanner),
                Some((object, form, field, symmetry)) => {
                    banner_named(want, object, form, field, symmetry)
                }
            }
        }
    }
}
