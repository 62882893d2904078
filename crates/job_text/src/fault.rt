//! Why a job text is refused.
ghost use Rattle.std.specs.Prelude.{◌≡◌};
ghost use Rattle.job_text.specs.Outcomes.{IsFault};
ghost use Rattle.job_text.specs.Names.{key_name};

use crate::place::Place;
use model_defs::Text;
use std::alloc::{AllocError, AllocFailed, Global};
use thiserror::Error;

/// Why a job text is refused. A key is written `ranks` or `map`, or with its table, as `map.0.size`. Statements are counted
/// from 0.
#[derive(Debug, Drop, Error)]
pub enum JobFault {
    /// It is no TOML document.
    #[error("NotToml")]
    NotToml,
    /// The key must stand and does not.
    #[error("Missing")]
    Missing { key: Text },
    /// The value is not of the kind that the key asks for.
    #[error("WrongKind")]
    WrongKind { key: Text },
    /// The table does not have this key.
    #[error("UnknownKey")]
    UnknownKey { key: Text },
    /// No map, or no value that is made before, has this name.
    #[error("UnknownName")]
    UnknownName { name: Text },
    /// A number or a count is outside its range; `job` where the text is too long.
    #[error("Limit")]
    Limit { key: Text },
    /// The map of this name does not have what is asked of it.
    #[error("BadMap")]
    BadMap { name: Text },
    /// The maps, sizes or columns of the operands do not go together.
    #[error("MapMismatch")]
    MapMismatch { statement: u32 },
    /// The map has an index that the operand's map lacks.
    #[error("NotCovered")]
    NotCovered { statement: u32 },
    /// An operand is of another sort.
    #[error("WrongSort")]
    WrongSort { statement: u32 },
    /// Memory ran out.
    #[error("NoMem")]
    NoMem,
    /// A map or a value has this name already.
    #[error("NameTaken")]
    NameTaken { name: Text },
}

impl From<AllocError> for JobFault {
    ghost use Rattle.std.specs.Prelude.{◌≡◌};
    ghost use Rattle.job_text.specs.declared.fault.JobFault.TheVariants.{NoMem};

    ghost from_gives = { λ _ e. e ≡ NoMem };

    fn from(_e: AllocError) -> JobFault {
        JobFault::NoMem
    }
}

impl<T: Drop> From<AllocFailed<T>> for JobFault {
    ghost use Rattle.std.specs.Prelude.{◌≡◌};
    ghost use Rattle.job_text.specs.declared.fault.JobFault.TheVariants.{NoMem};

    ghost from_gives = { λ _ e. e ≡ NoMem };

    fn from(_e: AllocFailed<T>) -> JobFault {
        JobFault::NoMem
    }
}

/// The key does not stand.
pub fn missing(alloc: Global, place: Place, key: &str) -> JobFault
    ensures { IsFault result (JobFault.Missing (key_name place key.now)) }
{
    match place.key_name(alloc, key) {
        Ok(key) => JobFault::Missing { key },
        Err(_) => JobFault::NoMem,
    }
}

/// The key has a value of another kind.
pub fn wrong_kind(alloc: Global, place: Place, key: &str) -> JobFault
    ensures { IsFault result (JobFault.WrongKind (key_name place key.now)) }
{
    match place.key_name(alloc, key) {
        Ok(key) => JobFault::WrongKind { key },
        Err(_) => JobFault::NoMem,
    }
}

/// The key is unknown.
pub fn unknown_key(alloc: Global, place: Place, key: &str) -> JobFault
    ensures { IsFault result (JobFault.UnknownKey (key_name place key.now)) }
{
    match place.key_name(alloc, key) {
        Ok(key) => JobFault::UnknownKey { key },
        Err(_) => JobFault::NoMem,
    }
}

/// The key's value is out of its range.
pub fn limit(alloc: Global, place: Place, key: &str) -> JobFault
    ensures { IsFault result (JobFault.Limit (key_name place key.now)) }
{
    match place.key_name(alloc, key) {
        Ok(key) => JobFault::Limit { key },
        Err(_) => JobFault::NoMem,
    }
}

/// The name is unknown.
pub fn unknown_name(alloc: Global, name: &str) -> JobFault
    ensures { IsFault result (JobFault.UnknownName name.now) }
{
    match Text::new(alloc, name) {
        Ok(name) => JobFault::UnknownName { name },
        Err(_) => JobFault::NoMem,
    }
}

/// The name is taken.
pub fn name_taken(alloc: Global, name: &str) -> JobFault
    ensures { IsFault result (JobFault.NameTaken name.now) }
{
    match Text::new(alloc, name) {
        Ok(name) => JobFault::NameTaken { name },
        Err(_) => JobFault::NoMem,
    }
}

/// The map does not have what is asked of it.
pub fn bad_map(alloc: Global, name: &str) -> JobFault
    ensures { IsFault result (JobFault.BadMap name.now) }
{
    match Text::new(alloc, name) {
        Ok(name) => JobFault::BadMap { name },
        Err(_) => JobFault::NoMem,
    }
}
