//! Where a table stands in a job text.
ghost use Rattle.std.specs.Prelude.{◌≡◌, IfOk};
ghost use Rattle.job_text.specs.Names.{key_name};

use model_defs::Text;
use std::alloc::{AllocError, Global};

/// A table of a job text: the top table, or the table of this number, from 0, of an array of the top table.
#[derive(Clone, Copy, Debug)]
pub enum Place {
    Top,
    Map(usize),
    Vector(usize),
    Parts(usize),
    Matrix(usize),
    Do(usize),
}

impl Place {
    /// How a key of the table is named in a fault, as `map.0.size`.
    #[tactic(auto, unfolding(crate::specs::Names::key_name))]
    pub fn key_name(self, alloc: Global, key: &str) -> Result<Text, AllocError>
        ensures { IfOk result (λ name. name ≡ key_name self key.now) }
    {
        match self {
            Place::Top => Text::new(alloc, key),
            Place::Map(k) => Text::new(alloc, format!(in alloc; "map.{k}.{key}")?.as_str()),
            Place::Vector(k) => Text::new(alloc, format!(in alloc; "vector.{k}.{key}")?.as_str()),
            Place::Parts(k) => Text::new(alloc, format!(in alloc; "parts.{k}.{key}")?.as_str()),
            Place::Matrix(k) => Text::new(alloc, format!(in alloc; "matrix.{k}.{key}")?.as_str()),
            Place::Do(k) => Text::new(alloc, format!(in alloc; "do.{k}.{key}")?.as_str()),
        }
    }
}
