//! The transfers by which ranks make a value together, and the phases of a job.

use letter_codec::Kind;

/// A plan joins a map in which each index has one owner with lists of the ranks that may overlap. By an import plan these
/// are the lists of the target map, by an export plan those of the source map, by the column plan of a structure the
/// columns of each rank's places, and by its row plan the rows of the lines that were dealt to each rank
/// (`Tpetra::Import`, `Tpetra::Export`). Maps and values are named by their numbers.
#[derive(Clone, Copy, Debug, PartialEq, Eq)]
pub enum Plan {
    ImportPlan { source: u32, target: u32 },
    ExportPlan { source: u32, target: u32 },
    ColumnPlan { value: usize },
    RowPlan { value: usize },
}

/// Numbers go from the owners to those whose lists have the index, or the other way.
#[derive(Clone, Copy, Debug, PartialEq, Eq)]
pub enum Way {
    FromOwners,
    ToOwners,
}

/// A plan and the way in which numbers go by it.
#[derive(Clone, Copy, Debug, PartialEq, Eq)]
pub struct Transfer {
    pub plan: Plan,
    pub way: Way,
}

/// What a phase is about: each rank registers its indices of a map, asks for the owners of those that it lacks, is told
/// them, says which it wants or offers, or sends the numbers of a transfer.
#[derive(Clone, Copy, Debug, PartialEq, Eq)]
pub enum About {
    RegisterMap { map: u32 },
    AskOwners { plan: Plan },
    TellOwners { plan: Plan },
    SharePlan { plan: Plan },
    SendNumbers { stage: usize },
}

/// A phase: the kind of its letters, the number of the value for which it is, and what it is about.
#[derive(Clone, Copy, Debug, PartialEq, Eq)]
pub struct Phase {
    pub kind: Kind,
    pub value: usize,
    pub about: About,
}
