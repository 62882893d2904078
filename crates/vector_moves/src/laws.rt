//! Laws over plans, each the contract of a function that does nothing.
ghost use Rattle.vector_moves.specs.Between.{ImportsMoveTheirOwn, WantsAreMoved, ExportsMoveTheirOwn, OffersAreMoved};

/// What `local`, `pack` and `absorb` ask of the positions of plans holds of the plans that `import_plan::ImportPlan` finishes:
/// of what stays on a rank, and of what a rank sends that accepted the want of another.
pub fn imports_move_rows()
    ensures own { ImportsMoveTheirOwn }
    ensures wanted { WantsAreMoved }
{}

/// The same of the plans that `export_plan::ExportPlan` finishes, where a rank accepted the offer of another.
pub fn exports_move_rows()
    ensures own { ExportsMoveTheirOwn }
    ensures offered { OffersAreMoved }
{}
