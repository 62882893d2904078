//! A law of matrices under construction, the contract of a function that does nothing.
ghost use Rattle.matrix_moves.specs.Laws.{NewMatricesAreEmpty};

/// What `MatrixFill::new` gives has no place.
pub fn new_matrices_are_empty<S>()
    ensures { NewMatricesAreEmpty S }
{}
