//! The value that a rank is making.

use crs_matrix::MatrixFill;
use multivector::MultiVector;
use rank_makings::Coming;

/// What a rank has of the value that it makes, in the phases of this value: its numbers come; those of a stage came, of which the
/// next one is made; or a matrix is under construction, while the plans of its structure are made.
#[derive(Drop)]
pub enum Making<S> {
    Arriving(Coming<S>),
    Arrived(MultiVector<S>),
    Filled(MatrixFill<S>),
}
