//! Matrix Market text: a reader and writers of coordinate and array files, and what such a file holds, in a profile of
//! the NIST Matrix Market exchange formats for whole numbers.
//!
//! What a text is read as, its file or its first fault, is the definition `reading` in specs/; the reader answers it. What
//! the writers write is read again as the same entries. Rows and columns are counted from 1 in a text and from 0 in
//! values. The crate stands on `outside` and on
//! `text_lines`; `model_defs`, `gathered_rows` and `tpx` stand on it.
//!
//! ```
//! let found = read_matrix(alloc, &mut files, "a.mtx", Form::Coordinate, 8_388_608, 16_777_216)?;
//! write_coordinate(&mut out, found.rows, found.cols, None, &cells)?;
//! ```
#![tactic(auto)]

mod fault;
mod file_data;
pub mod laws;
mod profile;
mod reading;
mod shown;
mod writing;

pub use fault::MmFault;
pub use file_data::{FileData, Form, Line, Mirror};
pub use outside::SinkFault;
pub use reading::again::read_again;
pub use reading::matrix::{parse_matrix, read_matrix};
pub use shown::Shown;
pub use writing::text::{write_array, write_coordinate};
