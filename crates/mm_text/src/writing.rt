//! The writers, from places and values to the bytes of a text.

mod line;
mod page;
#[cfg(test)]
mod tests;
pub(crate) mod text;
