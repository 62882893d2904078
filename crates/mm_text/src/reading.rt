//! The reader, from the bytes of a file to its entries.

pub(crate) mod again;
mod banner;
mod entries;
pub(crate) mod matrix;
mod numerals;
mod sizes;
#[cfg(test)]
mod tests;
mod text;
