// Charts: which constituents have been found in a row of words. The trait, the number of a cell, and the byte chart.
#![tactic(auto)]

pub mod bytes;
pub mod cells;
pub mod extent;
pub mod meaning;
mod square;
#[cfg(test)]
mod tests;

pub use bytes::ByteChart;
pub use cells::{cell_of, cells_of};
pub use extent::Extent;
pub use meaning::Chart;

// The most words that any chart takes.
pub const MOST_WORDS: usize = 40;

// The most categories that any chart is started with.
pub const MOST_CATEGORIES: usize = 64;
