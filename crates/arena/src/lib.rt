// The arena: segments and their owners, rows of things, runs of paddings, and the mark and grey boards.
#![tactic(auto)]

mod boards;
mod buffers;
mod runs;
mod segments;

pub use boards::{clear_all, clear_bit, count_ones, is_set, lowest_from, set_bit};
pub use buffers::{Buffer, Rows, Step, pad_part};
pub use segments::{Owner, Segments, segments_in};
