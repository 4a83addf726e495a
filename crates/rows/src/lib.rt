// Rows of things, and the listing of a row as text.
#![tactic(auto)]

mod text;
mod walking;

pub use text::listing;
pub use walking::{Entry, Row, Tally};
