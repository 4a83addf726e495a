// Object formats: how an object lies in words.
#![tactic(auto)]

mod checks;
pub mod codings;
mod reading;
mod refusals;
mod things;
mod words;
mod writing;

pub use checks::{extent, holds};
pub use reading::{look, read};
pub use refusals::Refusal;
pub use things::{Format, Head, Kind, Shape, Slot};
pub use writing::{forward, make, pad, set_slot};
