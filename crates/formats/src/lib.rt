// The object formats: counted and tagged. Both have a header word, and a word for each slot after it.
#![tactic(auto)]

mod counted;
mod tagged;

pub use counted::Counted;
pub use tagged::Tagged;
