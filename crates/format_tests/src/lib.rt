// Tests of the object formats: tables of words, of what they read as and of what a write makes of them; and
// a format that is one of two, as its value says.
#![tactic(auto)]

mod chosen;

pub use chosen::Chosen;

#[cfg(test)]
mod both;
#[cfg(test)]
mod checks;
#[cfg(test)]
mod counted;
#[cfg(test)]
mod tagged;
