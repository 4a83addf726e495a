// Tests of the collection by value, each in every format.
#![tactic(auto)]

#[cfg(test)]
mod building;
#[cfg(test)]
mod damage;
#[cfg(test)]
mod keeping;
#[cfg(test)]
mod moving;
