// Tests of the arena: boards, segments and their owners, steps along a row of things, and runs of paddings.
#![tactic(auto)]

#[cfg(test)]
mod boards;
#[cfg(test)]
mod buffers;
#[cfg(test)]
mod runs;
#[cfg(test)]
mod segments;
#[cfg(test)]
mod things;
