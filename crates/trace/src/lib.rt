// The trace: fix, scan and sweep, and the collection of a set of pools, one text for every object format.
#![tactic(auto)]

mod collecting;
mod collection;
mod deciding;
mod fixing;
mod heap;
mod reading;
mod rooting;
mod scanning;
mod state;
mod sweeping;
mod tracing;

pub use heap::{Heap, Memory};
pub use state::{Arena, Class, Plan, Trace, Tracer};
pub use sweeping::sweep;
