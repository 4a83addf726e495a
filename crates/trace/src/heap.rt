// The memory that is lent to a collection.
ghost use Rattle.std.specs.Prelude.{◌≡◌};
ghost use Rattle.arena.specs.Boards.{lowest_bit};
ghost use Rattle.trace.specs.Traces.{marked, greyed};
ghost use Rattle.trace.specs.Lent.{contents, HeapStaysLent};

use crate::state::Trace;
use arena::{lowest_from, set_bit};

// An arena's words, and two boards with a bit for each word.
#[derive(Drop)]
pub struct Memory<'a> {
    pub words: &'a mut [u32],
    pub marks: &'a mut [u32],
    pub greys: &'a mut [u32],
}

// What a trace changes: its state, the words, and the boards of what is marked and what is grey. It has no
// `Memory` in it, since the check does not cover a slice that is lent on out of a field of a field.
#[derive(Drop)]
pub struct Heap<'a> {
    pub state: Trace,
    pub words: &'a mut [u32],
    pub marks: &'a mut [u32],
    pub greys: &'a mut [u32],
}

impl Heap<'_> {
    // Makes an object grey.
    pub(crate) fn grey(&mut self, a: usize)
        ensures after { contents self.new ≡ greyed (contents self.old) a }
        ensures lent { HeapStaysLent self.old self.new }
    {
        set_bit(self.greys, a);
        self.state.low = self.state.low.min(a);
    }

    // The lowest grey object.
    pub(crate) fn lowest_grey(&self) -> Option<usize>
        ensures { result ≡ lowest_bit self.now.greys.now self.now.state.low }
    {
        lowest_from(self.greys, self.state.low)
    }

    // Marks an object.
    pub(crate) fn mark(&mut self, a: usize)
        ensures after { contents self.new ≡ marked (contents self.old) a }
        ensures lent { HeapStaysLent self.old self.new }
    {
        set_bit(self.marks, a);
    }
}
