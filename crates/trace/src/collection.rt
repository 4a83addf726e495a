// The collection of a set of pools.
ghost use Rattle.std.specs.Prelude.{◌≡◌, ◌+◌, length, replicate};
ghost use Rattle.trace.specs.Collections.{all_buffers_closed, value_of};
ghost use Rattle.trace.specs.Collect.{fits, held, unbuffered, plan_of, performed, collected, outcome};
ghost use Rattle.trace.specs.Remembering.{Remembers};
ghost use Rattle.trace.specs.Keeping.{NewArenasSound, CollectionsKeep};
ghost use Rattle.trace.specs.Lent.{held_in, StaysLent};

use crate::collecting::value;
use crate::heap::{Heap, Memory};
use crate::rooting::condemn;
use crate::state::{Arena, Plan, Trace, Tracer};
use arena::{Buffer, clear_all, pad_part};
use format::{Format, Refusal};

impl Memory<'_> {
    // Whether words and boards have lengths that go together.
    fn fits<F: Format>(&self, format: &F) -> bool
        ensures { result ≡ fits (F.Format.meaning format.now) (length self.now.words.now) (length self.now.marks.now) (length self.now.greys.now) }
    {
        let words = self.words.len();
        words % 256 == 0
            && (1024..=65536).contains(&words)
            && words <= format.address_limit() as usize + 1
            && self.marks.len() == words / 32
            && self.greys.len() == words / 32
    }
}

// The value of a collection, counted before the boards are cleared.
fn tally(moved: u32, marks: &mut [u32], greys: &mut [u32]) -> u32
    ensures value { result ≡ value_of moved marks.old }
    ensures marks { marks.new ≡ replicate (length marks.old) 0 }
    ensures greys { greys.new ≡ replicate (length greys.old) 0 }
{
    let value = value(moved, marks);
    clear_all(marks);
    clear_all(greys);
    value
}

impl<F: Format> Tracer<'_, F> {
    // Traces what is condemned, sweeps it, and clears the boards. The slices of the memory come one by one,
    // since the check does not cover a heap that is made of them where they lie.
    fn perform(
        &self,
        arena: &mut Arena,
        words: &mut [u32],
        marks: &mut [u32],
        greys: &mut [u32],
    ) -> u32
        ensures { outcome result (held arena.new words.new marks.new greys.new) ≡ performed (F.Format.meaning self.now.format.now) self.now.plan.now (held arena.old words.old marks.old greys.old) }
    {
        arena.close_buffers(self.format, words);
        let mut heap = Heap {
            state: Trace::new(arena.segments),
            words,
            marks,
            greys,
        };
        self.trace_roots(&mut heap, &arena.ambiguous, &mut arena.registers);
        let Trace {
            segments,
            moved,
            ..
        } = heap.state;
        arena.segments = segments;
        self.sweep_segments(&mut arena.segments, words, marks);
        tally(moved, marks, greys)
    }
}

impl Arena {
    // Closes the buffers of all allocation points: there are none then.
    #[tactic(auto, using(crate::proofs::Loops::next_buffer), unfolding(crate::specs::Collections::all_buffers_closed))]
    fn close_buffers<F: Format>(&mut self, format: &F, words: &mut [u32])
        ensures words { words.new ≡ all_buffers_closed (F.Format.meaning format.now) self.old.buffers words.old }
        ensures arena { self.new ≡ unbuffered self.old }
    {
        // Not by `close` of each: with `iter_mut` what the buffers are then was tried, and stayed open.
        for buffer in &self.buffers {
            pad_part(format, words, buffer.init, buffer.limit);
        }
        self.buffers = [Buffer::default(); 8];
    }

    // What a collection of a set of pools does not change.
    fn plan(&self, pools: u8) -> Plan
        ensures { result ≡ plan_of self.now pools }
    {
        Plan {
            condemned: condemn(&self.segments, pools),
            classes: self.classes,
        }
    }

    // Refuses, or ages the dependencies and collects. It stands apart from `collect`, so that an edit of the
    // code is refused at the code, and not at the proof of a law.
    fn collect_pools<F: Format>(
        &mut self,
        format: &F,
        memory: &mut Memory<'_>,
        pools: u8,
    ) -> Result<u32, Refusal>
        ensures outcome { outcome result (held_in self.new memory.new) ≡ collected (F.Format.meaning format.now) (held_in self.old memory.old) pools }
        ensures lent { StaysLent memory.old memory.new }
    {
        if !memory.fits(format) {
            return Err(Refusal::WrongLength);
        }
        let plan = &self.plan(pools);
        let zones = plan.condemned_zones(&self.segments);
        self.history.age(zones)?;
        let tracer = Tracer { format, plan };
        Ok(tracer.perform(self, memory.words, memory.marks, memory.greys))
    }

    // Collects a set of pools, bit p for pool p. The answer is 65,536 times the objects moved plus the
    // objects kept in place: one word, as a call of the store answers.
    pub fn collect<F: Format>(
        &mut self,
        format: &F,
        memory: &mut Memory<'_>,
        pools: u8,
    ) -> Result<u32, Refusal>
        ensures outcome { outcome result (held_in self.new memory.new) ≡ collected (F.Format.meaning format.now) (held_in self.old memory.old) pools }
        ensures lent { StaysLent memory.old memory.new }
        ensures remembers { Remembers }
        ensures begins { NewArenasSound }
        ensures keeps { CollectionsKeep }
    {
        self.collect_pools(format, memory, pools)
    }
}
