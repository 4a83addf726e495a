// The trace from the roots up to the sweep.
ghost use Rattle.std.specs.Prelude.{◌≡◌};
ghost use Rattle.trace.specs.Collections.{rooted, traced};
ghost use Rattle.trace.specs.Lent.{contents, HeapStaysLent};

use crate::heap::Heap;
use crate::state::Tracer;
use format::Format;

impl<F: Format> Tracer<'_, F> {
    // Nails what ambiguous words point into, fixes the registers and what is not condemned, scans while
    // something is grey, and pads the rests of the targets.
    #[tactic(auto, unfolding(crate::specs::Collections::traced))]
    pub(crate) fn trace_roots(
        &self,
        heap: &mut Heap<'_>,
        ambiguous: &[u32; 8],
        registers: &mut [u32; 16],
    )
        ensures after { rooted registers.new (contents heap.new) ≡ traced (F.Format.meaning self.now.format.now) self.now.plan.now ambiguous.now (rooted registers.old (contents heap.old)) }
        ensures lent { HeapStaysLent heap.old heap.new }
    {
        let used = heap.state.segments;
        self.nail_all(heap, ambiguous);
        self.fix_registers(heap, registers);
        self.scan_segments(heap, &used);
        self.rounds(heap, heap.words.len());
        self.close_targets(heap);
    }
}
