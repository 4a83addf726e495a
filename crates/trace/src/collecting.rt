// What follows the roots: the segments that are not condemned, the targets' rests, and the sweep.
ghost use Rattle.std.specs.Prelude.{◌≡◌, ◌+◌, ◌*◌, ◌≤◌, length};
ghost use Rattle.trace.specs.Collections.{row_scanned, refers, segment_scanned, all_scanned, targets_ended, ground, segment_swept, all_swept, value_of};
ghost use Rattle.trace.specs.Lent.{contents, HeapStaysLent};

use crate::fixing::pad_rest;
use crate::heap::Heap;
use crate::state::{Class, Plan, Tracer};
use crate::sweeping::sweep;
use arena::{Owner, Segments, count_ones, segments_in};
use format::Format;

impl Plan {
    // Whether the owner of a segment has objects that hold references.
    fn has_references(&self, owner: Owner) -> bool
        ensures { result ≡ refers self.now.classes owner }
    {
        matches!(self.class_of(owner), Some(Class::Amc | Class::Ams))
    }
}

impl<F: Format> Tracer<'_, F> {
    // Scans the things of a row, by address.
    fn scan_row(&self, heap: &mut Heap<'_>, base: usize, limit: usize)
        requires { (base ≤ limit) × (limit ≤ length heap.old.words.now) }
        ensures after { contents heap.new ≡ row_scanned (F.Format.meaning self.now.format.now) self.now.plan.now (contents heap.old) base limit }
        ensures lent { HeapStaysLent heap.old heap.new }
    {
        // By a cursor, since a scan writes the words that the walk goes over.
        let mut at = base;
        while at < limit {
            let end = self.end_at(heap, at, limit);
            self.scan(heap, at);
            at = end;
        }
    }

    // Scans a segment that was in use and is not condemned.
    fn scan_segment(&self, heap: &mut Heap<'_>, used: &Segments, segment: u8)
        requires { segment * 256 + 256 ≤ length heap.old.words.now }
        ensures after { contents heap.new ≡ segment_scanned (F.Format.meaning self.now.format.now) self.now.plan.now used.now (contents heap.old) segment }
        ensures lent { HeapStaysLent heap.old heap.new }
    {
        let plan = self.plan;
        if !plan.condemned[segment as usize] && plan.has_references(used.owner(segment)) {
            let base = segment as usize * 256;
            self.scan_row(heap, base, base + 256);
        }
    }

    #[tactic(auto, using(crate::proofs::Loops::next_scanned), unfolding(crate::specs::Collections::all_scanned))]
    pub(crate) fn scan_segments(&self, heap: &mut Heap<'_>, used: &Segments)
        ensures after { contents heap.new ≡ all_scanned (F.Format.meaning self.now.format.now) self.now.plan.now used.now (contents heap.old) }
        ensures lent { HeapStaysLent heap.old heap.new }
    {
        for s in 0..segments_in(heap.words.len()) {
            self.scan_segment(heap, used, s as u8);
        }
    }
}

impl<F: Format> Tracer<'_, F> {
    // Pads the rest of each pool's target.
    #[tactic(auto, using(crate::proofs::Loops::next_target), unfolding(crate::specs::Collections::all_targets_closed))]
    pub(crate) fn close_targets(&self, heap: &mut Heap<'_>)
        ensures after { contents heap.new ≡ targets_ended (F.Format.meaning self.now.format.now) (contents heap.old) }
        ensures lent { HeapStaysLent heap.old heap.new }
    {
        for at in heap.state.targets {
            pad_rest(self.format, heap.words, at);
        }
    }

    fn sweep_condemned(
        &self,
        segments: &mut Segments,
        words: &mut [u32],
        marks: &[u32],
        segment: u8,
    )
        ensures { ground segments.new words.new ≡ segment_swept (F.Format.meaning self.now.format.now) self.now.plan.now marks.now (ground segments.old words.old) segment }
    {
        if self.plan.condemned[segment as usize] {
            sweep(self.format, segments, words, marks, segment);
        }
    }

    // Sweeps the condemned segments.
    #[tactic(auto, using(crate::proofs::Loops::next_swept), unfolding(crate::specs::Collections::all_swept))]
    pub(crate) fn sweep_segments(&self, segments: &mut Segments, words: &mut [u32], marks: &[u32])
        ensures { ground segments.new words.new ≡ all_swept (F.Format.meaning self.now.format.now) self.now.plan.now marks.now (ground segments.old words.old) }
    {
        for s in 0..segments_in(words.len()) {
            self.sweep_condemned(segments, words, marks, s as u8);
        }
    }
}

// Objects moved times 65,536, plus the objects marked.
pub(crate) fn value(moved: u32, marks: &[u32]) -> u32
    ensures { result ≡ value_of moved marks.now }
{
    moved
        .saturating_mul(65536)
        .saturating_add(count_ones(marks))
}
