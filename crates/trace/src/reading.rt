// Reading the things of a heap.
ghost use Rattle.std.specs.Prelude.{◌≡◌, ◌+◌, ◌*◌, ◌/◌, ◌<◌, ◌≤◌, length};
ghost use Rattle.format.specs.Laws.{part};
ghost use Rattle.trace.specs.Traces.{head_at};
ghost use Rattle.trace.specs.Collections.{end_at};
ghost use Rattle.trace.specs.Lent.{contents};

use crate::heap::Heap;
use crate::state::Tracer;
use crate::sweeping::stand_at;
use format::{Format, Head, Shape, Slot, look};

impl<F: Format> Tracer<'_, F> {
    // What the head at a says, as far as the end of its segment.
    pub(crate) fn head_at(&self, heap: &Heap<'_>, a: usize) -> Head
        requires { a / 256 * 256 + 256 ≤ length heap.now.words.now }
        ensures { result ≡ head_at (F.Format.meaning self.now.format.now) heap.now.words.now a }
    {
        look(self.format, &heap.words[a..a / 256 * 256 + 256])
    }

    // Slot i of the object at a.
    pub(crate) fn slot_at(&self, heap: &Heap<'_>, a: usize, shape: Shape, i: u8) -> Slot
        requires { a + (F.Format.meaning self.now.format.now).size shape ≤ length heap.now.words.now }
        ensures { result ≡ (F.Format.meaning self.now.format.now).slot shape (part a ((F.Format.meaning self.now.format.now).size shape) heap.now.words.now) i }
    {
        let size = self.format.size(shape);
        self.format.slot(&heap.words[a..a + size], shape, i)
    }

    // Where the thing at a place of a row ends.
    pub(crate) fn end_at(&self, heap: &Heap<'_>, at: usize, limit: usize) -> usize
        requires { (at < limit) × (limit ≤ length heap.now.words.now) }
        ensures end { result ≡ end_at (F.Format.meaning self.now.format.now) limit (contents heap.now) at }
        ensures fits { (at < result) × (result ≤ limit) }
    {
        stand_at(self.format, heap.words, heap.marks, at, limit).end
    }
}
