// Scanning objects: fixing each of their references. That an object's words lie in the arena is asked by each
// function and not of a type, since the arena's length is the heap's.
ghost use Rattle.std.specs.Prelude.{◌≡◌, ◌+◌, ◌≤◌, length};
ghost use Rattle.trace.specs.Traces.{slot_fixed, slots_fixed, scanned, turned, rounded};
ghost use Rattle.trace.specs.Lent.{contents, HeapStaysLent};

use crate::heap::Heap;
use crate::state::Tracer;
use arena::clear_bit;
use format::{Format, Head, Shape, Slot};

impl<F: Format> Tracer<'_, F> {
    // Fixes slot i of the object at a, if it holds a reference. A reference that stays is not written.
    fn fix_slot(&self, heap: &mut Heap<'_>, a: usize, shape: Shape, i: u8)
        requires { a + (F.Format.meaning self.now.format.now).size shape ≤ length heap.old.words.now }
        ensures after { contents heap.new ≡ slot_fixed (F.Format.meaning self.now.format.now) self.now.plan.now (contents heap.old) a ((F.Format.meaning self.now.format.now).size shape) shape i }
        ensures lent { HeapStaysLent heap.old heap.new }
    {
        if let Slot::Reference(old) = self.slot_at(heap, a, shape, i) {
            let new = self.fix(heap, old);
            if new != old {
                let own = &mut heap.words[a..a + self.format.size(shape)];
                self.format.write_slot(own, shape, i, Slot::Reference(new));
            }
        }
    }

    fn fix_slots(&self, heap: &mut Heap<'_>, a: usize, shape: Shape)
        requires { a + (F.Format.meaning self.now.format.now).size shape ≤ length heap.old.words.now }
        ensures after { contents heap.new ≡ slots_fixed (F.Format.meaning self.now.format.now) self.now.plan.now (contents heap.old) a ((F.Format.meaning self.now.format.now).size shape) shape shape.n }
        ensures lent { HeapStaysLent heap.old heap.new }
    {
        for i in 0..shape.n {
            self.fix_slot(heap, a, shape, i);
        }
    }

    // Fixes the references of the object at a, slots ascending.
    pub fn scan(&self, heap: &mut Heap<'_>, a: usize)
        ensures after { contents heap.new ≡ scanned (F.Format.meaning self.now.format.now) self.now.plan.now (contents heap.old) a }
        ensures lent { HeapStaysLent heap.old heap.new }
    {
        if a > 65535 || heap.words.len() < a / 256 * 256 + 256 {
            return;
        }
        if let Head::Object(shape) = self.head_at(heap, a) {
            self.fix_slots(heap, a, shape);
        }
    }

    // Takes the grey object at a off the board and scans it.
    fn turn(&self, heap: &mut Heap<'_>, a: usize)
        ensures after { contents heap.new ≡ turned (F.Format.meaning self.now.format.now) self.now.plan.now (contents heap.old) a }
        ensures lent { HeapStaysLent heap.old heap.new }
    {
        clear_bit(heap.greys, a);
        heap.state.low = a;
        self.scan(heap, a);
    }

    // While something is grey, and at most n times: ungreys the lowest and scans it.
    pub fn rounds(&self, heap: &mut Heap<'_>, n: usize)
        ensures after { contents heap.new ≡ rounded (F.Format.meaning self.now.format.now) self.now.plan.now n (contents heap.old) }
        ensures lent { HeapStaysLent heap.old heap.new }
    {
        for _ in 0..n {
            let Some(a) = heap.lowest_grey() else {
                return;
            };
            self.turn(heap, a);
        }
    }
}
