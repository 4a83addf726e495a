// Fixing a reference.
ghost use Rattle.std.specs.Prelude.{◌≡◌, ◌+◌, ◌<◌, ◌≤◌, length};
ghost use Rattle.arena.specs.Buffers.{padded_part};
ghost use Rattle.trace.specs.Traces.{rest, taken, moved_words, copied_words, advanced, copied, fix_answer, fixed};
ghost use Rattle.trace.specs.Lent.{contents, HeapStaysLent};

use crate::deciding::{Fate, rest_of};
use crate::heap::Heap;
use crate::state::{Trace, Tracer};
use arena::pad_part;
use format::Format;

// Pads the rest of a target, where its next word is at `at`.
pub(crate) fn pad_rest<F: Format>(format: &F, words: &mut [u32], at: u32)
    ensures { words.new ≡ padded_part (F.Format.meaning format.now) at (at + rest at) words.old }
{
    pad_part(format, words, at as usize, at as usize + rest_of(at));
}

fn copy_words(words: &mut [u32], a: usize, size: usize, to: usize)
    requires { (a + size ≤ length words.old) × (to + size ≤ length words.old) }
    ensures { words.new ≡ moved_words words.old a size to }
{
    words.copy_within(a..a + size, to);
}

// Copies an object's words, and marks the original as forwarded.
fn move_words<F: Format>(format: &F, words: &mut [u32], a: usize, size: usize, to: u32)
    requires { (a + size ≤ length words.old) × (to + size ≤ length words.old) }
    ensures { words.new ≡ copied_words (F.Format.meaning format.now) words.old a size to }
{
    copy_words(words, a, size, to as usize);
    format.write_forward(&mut words[a..a + size], to);
}

impl Trace {
    // One more object has moved, and its pool's target has its next word behind it.
    fn advance(&mut self, pool: u8, next: u32)
        requires { pool < 8 }
        ensures { self.new ≡ advanced self.old pool next }
    {
        self.targets[pool as usize] = next;
        self.moved = self.moved.saturating_add(1).min(65535);
    }
}

impl<F: Format> Tracer<'_, F> {
    // A pool takes a segment for its target; the rest of the old one is padded.
    fn take(&self, heap: &mut Heap<'_>, pool: u8, segment: u8)
        requires { pool < 8 }
        ensures after { contents heap.new ≡ taken (F.Format.meaning self.now.format.now) (contents heap.old) pool segment }
        ensures lent { HeapStaysLent heap.old heap.new }
    {
        let at = heap.state.targets[pool as usize];
        pad_rest(self.format, heap.words, at);
        heap.state.targets[pool as usize] = segment as u32 * 256;
        heap.state.segments.give(segment, pool);
    }

    fn copy(&self, heap: &mut Heap<'_>, pool: u8, a: usize, size: usize, to: u32)
        requires { (pool < 8) × ((size ≤ 256) × ((a + size ≤ length heap.old.words.now) × ((to + size ≤ length heap.old.words.now) × (to + size ≤ 65536)))) }
        ensures after { contents heap.new ≡ copied (F.Format.meaning self.now.format.now) (contents heap.old) pool a size to }
        ensures lent { HeapStaysLent heap.old heap.new }
    {
        move_words(self.format, heap.words, a, size, to);
        heap.state.advance(pool, to + size as u32);
        heap.grey(to as usize);
    }

    // Fixes a reference: what it refers to is kept, and the answer is where that is now.
    pub fn fix(&self, heap: &mut Heap<'_>, a: u32) -> u32
        ensures answer { result ≡ fix_answer (F.Format.meaning self.now.format.now) self.now.plan.now (contents heap.old) a }
        ensures after { contents heap.new ≡ fixed (F.Format.meaning self.now.format.now) self.now.plan.now (contents heap.old) a }
        ensures lent { HeapStaysLent heap.old heap.new }
    {
        match self.decide(heap, a as usize) {
            Fate::Stay => a,
            Fate::Gone(to) => to,
            Fate::Mark => {
                heap.mark(a as usize);
                a
            }
            Fate::Grey => {
                heap.mark(a as usize);
                heap.grey(a as usize);
                a
            }
            Fate::Copy { pool, size, to } => {
                self.copy(heap, pool, a as usize, size, to);
                to
            }
            Fate::Fresh {
                pool,
                size,
                segment,
            } => {
                self.take(heap, pool, segment);
                let to = segment as u32 * 256;
                self.copy(heap, pool, a as usize, size, to);
                to
            }
        }
    }
}
