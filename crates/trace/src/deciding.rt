// Deciding what becomes of the object at a reference. Nothing changes here.
ghost use Rattle.std.specs.Prelude.{◌≡◌, ◌+◌, ◌*◌, ◌/◌, ◌<◌, ◌≤◌, true, length};
ghost use Rattle.format.specs.Meaning.{extent};
ghost use Rattle.arena.specs.Segments.{owner_of};
ghost use Rattle.trace.specs.Traces.{rest, by_room, by_owner, sought, by_head, fate_of, Within, Bounded};
ghost use Rattle.trace.specs.Lent.{contents};

use crate::heap::Heap;
use crate::state::{Class, Plan, Tracer};
use arena::is_set;
use format::{Format, Head};

// What becomes of the object at a reference: a value and no closure, since what is decided is half of
// what the contract of `fix` says. A pool is its number here, as in the definitions, and not a type of numbers
// below 8, which each of them would have to take apart.
#[derive(Clone, Copy, PartialEq, Eq, Debug)]
pub(crate) enum Fate {
    Stay,
    Gone(u32),
    Mark,
    Grey,
    Copy { pool: u8, size: usize, to: u32 },
    Fresh { pool: u8, size: usize, segment: u8 },
}

// How many words a target segment has left, where its next word is at `at`.
pub(crate) fn rest_of(at: u32) -> usize
    ensures { result ≡ rest at }
{
    ((256 - at % 256) % 256) as usize
}

impl Heap<'_> {
    // Where an object of an AMC pool goes: to the pool's target, to a fresh segment, or nowhere.
    fn find_room(&self, pool: u8, size: usize) -> Fate
        requires { (pool < 8) × (size ≤ 256) }
        ensures which { result ≡ by_room self.now.state (length self.now.words.now) pool size }
        ensures fits { Within (length self.now.words.now) size result }
    {
        let len = self.words.len();
        let at = self.state.targets[pool as usize];
        if size <= rest_of(at) && at as usize + size <= len.min(65536) {
            return Fate::Copy { pool, size, to: at };
        }
        match self.state.segments.lowest_free(len) {
            Some(segment) => Fate::Fresh {
                pool,
                size,
                segment,
            },
            None => Fate::Grey,
        }
    }
}

impl Plan {
    // What becomes of an object of so many words in a segment.
    fn by_class(&self, heap: &Heap<'_>, segment: u8, size: usize) -> Fate
        requires { size ≤ 256 }
        ensures which { result ≡ by_owner self.now heap.now.state (length heap.now.words.now) size (owner_of heap.now.state.segments segment) }
        ensures fits { Within (length heap.now.words.now) size result }
    {
        let Some(pool) = heap.state.segments.owner(segment) else {
            return Fate::Stay;
        };
        match self.class(pool) {
            Some(Class::Amc) => heap.find_room(pool, size),
            Some(Class::Ams) => Fate::Grey,
            Some(Class::Lo) => Fate::Mark,
            None => Fate::Stay,
        }
    }

    // Whether the reference leads into a condemned segment of the arena, and to nothing that is marked.
    fn is_sought(&self, len: usize, marks: &[u32], a: usize) -> bool
        ensures which { result ≡ sought self.now len marks.now a }
        ensures fits { result ≡ true → (a < 65536) × (a / 256 * 256 + 256 ≤ len) }
    {
        self.is_condemned(len, a) && !is_set(marks, a)
    }
}

impl<F: Format> Tracer<'_, F> {
    fn by_thing(&self, heap: &Heap<'_>, a: usize, head: Head) -> Fate
        requires { (a < 65536) × (extent (F.Format.meaning self.now.format.now) head ≤ 256) }
        ensures which { result ≡ by_head (F.Format.meaning self.now.format.now) self.now.plan.now heap.now.state (length heap.now.words.now) a head }
        ensures fits { Within (length heap.now.words.now) (extent (F.Format.meaning self.now.format.now) head) result }
    {
        match head {
            Head::Nothing | Head::Padding { .. } => Fate::Stay,
            Head::Forwarded { to, .. } => Fate::Gone(to),
            Head::Object(shape) => {
                self.plan
                    .by_class(heap, (a / 256) as u8, self.format.size(shape))
            }
        }
    }

    pub(crate) fn decide(&self, heap: &Heap<'_>, a: usize) -> Fate
        ensures which { result ≡ fate_of (F.Format.meaning self.now.format.now) self.now.plan.now (contents heap.now) a }
        ensures fits { Bounded (length heap.now.words.now) a result }
    {
        if !self.plan.is_sought(heap.words.len(), heap.marks, a) {
            return Fate::Stay;
        }
        self.by_thing(heap, a, self.head_at(heap, a))
    }
}
