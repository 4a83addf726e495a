// Where a collection begins: buffers, condemned segments, ambiguous words and registers.
ghost use Rattle.std.specs.Prelude.{◌≡◌, ◌+◌, ◌*◌, ◌/◌, ◌<◌, ◌≤◌, true, length};
ghost use Rattle.trace.specs.Collections.{in_set, condemned_by, moves, zone_if, all_zones, base_of, pointed_in, nail_of, nailed, nailed_by_all, rooted, all_roots};
ghost use Rattle.trace.specs.Lent.{contents, HeapStaysLent};

use crate::heap::Heap;
use crate::state::{Class, Plan, Tracer};
use arena::{Owner, Segments};
use format::{Format, Head, look};
use location::zone_set;

// Whether the owner of a segment is a pool of the set.
fn is_in_set(pools: u8, owner: Owner) -> bool
    ensures { result ≡ in_set pools owner }
{
    owner.is_some_and(|pool| pool < 8 && (pools >> pool) % 2 == 1)
}

// The segments that a set of pools condemns.
pub(crate) fn condemn(segments: &Segments, pools: u8) -> [bool; 256]
    ensures { result ≡ condemned_by segments.now pools }
{
    std::array::from_fn(|s| is_in_set(pools, segments.owner(s as u8)))
}

impl Plan {
    // Whether the owner of a segment moves objects.
    fn is_moving(&self, owner: Owner) -> bool
        ensures { result ≡ moves self.now.classes owner }
    {
        self.class_of(owner) == Some(Class::Amc)
    }

    // The zone of a segment, if it is condemned and its objects may move.
    fn condemned_zone(&self, segments: &Segments, segment: u8) -> u32
        ensures { result ≡ zone_if self.now segments.now segment }
    {
        if self.condemned[segment as usize] && self.is_moving(segments.owner(segment)) {
            zone_set(segment as u32 * 256)
        } else {
            0
        }
    }

    #[tactic(auto, using(crate::proofs::Loops::next_zone))]
    pub(crate) fn condemned_zones(&self, segments: &Segments) -> u32
        ensures { result ≡ all_zones self.now segments.now }
    {
        // A loop, since of a fold the check does not know what its closure did at each segment.
        let mut zones = 0;
        for s in 0..256usize {
            zones |= self.condemned_zone(segments, s as u8);
        }
        zones
    }
}

fn object_base(head: Head, at: usize) -> Option<usize>
    ensures { result ≡ base_of head at }
{
    matches!(head, Head::Object(_)).then_some(at)
}

impl<F: Format> Tracer<'_, F> {
    // The base of the object of a row into which a word points.
    fn pointed_object(
        &self,
        heap: &Heap<'_>,
        base: usize,
        limit: usize,
        word: usize,
    ) -> Option<usize>
        requires { (base ≤ limit) × (limit ≤ length heap.now.words.now) }
        ensures { result ≡ pointed_in (F.Format.meaning self.now.format.now) heap.now.words.now heap.now.marks.now base limit word }
    {
        // By a cursor: an iterator would serve this walk alone, since the other two write what they go over.
        let mut at = base;
        while at < limit {
            let end = self.end_at(heap, at, limit);
            if word < end {
                return object_base(look(self.format, &heap.words[at..limit]), at);
            }
            at = end;
        }
        None
    }

    // The base of the object of a condemned segment into which an ambiguous word points.
    fn nailed_object(&self, heap: &Heap<'_>, word: usize) -> Option<usize>
        ensures { result ≡ nail_of (F.Format.meaning self.now.format.now) self.now.plan.now (contents heap.now) word }
    {
        if !self.plan.is_condemned(heap.words.len(), word) {
            return None;
        }
        let base = word / 256 * 256;
        self.pointed_object(heap, base, base + 256, word)
    }

    // Marks the object into which a word points, and makes it grey.
    fn nail(&self, heap: &mut Heap<'_>, word: u32)
        ensures after { contents heap.new ≡ nailed (F.Format.meaning self.now.format.now) self.now.plan.now (contents heap.old) word }
        ensures lent { HeapStaysLent heap.old heap.new }
    {
        if let Some(a) = self.nailed_object(heap, word as usize) {
            heap.mark(a);
            heap.grey(a);
        }
    }

    // Nails what the ambiguous words point into.
    #[tactic(auto, using(crate::proofs::Loops::next_nail), unfolding(crate::specs::Collections::nailed_by_all))]
    pub(crate) fn nail_all(&self, heap: &mut Heap<'_>, ambiguous: &[u32; 8])
        ensures after { contents heap.new ≡ nailed_by_all (F.Format.meaning self.now.format.now) self.now.plan.now ambiguous.now (contents heap.old) }
        ensures lent { HeapStaysLent heap.old heap.new }
    {
        for word in ambiguous {
            self.nail(heap, *word);
        }
    }

    // Fixes the registers, ascending.
    #[tactic(auto, using(crate::proofs::Loops::next_root), unfolding(crate::specs::Collections::all_roots))]
    pub(crate) fn fix_registers(&self, heap: &mut Heap<'_>, registers: &mut [u32; 16])
        ensures after { rooted registers.new (contents heap.new) ≡ all_roots (F.Format.meaning self.now.format.now) self.now.plan.now (rooted registers.old (contents heap.old)) }
        ensures lent { HeapStaysLent heap.old heap.new }
    {
        for register in registers.iter_mut() {
            *register = self.fix(heap, *register);
        }
    }
}
