// What a trace works on, besides the words and the boards.
ghost use Rattle.std.specs.Prelude.{◌≡◌, ◌+◌, ◌*◌, ◌/◌, ◌<◌, ◌≤◌, true};
ghost use Rattle.trace.specs.Collections.{class_in, class_of_owner, nails};
ghost use Rattle.trace.specs.Collect.{new_arena, untraced};

use arena::{Buffer, Owner, Segments};
use location::History;

// The class of a pool: AMC moves objects, AMS marks them in place, LO marks objects without references.
#[derive(Clone, Copy, PartialEq, Eq, Debug)]
pub enum Class {
    Amc,
    Ams,
    Lo,
}

// What a collection does not change: the condemned segments, and the classes of the pools. They stand
// beside the owners and the targets, which change, in tables of their own, since memory is fixed.
#[derive(Clone, Copy)]
pub struct Plan {
    pub condemned: [bool; 256],
    pub classes: [Class; 8],
}

// A trace of every object format: its format, and the plan that it keeps to.
#[derive_where(Clone, Copy)]
pub struct Tracer<'a, F> {
    pub format: &'a F,
    pub plan: &'a Plan,
}

// What it does change: the owners of segments; where each pool's target segment has its next word, 0
// where there is none (a full target has no words left either, so an Option would only be asked twice);
// how many objects have moved; and an address below which nothing is grey.
#[derive(Clone, Copy)]
pub struct Trace {
    pub segments: Segments,
    pub targets: [u32; 8],
    pub moved: u32,
    pub low: usize,
}

impl Plan {
    // The class of a pool, if there is such a pool.
    pub(crate) fn class(&self, pool: u8) -> Option<Class>
        ensures { result ≡ class_in self.now.classes pool }
    {
        self.classes.get(pool as usize).copied()
    }

    // The class of the pool that a segment belongs to.
    pub(crate) fn class_of(&self, owner: Owner) -> Option<Class>
        ensures { result ≡ class_of_owner self.now.classes owner }
    {
        owner.and_then(|pool| self.class(pool))
    }

    // Whether an address lies in a condemned segment of the arena.
    pub(crate) fn is_condemned(&self, len: usize, a: usize) -> bool
        ensures which { result ≡ nails self.now len a }
        ensures fits { result ≡ true → (a < 65536) × (a / 256 * 256 + 256 ≤ len) }
    {
        (256..=65535).contains(&a) && a / 256 * 256 + 256 <= len && self.condemned[a / 256]
    }
}

impl Trace {
    // Nothing is traced yet.
    pub fn new(segments: Segments) -> Trace
        ensures { result ≡ untraced segments }
    {
        Trace {
            segments,
            targets: [0; 8],
            moved: 0,
            low: 0,
        }
    }
}

// What a collection works on, besides the words and the boards: the owners of segments, the buffers of
// allocation points, the classes of the pools, the history of zones, and the roots. Registers are exact
// roots, which follow their objects; an ambiguous word stays, and so does what it points into.
#[derive(Clone, Copy, PartialEq, Eq, Debug)]
pub struct Arena {
    pub segments: Segments,
    pub buffers: [Buffer; 8],
    pub classes: [Class; 8],
    pub history: History,
    pub registers: [u32; 16],
    pub ambiguous: [u32; 8],
}

impl Arena {
    // Every segment is free, there are no buffers, and the roots lead nowhere.
    pub fn new(classes: [Class; 8]) -> Arena
        ensures { result ≡ new_arena classes }
    {
        Arena {
            segments: Segments::new(),
            buffers: [Buffer::default(); 8],
            classes,
            history: History::new(),
            registers: [0; 16],
            ambiguous: [0; 8],
        }
    }
}
