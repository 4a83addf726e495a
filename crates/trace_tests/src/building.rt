// How a store of a test is built, collected and looked at.
use arena::pad_part;
use format::{Format, Head, Refusal, Shape, Slot, extent, look, make, read, set_slot};
use std::process::Abort;
use std::test::Fail;
use trace::{Arena, Class, Memory};

// Pools 0 and 1 are AMC, pool 2 is AMS and pool 3 is LO.
const CLASSES: [Class; 8] = [
    Class::Amc,
    Class::Amc,
    Class::Ams,
    Class::Lo,
    Class::Amc,
    Class::Amc,
    Class::Amc,
    Class::Amc,
];

// An arena under test and its words, with their format and what an assertion asks for.
#[derive_where(Clone, Copy)]
pub struct Store<'a, R, F, const N: usize> {
    pub rt: &'a R,
    pub format: &'a F,
    pub arena: Arena,
    pub words: [u32; N],
}

// Runs a check on a new store of each format: a macro, since no closure is generic over the format.
macro_rules! in_each_format {
    ($rt:expr, $check:path) => {{
        $check($crate::building::Store::new($rt, &formats::Counted))?;
        $check($crate::building::Store::new($rt, &formats::Tagged))
    }};
}

pub(crate) use in_each_format;

pub(crate) fn padding(size: usize) -> Head {
    Head::Padding { size }
}

// Every word is the same.
pub(crate) fn check_all(rt: &impl Abort, name: &str, words: &[u32], all: u32) {
    for &word in words {
        assert_eq!(rt; word, all, "{name}");
    }
}

impl<'a, R: Abort, F: Format, const N: usize> Store<'a, R, F, N> {
    // ---- building

    // Every segment is free, and every word is 0.
    pub(crate) fn new(rt: &'a R, format: &'a F) -> Store<'a, R, F, N> {
        Store {
            rt,
            format,
            arena: Arena::new(CLASSES),
            words: [0; N],
        }
    }

    // The shape of an object whose first slots may hold references and whose other slots numbers.
    fn shape(&self, references: u8, n: u8) -> Shape {
        let counted = Shape {
            layout: references,
            n,
        };
        if self.format.admits(counted) {
            counted
        } else {
            Shape { layout: 0, n }
        }
    }

    // Makes an object of so many words. Its first slots hold references; its last slot, if there is
    // one more, the number of its address.
    pub(crate) fn put(
        &mut self,
        address: u32,
        size: usize,
        references: &[u32],
    ) -> Result<(), Fail> {
        let at = address as usize;
        assert!(self.rt; size <= 128 && references.len() < size);
        assert!(self.rt; at + size <= N);
        let shape = self.shape(references.len() as u8, (size - 1) as u8);
        // First a slice of all: the check lends no part of an array of `N` words.
        let words = &mut self.words[..];
        let own = &mut words[at..at + size];
        make(self.format, own, shape)?;
        for (i, &to) in (0..127u8).zip(references) {
            set_slot(self.format, own, i, Slot::Reference(to))?;
        }
        if references.len() + 1 < size {
            set_slot(self.format, own, (size - 2) as u8, Slot::Number(address))?;
        }
        Ok(())
    }

    // Makes objects without references, each of an address and so many words, in registers 0, 1 and
    // so on.
    pub(crate) fn put_in_registers(&mut self, objects: &[(u32, usize)]) -> Result<(), Fail> {
        for &(address, size) in objects {
            self.put(address, size, &[])?;
        }
        for (register, &(address, _)) in self.arena.registers.iter_mut().zip(objects) {
            *register = address;
        }
        Ok(())
    }

    // Gives a segment to a pool, and pads it behind its first words.
    pub(crate) fn give(&mut self, segment: u8, pool: u8, used: usize) {
        let base = segment as usize * 256;
        self.arena.segments.give(segment, pool);
        pad_part(
            self.format,
            &mut self.words,
            base + used.min(256),
            base + 256,
        );
    }

    // ---- collecting

    // Collects over the first words alone.
    pub(crate) fn collect_part(
        &mut self,
        len: usize,
        marks: &mut [u32],
        greys: &mut [u32],
        pools: u8,
    ) -> Result<u32, Refusal> {
        assert!(self.rt; len <= N);
        let memory = &mut Memory {
            words: &mut self.words[..len],
            marks,
            greys,
        };
        self.arena.collect(self.format, memory, pools)
    }

    // Collects over boards that hold one word, and looks that they are clear then.
    pub(crate) fn collect_over(&mut self, stray: u32, pools: u8) -> Result<u32, Refusal> {
        let n = N / 32;
        assert!(self.rt; n <= 64);
        let mut marks = [stray; 64];
        let mut greys = [stray; 64];
        let value = self.collect_part(N, &mut marks[..n], &mut greys[..n], pools)?;
        check_all(self.rt, "marks", &marks[..n], 0);
        check_all(self.rt, "greys", &greys[..n], 0);
        Ok(value)
    }

    // What a collection over clear boards answers.
    pub(crate) fn check_collection(&mut self, pools: u8, value: u32) {
        assert_eq!(self.rt; self.collect_over(0, pools), Ok(value));
    }

    // ---- looking

    pub(crate) fn object(&self, references: u8, n: u8) -> Head {
        Head::Object(self.shape(references, n))
    }

    // What the first registers hold.
    pub(crate) fn check_registers(&self, registers: &[u32]) {
        assert!(self.rt; registers.len() <= 16);
        assert_eq!(self.rt; &self.arena.registers[..registers.len()], registers);
    }

    // The pool that a segment belongs to, if it is not free.
    pub(crate) fn check_owner(&self, segment: u8, owner: Option<u8>) {
        assert_eq!(self.rt;
            self.arena.segments.owner(segment),
            owner,
            "segment {segment}"
        );
    }

    // The words of a segment.
    fn segment(&self, segment: u8) -> &[u32] {
        let base = segment as usize * 256;
        assert!(self.rt; base + 256 <= N);
        // As in `put`, first a slice of all.
        let words = &self.words[..];
        &words[base..base + 256]
    }

    // A segment is free, and all its words are 0.
    pub(crate) fn check_free(&self, segment: u8) {
        self.check_owner(segment, None);
        check_all(self.rt, "free words", self.segment(segment), 0);
    }

    // What stands in a segment, to its end.
    pub(crate) fn check_row(&self, segment: u8, row: &[Head]) {
        let mut rest = self.segment(segment);
        for &head in row {
            let left = rest.len();
            assert_eq!(self.rt;
                read(self.format, rest),
                head,
                "{left} words before the end"
            );
            let size = extent(self.format, head);
            assert!(self.rt; size <= left);
            rest = &rest[size..];
        }
        assert!(self.rt; rest.is_empty());
    }

    // Slot i of the object at an address, if there is one.
    fn slot(&self, address: u32, i: u8) -> Option<Slot> {
        let words = self.words.get(address as usize..)?;
        match look(self.format, words) {
            Head::Object(shape) => Some(self.format.slot(words, shape, i)),
            _ => None,
        }
    }

    pub(crate) fn check_slot(&self, address: u32, i: u8, slot: Slot) {
        assert_eq!(self.rt; self.slot(address, i), Some(slot), "slot {i} at {address}");
    }
}
