// Wrong lengths are refused with nothing changed; over damaged memory a collection ends.
use crate::building::{Store, check_all, in_each_format};
use arena::Buffer;
use format::{Format, Refusal};
use formats::{Counted, Tagged};
use std::process::Abort;
use std::test::Fail;

// How many words there are, how many of the mark board, and how many of the grey board.
type Lengths = (usize, usize, usize);

impl<R: Abort, F: Format> Store<'_, R, F, 1280> {
    // Segment 1 is a pool's, and register 0 leads to it. A collection of every pool is refused by a
    // number, and neither the arena nor a word has changed.
    fn check_refused(&mut self, lengths: Lengths, number: u8) {
        let (len, m, g) = lengths;
        assert!(self.rt; len <= 1280 && m <= 64 && g <= 64);
        self.words.fill(7);
        let mut marks = [5; 64];
        let mut greys = [3; 64];
        self.arena.segments.give(1, 0);
        self.arena.registers[0] = 256;
        let before = self.arena;
        let answer = self.collect_part(len, &mut marks[..m], &mut greys[..g], 255);
        assert_eq!(self.rt; answer.map_err(Refusal::number), Err(number), "{lengths:?}");
        check_all(self.rt, "words", &self.words, 7);
        check_all(self.rt, "marks", &marks, 5);
        check_all(self.rt, "greys", &greys, 3);
        assert_eq!(self.rt; self.arena, before, "{lengths:?}");
        self.check_owner(1, Some(0));
        self.check_registers(&[256]);
    }

    // All of memory holds one word, and so does each board; a pool of each class has a segment.
    fn check_damaged(mut self, word: u32, stray: u32) {
        self.words.fill(word);
        let arena = &mut self.arena;
        arena.segments.give(1, 0);
        arena.segments.give(2, 2);
        arena.segments.give(3, 3);
        arena.registers = [
            256, 257, 300, 511, 512, 600, 768, 900, 1024, 1279, 1280, 65_535, 65_536, 255, 1, word,
        ];
        arena.ambiguous = [256, 400, 511, 512, 768, 1023, 1280, word];
        assert_eq!(self.rt;
            self.collect_over(stray, 255).err(),
            None,
            "word {word:#x}, boards {stray:#x}"
        );
    }
}

const WRONG: [Lengths; 8] = [
    (0, 0, 0),
    (768, 24, 24),
    (1023, 31, 31),
    (1023, 32, 32),
    (1025, 32, 32),
    (1280, 32, 32),
    (1024, 31, 32),
    (1024, 32, 33),
];

fn check_wrong_lengths(store: Store<impl Abort, impl Format, 1280>) -> Result<(), Fail> {
    assert_eq!(store.rt; store.arena.history.epoch(), 0);
    for lengths in WRONG {
        let mut store = store;
        store.check_refused(lengths, 7);
    }
    Ok(())
}

fn check_all_damaged(store: Store<impl Abort, impl Format, 1280>, rows: &[u32]) {
    for &word in rows {
        for stray in [0, 0x8000_0401, 0xffff_ffff] {
            store.check_damaged(word, stray);
        }
    }
}

// After 1,000,000 ageings there is no collection; wrong lengths are told first.
fn check_spent(mut store: Store<impl Abort, impl Format, 1280>) -> Result<(), Fail> {
    for _ in 0..1_000_000 {
        store.arena.history.age(0)?;
    }
    store.arena.buffers[0] = Buffer {
        init: 300,
        limit: 512,
    };
    store.check_refused((1024, 32, 32), 30);
    store.check_refused((1024, 31, 32), 7);
    Ok(())
}

#[test]
fn no_collection_is_left(rt: HostRuntime) -> Result<(), Fail> {
    in_each_format!(&rt, check_spent)
}

#[test]
fn wrong_lengths(rt: HostRuntime) -> Result<(), Fail> {
    in_each_format!(&rt, check_wrong_lengths)
}

// No thing, an object of one word, an object of three with references, a forwarding, a padding.
#[test]
fn damaged_memory_counted(rt: HostRuntime) {
    check_all_damaged(
        Store::new(&rt, &Counted),
        &[
            0,
            0xffff_ffff,
            0xdead_beef,
            1 + 4,
            1 + 4 * 3 + 2048 * 2,
            2 + 4 * 3 + 65_536 * 512,
            3 + 4 * 2,
        ],
    );
}

#[test]
fn damaged_memory_tagged(rt: HostRuntime) {
    check_all_damaged(
        Store::new(&rt, &Tagged),
        &[
            0,
            0xffff_ffff,
            0xdead_beef,
            0x4000_0000 + 65_536,
            0x4000_0000 + 65_536 * 3,
            0x8000_0000 + 65_536 * 3 + 512,
            0xc000_0000 + 65_536 * 2,
        ],
    );
}
