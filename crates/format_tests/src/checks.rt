// How the rows of a table are tried in any format.
use format::{
    Format, Head, Refusal, Shape, Slot, extent, forward, look, make, pad, read, set_slot,
};
use std::process::Abort;
use std::test::Fail;

// What words hold before a write, so that a word that it leaves is told from one that it clears.
const OLD: u32 = 0xaaaa_aaaa;

// ---- heads

pub(crate) fn object(layout: u8, n: u8) -> Head {
    Head::Object(Shape { layout, n })
}

pub(crate) fn forwarded(size: usize, to: u32) -> Head {
    Head::Forwarded { size, to }
}

pub(crate) fn padding(size: usize) -> Head {
    Head::Padding { size }
}

// A header, by what it is of: no thing of a size, an object's layout and size, a forwarded thing's
// size and new address, a padding's size.
#[derive(Clone, Copy)]
pub enum Header {
    NoThing(u32),
    IsObject(u32, u32),
    IsForwarded(u32, u32),
    IsPadding(u32),
}

// The word of a header, worked out here apart from the format's code.
pub trait Headers: Format {
    fn word(header: Header) -> u32;
}

// What is written over a thing's own words: an object of a layout and a number of slots, a slot's
// value, a new address, a padding.
#[derive(Clone, Copy)]
pub enum Write {
    Make(u8, u8),
    Set(u8, Slot),
    Forward(u32),
    Pad,
}

// A format under test, and what an assertion asks for.
#[derive_where(Clone, Copy)]
pub struct Bench<'a, R, F> {
    pub rt: &'a R,
    pub format: &'a F,
}

impl<'a, R: Abort, F: Headers> Bench<'a, R, F> {
    pub(crate) fn new(rt: &'a R, format: &'a F) -> Bench<'a, R, F> {
        Bench { rt, format }
    }

    fn look_at(&self, header: u32) -> Head {
        let mut words = [0; 511];
        words[0] = header;
        look(self.format, &words)
    }

    // Each row is a header, and what it says with 510 zeros after it.
    pub(crate) fn check_headers(&self, rows: &[(Header, Head)]) {
        for &(header, head) in rows {
            let word = F::word(header);
            assert_eq!(self.rt; self.look_at(word), head, "header {word:#x}");
        }
    }

    // Each row is a header, what it says, and its unused bits, any of which makes it say nothing.
    pub(crate) fn check_unused_bits(&self, rows: &[(Header, Head, u32)]) {
        for &(header, head, unused) in rows {
            let header = F::word(header);
            assert_eq!(self.rt; self.look_at(header), head, "header {header:#x}");
            for mask in (0..32u32)
                .map(|bit| 1 << bit)
                .filter(|mask| unused & *mask != 0)
            {
                let word = header | mask;
                assert_eq!(self.rt; self.look_at(word), Head::Nothing, "header {word:#x}");
            }
        }
    }

    // Each row is the header of a thing of so many words, the others 0. It reads so from as many words
    // and from one more, and as nothing from one less.
    pub(crate) fn check_lengths(&self, rows: &[(Header, usize, Head)]) {
        for &(header, size, head) in rows {
            assert!(self.rt; 1 <= size && size <= 256);
            let mut words = [0; 257];
            words[0] = F::word(header);
            assert_eq!(self.rt; extent(self.format, head), size);
            assert_eq!(self.rt;
                read(self.format, &words[0..size - 1]),
                Head::Nothing,
                "a word short"
            );
            assert_eq!(self.rt; read(self.format, &words[0..size]), head, "exactly as long");
            assert_eq!(self.rt; read(self.format, &words[0..size + 1]), head, "a word more");
        }
    }

    // ---- slots

    // Each row is words, what they read as, and the slots of that.
    pub(crate) fn check_readings(&self, rows: &[(&[u32], Head, &[Slot])]) {
        for (k, &(words, head, slots)) in rows.iter().enumerate() {
            assert_eq!(self.rt; read(self.format, words), head, "row {k}");
            if let Head::Object(shape) = head {
                assert_eq!(self.rt; slots.len(), shape.n as usize, "row {k}");
                for (i, slot) in (0..shape.n).zip(slots.iter()) {
                    assert_eq!(self.rt; self.format.slot(words, shape, i), *slot, "row {k}");
                }
            }
        }
    }

    // ---- writes

    // Performs the write, and gives the number by which it is refused.
    fn perform(&self, own: &mut [u32], write: Write) -> Result<(), u8> {
        let answer = match write {
            Write::Make(layout, n) => make(self.format, own, Shape { layout, n }),
            Write::Set(i, value) => set_slot(self.format, own, i, value),
            Write::Forward(to) => forward(self.format, own, to),
            Write::Pad => pad(self.format, own),
        };
        answer.map_err(Refusal::number)
    }

    // Each row is how many words there are, what is written over them, and the header that they then
    // have, with 0 in every other word; or the number by which it is refused, and then they stay.
    pub(crate) fn check_fresh(&self, rows: &[(usize, Write, Result<Header, u8>)]) {
        for (k, &(len, write, answer)) in rows.iter().enumerate() {
            assert!(self.rt; len <= 260);
            let mut words = [OLD; 260];
            let mut expected = [OLD; 260];
            let own = &mut words[0..len];
            let after = &mut expected[0..len];
            if let Ok(header) = answer {
                assert!(self.rt; 0 < len);
                after.fill(0);
                after[0] = F::word(header);
            }
            assert_eq!(self.rt; self.perform(own, write), answer.map(|_| ()), "row {k}");
            assert_eq!(self.rt; &*own, &*after, "row {k}");
        }
    }

    // Each row is what is written over an object's words, and the words after; or the number by which
    // it is refused, and then they stay.
    pub(crate) fn check_changes<const N: usize>(
        &self,
        before: [u32; N],
        rows: &[(Write, Result<[u32; N], u8>)],
    ) {
        for (k, &(write, answer)) in rows.iter().enumerate() {
            let (after, done) = match answer {
                Ok(after) => (after, Ok(())),
                Err(number) => (before, Err(number)),
            };
            let mut own = before;
            assert_eq!(self.rt; self.perform(&mut own, write), done, "row {k}");
            assert_eq!(self.rt; &own[..], &after[..], "row {k}");
        }
    }

    // Words that are not one object's, no word more or less, are neither set nor forwarded, whatever
    // the slot, the value or the address.
    pub(crate) fn check_no_object(&self, rows: &[&[u32]]) {
        let writes = [
            Write::Set(0, Slot::Reference(0)),
            Write::Set(255, Slot::Reference(65_536)),
            Write::Forward(256),
            Write::Forward(255),
        ];
        for (k, &before) in rows.iter().enumerate() {
            assert!(self.rt; before.len() <= 4);
            for write in writes {
                let mut words = [OLD; 4];
                let own = &mut words[0..before.len()];
                own.copy_from_slice(before);
                assert_eq!(self.rt; self.perform(own, write), Err(7), "row {k}");
                assert_eq!(self.rt; &*own, before, "row {k}");
            }
        }
    }

    // The object of 127 slots, with the word of the number 5, and its header once it has been
    // forwarded to 65,535.
    pub(crate) fn check_greatest(&self, five: u32) -> Result<(), Fail> {
        let mut own = [OLD; 128];
        let mut after = [0; 128];
        make(self.format, &mut own, Shape { layout: 0, n: 127 })?;
        after[0] = F::word(Header::IsObject(0, 128));
        assert_eq!(self.rt; &own[..], &after[..], "made");
        set_slot(self.format, &mut own, 126, Slot::Number(5))?;
        after[127] = five;
        assert_eq!(self.rt; &own[..], &after[..], "its last slot set");
        assert_eq!(self.rt;
            self.perform(&mut own, Write::Set(127, Slot::Number(5))),
            Err(5)
        );
        assert_eq!(self.rt; &own[..], &after[..], "a slot past the last not set");
        forward(self.format, &mut own, 65_535)?;
        after[0] = F::word(Header::IsForwarded(128, 65_535));
        assert_eq!(self.rt; &own[..], &after[..], "forwarded");
        Ok(())
    }
}
