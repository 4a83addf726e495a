// Things laid one behind the other, in any format.
use format::{Format, Shape, forward, make, pad};
use formats::{Counted, Tagged};
use std::process::Abort;
use std::test::Fail;

// What words hold before a write, so that a word that it leaves is told from one that it clears. It
// reads as nothing in either format: it says forwarded, and has unused bits set.
pub const OLD: u32 = 0xaaaa_aaaa;

// A thing of so many words, or words that are none.
#[derive(Clone, Copy)]
pub enum Thing {
    Object(usize),
    Forwarded(usize),
    Padding(usize),
    Nothing(usize),
}

impl Thing {
    fn size(self) -> usize {
        match self {
            Thing::Object(size)
            | Thing::Forwarded(size)
            | Thing::Padding(size)
            | Thing::Nothing(size) => size,
        }
    }
}

// A format under test, by the name that messages give it, and what an assertion asks for.
#[derive_where(Clone, Copy)]
pub struct Bench<'a, R, F> {
    pub rt: &'a R,
    pub name: &'a str,
    pub format: &'a F,
}

pub(crate) fn counted<R: Abort>(rt: &R) -> Bench<'_, R, Counted> {
    Bench {
        rt,
        name: "counted",
        format: &Counted,
    }
}

pub(crate) fn tagged<R: Abort>(rt: &R) -> Bench<'_, R, Tagged> {
    Bench {
        rt,
        name: "tagged",
        format: &Tagged,
    }
}

impl<R: Abort, F: Format> Bench<'_, R, F> {
    // Makes an object of numbers over the words.
    fn make_object(&self, own: &mut [u32]) -> Result<(), Fail> {
        let size = own.len();
        assert!(self.rt; 1 <= size && size <= 128);
        make(
            self.format,
            own,
            Shape {
                layout: 0,
                n: (size - 1) as u8,
            },
        )?;
        Ok(())
    }

    fn write(&self, own: &mut [u32], thing: Thing) -> Result<(), Fail> {
        match thing {
            Thing::Object(_) => self.make_object(own)?,
            Thing::Forwarded(_) => {
                self.make_object(own)?;
                forward(self.format, own, 256)?;
            }
            Thing::Padding(_) => pad(self.format, own)?,
            Thing::Nothing(_) => own.fill(OLD),
        }
        Ok(())
    }

    // Lays things one behind the other, from a place on.
    pub(crate) fn lay(&self, words: &mut [u32], from: usize, things: &[Thing]) -> Result<(), Fail> {
        let mut place = from;
        for &thing in things {
            let size = thing.size();
            assert!(self.rt; place <= words.len() && size <= words.len() - place);
            self.write(&mut words[place..place + size], thing)?;
            place += size;
        }
        Ok(())
    }
}
