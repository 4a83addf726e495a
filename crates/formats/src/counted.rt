// The counted format: the layout counts the references, which come before the numbers.
ghost use Rattle.std.specs.Prelude.{refl};
ghost use Rattle.formats.specs.Counted.{counted_coding};
ghost use Rattle.formats.specs.Counts.{counted_lawful};

use format::codings::WordCoding;
use format::{Head, Kind, Shape, Slot};

#[derive(Clone, Copy)]
pub struct Counted;

impl WordCoding for Counted {
    const GREATEST_NUMBER: u32 = 4_294_967_295;

    ghost GREATEST_NUMBER = { 4294967295 };

    ghost coding = { counted_coding };

    ghost greatest = { refl };

    ghost lawful = { counted_lawful };

    fn admits(shape: Shape) -> bool {
        shape.layout <= shape.n && shape.n <= 127
    }

    fn kind(shape: Shape, i: u8) -> Kind {
        if i < shape.layout {
            Kind::References
        } else {
            Kind::Numbers
        }
    }

    fn head_of(word: u32) -> Head {
        let size = word / 4 % 512;
        match word % 4 {
            1 if (1..=128).contains(&size) && word / 2048 < 128 => {
                Head::Object(Shape {
                    layout: (word / 2048) as u8,
                    n: (size - 1) as u8,
                })
            }
            2 if word / 2048 % 32 == 0 => Head::Forwarded {
                size: size as usize,
                to: word / 65_536,
            },
            3 if word / 2048 == 0 => Head::Padding {
                size: size as usize,
            },
            _ => Head::Nothing,
        }
    }

    fn object_header(shape: Shape) -> u32 {
        1 + 4 * (shape.n as u32 + 1) + 2048 * shape.layout as u32
    }

    fn forwarded_header(size: usize, to: u32) -> u32 {
        let size = (size % 512) as u32;
        2 + 4 * size + 65_536 * (to % 65_536)
    }

    fn padding_header(size: usize) -> u32 {
        let size = (size % 512) as u32;
        3 + 4 * size
    }

    fn slot_of(shape: Shape, i: u8, word: u32) -> Slot {
        if i < shape.layout {
            Slot::Reference(word)
        } else {
            Slot::Number(word)
        }
    }

    fn word_of(value: Slot) -> u32 {
        match value {
            Slot::Reference(address) => address,
            Slot::Number(number) => number,
        }
    }
}
