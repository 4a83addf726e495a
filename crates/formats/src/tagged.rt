// The tagged format: each slot says itself whether it is a reference or a number.
ghost use Rattle.std.specs.Prelude.{refl};
ghost use Rattle.formats.specs.Tagged.{tagged_coding};
ghost use Rattle.formats.specs.Tags.{tagged_lawful};

use format::codings::WordCoding;
use format::{Head, Kind, Shape, Slot};

#[derive(Clone, Copy)]
pub struct Tagged;

impl WordCoding for Tagged {
    const GREATEST_NUMBER: u32 = 2_147_483_647;

    ghost GREATEST_NUMBER = { 2147483647 };

    ghost coding = { tagged_coding };

    ghost greatest = { refl };

    ghost lawful = { tagged_lawful };

    fn admits(shape: Shape) -> bool {
        shape.layout == 0 && shape.n <= 127
    }

    fn kind(_shape: Shape, _i: u8) -> Kind {
        Kind::Both
    }

    fn head_of(word: u32) -> Head {
        let size = word / 65_536 % 512;
        let low = word % 65_536;
        if word / 0x200_0000 % 32 != 0 {
            return Head::Nothing;
        }
        match word / 0x4000_0000 {
            1 if (1..=128).contains(&size) && low == 0 => Head::Object(Shape {
                layout: 0,
                n: (size - 1) as u8,
            }),
            2 => Head::Forwarded {
                size: size as usize,
                to: low,
            },
            3 if low == 0 => Head::Padding {
                size: size as usize,
            },
            _ => Head::Nothing,
        }
    }

    fn object_header(shape: Shape) -> u32 {
        0x4000_0000 + 65_536 * (shape.n as u32 + 1)
    }

    fn forwarded_header(size: usize, to: u32) -> u32 {
        let size = (size % 512) as u32;
        0x8000_0000 + 65_536 * size + to % 65_536
    }

    fn padding_header(size: usize) -> u32 {
        let size = (size % 512) as u32;
        0xc000_0000 + 65_536 * size
    }

    fn slot_of(_shape: Shape, _i: u8, word: u32) -> Slot {
        if word % 2 == 0 {
            Slot::Reference(word / 2)
        } else {
            Slot::Number(word / 2)
        }
    }

    fn word_of(value: Slot) -> u32 {
        match value {
            Slot::Reference(address) => 2 * (address % 0x8000_0000),
            Slot::Number(number) => 2 * (number % 0x8000_0000) + 1,
        }
    }
}
