// Formats of a header word and a word for each slot after it: a coding of single words is a format.
ghost use Rattle.std.specs.Prelude.{◌≡◌, ℕ};
ghost use Rattle.format.specs.Words.{Coding, coded};
ghost use Rattle.format.specs.Laws.{Lawful};

use crate::things::{Format, Head, Kind, Shape, Slot};
use crate::words::{put_word, stamp, word_at};

// How such a format codes single words. A header is word 0, and slot i is word i + 1.
pub trait WordCoding {
    const GREATEST_NUMBER: u32;

    ghost GREATEST_NUMBER: { ℕ };

    ghost coding: { Coding };

    // Whether there are objects of this shape.
    fn admits(shape: Shape) -> bool
        ensures { result ≡ coding.admits shape };

    // What slot i of such an object may hold.
    fn kind(shape: Shape, i: u8) -> Kind
        ensures { result ≡ coding.kind shape i };

    // What a header says.
    fn head_of(word: u32) -> Head
        ensures { result ≡ coding.head_of word };

    // The header of an object of this shape.
    fn object_header(shape: Shape) -> u32
        ensures { result ≡ coding.object_header shape };

    // The header of a thing of this size that was forwarded.
    fn forwarded_header(size: usize, to: u32) -> u32
        ensures { result ≡ coding.forwarded_header size to };

    // The header of a padding of this size.
    fn padding_header(size: usize) -> u32
        ensures { result ≡ coding.padding_header size };

    // What the word of slot i says.
    fn slot_of(shape: Shape, i: u8, word: u32) -> Slot
        ensures { result ≡ coding.slot_of shape i word };

    // The word of a value.
    fn word_of(value: Slot) -> u32
        ensures { result ≡ coding.word_of value };

    ghost greatest: { GREATEST_NUMBER ≡ coding.greatest_number };

    // So it is where the coding reads back what it writes (`coded_lawful` in proofs/Coded.antt).
    ghost lawful: { Lawful (coded coding) };
}

impl<C: WordCoding> Format for C {
    const GREATEST_NUMBER: u32 = C::GREATEST_NUMBER;

    const GREATEST_ADDRESS: u32 = 65_535;

    ghost GREATEST_NUMBER = { C.GREATEST_NUMBER };

    ghost GREATEST_ADDRESS = { 65535 };

    ghost meaning = { λ _. coded C.coding };

    ghost lawful = { λ _. C.lawful };

    fn number_limit(&self) -> u32 {
        C::GREATEST_NUMBER
    }

    fn address_limit(&self) -> u32 {
        Self::GREATEST_ADDRESS
    }

    fn admits(&self, shape: Shape) -> bool {
        C::admits(shape)
    }

    fn size(&self, shape: Shape) -> usize {
        shape.n as usize + 1
    }

    fn kind(&self, shape: Shape, i: u8) -> Kind {
        C::kind(shape, i)
    }

    fn head(&self, words: &[u32]) -> Head {
        C::head_of(word_at(words, 0))
    }

    fn slot(&self, words: &[u32], shape: Shape, i: u8) -> Slot {
        C::slot_of(shape, i, word_at(words, i as usize + 1))
    }

    fn write_object(&self, own: &mut [u32], shape: Shape) {
        stamp(own, C::object_header(shape));
    }

    fn write_slot(&self, own: &mut [u32], _shape: Shape, i: u8, value: Slot) {
        put_word(own, i as usize + 1, C::word_of(value));
    }

    fn write_forward(&self, own: &mut [u32], to: u32) {
        put_word(own, 0, C::forwarded_header(own.len(), to));
    }

    fn write_padding(&self, own: &mut [u32]) {
        stamp(own, C::padding_header(own.len()));
    }
}
