// The tagged format: each slot says itself whether it is a reference or a number.
use crate::checks::Header::{IsForwarded, IsObject, IsPadding, NoThing};
use crate::checks::Write::{Make, Set};
use crate::checks::{Bench, Header, Headers, forwarded, object, padding};
use format::Head;
use format::Slot::{Number, Reference};
use formats::Tagged;
use std::test::Fail;

// Bits 30 and 31 say what a thing is. Its size begins at bit 16, and the new address of what was
// forwarded at bit 0. No layout but 0 has a place.
impl Headers for Tagged {
    fn word(header: Header) -> u32 {
        match header {
            NoThing(size) => size << 16,
            IsObject(_, size) => 1 << 30 | size << 16,
            IsForwarded(size, to) => 2 << 30 | size << 16 | to,
            IsPadding(size) => 3 << 30 | size << 16,
        }
    }
}

#[test]
fn headers(rt: HostRuntime) {
    let bench = Bench::new(&rt, &Tagged);
    bench.common_headers();
}

#[test]
fn unused_bits(rt: HostRuntime) {
    let bench = Bench::new(&rt, &Tagged);
    bench.check_unused_bits(&[
        // bits 0 to 15 and 25 to 29
        (IsObject(0, 128), object(0, 127), 0x3e00_ffff),
        // bits 25 to 29
        (IsForwarded(128, 256), forwarded(128, 256), 0x3e00_0000),
        // bits 0 to 15 and 25 to 29
        (IsPadding(128), padding(128), 0x3e00_ffff),
    ]);
}

#[test]
fn lengths(rt: HostRuntime) {
    let bench = Bench::new(&rt, &Tagged);
    bench.common_lengths();
    bench.check_lengths(&[(IsObject(0, 2), 2, object(0, 1))]);
}

#[test]
fn readings(rt: HostRuntime) {
    let bench = Bench::new(&rt, &Tagged);
    // objects of one slot and of three
    let one = Tagged::word(IsObject(0, 2));
    let three = Tagged::word(IsObject(0, 4));
    let gone = Tagged::word(IsForwarded(3, 256));
    let blank = Tagged::word(IsPadding(3));
    bench.check_readings(&[
        // a reference is at most 65,535
        (&[one, 131_070], object(0, 1), &[Reference(65_535)]),
        (&[one, 131_072], Head::Nothing, &[]),
        (&[one, 4_294_967_294], Head::Nothing, &[]),
        // a number is any odd word
        (&[one, 131_073], object(0, 1), &[Number(65_536)]),
        (
            &[one, 4_294_967_295],
            object(0, 1),
            &[Number(2_147_483_647)],
        ),
        // each slot says what it is, and is looked at
        (
            &[three, 1, 0, 3],
            object(0, 3),
            &[Number(0), Reference(0), Number(1)],
        ),
        (&[three, 1, 131_072, 3], Head::Nothing, &[]),
        // no other word is
        (&[one, 0, 131_072], object(0, 1), &[Reference(0)]),
        (&[gone, 131_072, 131_072], forwarded(3, 256), &[]),
        (&[blank, 131_072, 131_072], padding(3), &[]),
    ]);
}

#[test]
fn makes_and_pads(rt: HostRuntime) {
    let bench = Bench::new(&rt, &Tagged);
    bench.common_makes_and_pads();
    bench.check_fresh(&[
        (128, Make(0, 127), Ok(IsObject(0, 128))),
        // a layout but 0, before the length
        (4, Make(1, 3), Err(4)),
        (3, Make(1, 3), Err(4)),
        // a word too few or too many
        (3, Make(0, 3), Err(7)),
        (5, Make(0, 3), Err(7)),
    ]);
}

// An object of two slots.
const PAIR: Header = IsObject(0, 3);

#[test]
fn sets_and_forwards(rt: HostRuntime) {
    let bench = Bench::new(&rt, &Tagged);
    bench.common_sets_and_forwards(PAIR);
    let pair = Tagged::word(PAIR);
    bench.check_changes(
        [pair, 7, 8],
        &[
            (Set(0, Reference(65_535)), Ok([pair, 131_070, 8])),
            (Set(1, Number(0)), Ok([pair, 7, 1])),
            (Set(1, Number(2_147_483_647)), Ok([pair, 7, 4_294_967_295])),
            // a value that the slot may not hold
            (Set(0, Number(2_147_483_648)), Err(6)),
        ],
    );
}

#[test]
fn no_object(rt: HostRuntime) {
    let bench = Bench::new(&rt, &Tagged);
    bench.common_no_object(PAIR, 0x2000_0000);
}

#[test]
fn greatest_object(rt: HostRuntime) -> Result<(), Fail> {
    let bench = Bench::new(&rt, &Tagged);
    bench.check_greatest(11)
}
