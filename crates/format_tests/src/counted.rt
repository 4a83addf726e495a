// The counted format: the layout counts the references, which come before the numbers.
use crate::checks::Header::{IsForwarded, IsObject, IsPadding, NoThing};
use crate::checks::Write::{Make, Set};
use crate::checks::{Bench, Header, Headers, forwarded, object, padding};
use format::Head;
use format::Slot::{Number, Reference};
use formats::Counted;
use std::test::Fail;

// Bits 0 and 1 say what a thing is. Its size begins at bit 2, an object's layout at bit 11, and the
// new address of what was forwarded at bit 16.
impl Headers for Counted {
    fn word(header: Header) -> u32 {
        match header {
            NoThing(size) => size << 2,
            IsObject(layout, size) => 1 | size << 2 | layout << 11,
            IsForwarded(size, to) => 2 | size << 2 | to << 16,
            IsPadding(size) => 3 | size << 2,
        }
    }
}

#[test]
fn headers(rt: HostRuntime) {
    let bench = Bench::new(&rt, &Counted);
    bench.common_headers();
    bench.check_headers(&[
        // an object's layout is at most the number of its slots
        (IsObject(1, 1), Head::Nothing),
        (IsObject(2, 3), object(2, 2)),
        (IsObject(3, 3), Head::Nothing),
        (IsObject(126, 127), object(126, 126)),
        (IsObject(127, 127), Head::Nothing),
        (IsObject(127, 128), object(127, 127)),
        (IsObject(128, 128), Head::Nothing),
    ]);
}

#[test]
fn unused_bits(rt: HostRuntime) {
    let bench = Bench::new(&rt, &Counted);
    bench.check_unused_bits(&[
        // bits 18 to 31
        (IsObject(127, 128), object(127, 127), 0xfffc_0000),
        // bits 11 to 15
        (IsForwarded(128, 256), forwarded(128, 256), 0x0000_f800),
        // bits 11 to 31
        (IsPadding(128), padding(128), 0xffff_f800),
    ]);
}

#[test]
fn lengths(rt: HostRuntime) {
    let bench = Bench::new(&rt, &Counted);
    bench.common_lengths();
    bench.check_lengths(&[(IsObject(1, 2), 2, object(1, 1))]);
}

#[test]
fn readings(rt: HostRuntime) {
    let bench = Bench::new(&rt, &Counted);
    // an object of a reference, one of a number, and one of two references and a number
    let refers = Counted::word(IsObject(1, 2));
    let counts = Counted::word(IsObject(0, 2));
    let three = Counted::word(IsObject(2, 4));
    let gone = Counted::word(IsForwarded(3, 256));
    let blank = Counted::word(IsPadding(3));
    bench.check_readings(&[
        // a reference is at most 65,535
        (&[refers, 65_535], object(1, 1), &[Reference(65_535)]),
        (&[refers, 65_536], Head::Nothing, &[]),
        (&[refers, 4_294_967_295], Head::Nothing, &[]),
        // a number is any word
        (
            &[counts, 2_147_483_647],
            object(0, 1),
            &[Number(2_147_483_647)],
        ),
        (
            &[counts, 4_294_967_295],
            object(0, 1),
            &[Number(4_294_967_295)],
        ),
        // references come first, and each is looked at
        (
            &[three, 0, 65_535, 65_536],
            object(2, 3),
            &[Reference(0), Reference(65_535), Number(65_536)],
        ),
        (&[three, 0, 65_536, 0], Head::Nothing, &[]),
        // no other word is
        (&[refers, 0, 65_536], object(1, 1), &[Reference(0)]),
        (&[gone, 65_536, 65_536], forwarded(3, 256), &[]),
        (&[blank, 65_536, 65_536], padding(3), &[]),
    ]);
}

#[test]
fn makes_and_pads(rt: HostRuntime) {
    let bench = Bench::new(&rt, &Counted);
    bench.common_makes_and_pads();
    bench.check_fresh(&[
        (4, Make(2, 3), Ok(IsObject(2, 4))),
        (4, Make(3, 3), Ok(IsObject(3, 4))),
        (128, Make(127, 127), Ok(IsObject(127, 128))),
        // a layout past the slots, before the length
        (4, Make(4, 3), Err(4)),
        (3, Make(4, 3), Err(4)),
        // a word too few or too many
        (3, Make(2, 3), Err(7)),
        (5, Make(2, 3), Err(7)),
    ]);
}

// An object of a reference and a number.
const PAIR: Header = IsObject(1, 3);

#[test]
fn sets_and_forwards(rt: HostRuntime) {
    let bench = Bench::new(&rt, &Counted);
    bench.common_sets_and_forwards(PAIR);
    let pair = Counted::word(PAIR);
    bench.check_changes(
        [pair, 7, 8],
        &[
            (Set(0, Reference(65_535)), Ok([pair, 65_535, 8])),
            (Set(1, Number(4_294_967_295)), Ok([pair, 7, 4_294_967_295])),
            // values that the slot may not hold
            (Set(0, Number(0)), Err(6)),
            (Set(1, Reference(0)), Err(6)),
        ],
    );
}

#[test]
fn no_object(rt: HostRuntime) {
    let bench = Bench::new(&rt, &Counted);
    bench.common_no_object(PAIR, 0x8000_0000);
}

#[test]
fn greatest_object(rt: HostRuntime) -> Result<(), Fail> {
    let bench = Bench::new(&rt, &Counted);
    bench.check_greatest(5)
}
