// The rows that hold in the counted and in the tagged format.
use crate::checks::Header::{IsForwarded, IsObject, IsPadding, NoThing};
use crate::checks::Write::{Forward, Make, Pad, Set};
use crate::checks::{Bench, Header, Headers, forwarded, object, padding};
use format::Head;
use format::Slot::{Number, Reference};
use std::process::Abort;

impl<R: Abort, F: Headers> Bench<'_, R, F> {
    pub(crate) fn common_headers(&self) {
        self.check_headers(&[
            // no thing
            (NoThing(0), Head::Nothing),
            (NoThing(1), Head::Nothing),
            (NoThing(128), Head::Nothing),
            (NoThing(129), Head::Nothing),
            (NoThing(256), Head::Nothing),
            (NoThing(257), Head::Nothing),
            (NoThing(511), Head::Nothing),
            // an object takes 1 to 128 words
            (IsObject(0, 0), Head::Nothing),
            (IsObject(0, 1), object(0, 0)),
            (IsObject(0, 128), object(0, 127)),
            (IsObject(0, 129), Head::Nothing),
            (IsObject(0, 256), Head::Nothing),
            (IsObject(0, 257), Head::Nothing),
            (IsObject(0, 511), Head::Nothing),
            // what was forwarded took 1 to 128 words
            (IsForwarded(0, 256), Head::Nothing),
            (IsForwarded(1, 256), forwarded(1, 256)),
            (IsForwarded(128, 256), forwarded(128, 256)),
            (IsForwarded(129, 256), Head::Nothing),
            (IsForwarded(256, 256), Head::Nothing),
            (IsForwarded(257, 256), Head::Nothing),
            (IsForwarded(511, 256), Head::Nothing),
            // and has gone to 256 to 65,535
            (IsForwarded(1, 0), Head::Nothing),
            (IsForwarded(1, 255), Head::Nothing),
            (IsForwarded(1, 65_535), forwarded(1, 65_535)),
            // a padding takes 1 to 256 words
            (IsPadding(0), Head::Nothing),
            (IsPadding(1), padding(1)),
            (IsPadding(128), padding(128)),
            (IsPadding(129), padding(129)),
            (IsPadding(256), padding(256)),
            (IsPadding(257), Head::Nothing),
            (IsPadding(511), Head::Nothing),
        ]);
    }

    pub(crate) fn common_lengths(&self) {
        self.check_lengths(&[
            (IsObject(0, 1), 1, object(0, 0)),
            (IsObject(0, 128), 128, object(0, 127)),
            (IsForwarded(1, 256), 1, forwarded(1, 256)),
            (IsForwarded(128, 256), 128, forwarded(128, 256)),
            (IsPadding(1), 1, padding(1)),
            (IsPadding(256), 256, padding(256)),
        ]);
    }

    pub(crate) fn common_makes_and_pads(&self) {
        self.check_fresh(&[
            (1, Make(0, 0), Ok(IsObject(0, 1))),
            (4, Make(0, 3), Ok(IsObject(0, 4))),
            // slots past 127, before the length
            (129, Make(0, 128), Err(4)),
            (256, Make(0, 255), Err(4)),
            (128, Make(0, 128), Err(4)),
            // a word too few or too many
            (0, Make(0, 0), Err(7)),
            (2, Make(0, 0), Err(7)),
            (127, Make(0, 127), Err(7)),
            (129, Make(0, 127), Err(7)),
            // a padding takes 1 to 256 words
            (0, Pad, Err(7)),
            (1, Pad, Ok(IsPadding(1))),
            (129, Pad, Ok(IsPadding(129))),
            (256, Pad, Ok(IsPadding(256))),
            (257, Pad, Err(7)),
        ]);
    }

    // The pair is an object of two slots, of which the first may refer.
    pub(crate) fn common_sets_and_forwards(&self, pair: Header) {
        let pair = F::word(pair);
        let gone = F::word(IsForwarded(3, 256));
        let far = F::word(IsForwarded(3, 65_535));
        self.check_changes(
            [pair, 7, 8],
            &[
                (Set(0, Reference(0)), Ok([pair, 0, 8])),
                // a value that the slot may not hold
                (Set(0, Reference(65_536)), Err(6)),
                // no such slot, before the value
                (Set(2, Number(0)), Err(5)),
                (Set(2, Reference(65_536)), Err(5)),
                (Set(255, Number(0)), Err(5)),
                // an address from 256 to 65,535
                (Forward(256), Ok([gone, 7, 8])),
                (Forward(65_535), Ok([far, 7, 8])),
                (Forward(0), Err(6)),
                (Forward(255), Err(6)),
                (Forward(65_536), Err(6)),
                (Forward(4_294_967_295), Err(6)),
            ],
        );
        let empty = F::word(IsObject(0, 1));
        let moved = F::word(IsForwarded(1, 256));
        self.check_changes(
            [empty],
            &[(Set(0, Number(0)), Err(5)), (Forward(256), Ok([moved]))],
        );
    }

    // The bit is one that the pair's header does not use.
    pub(crate) fn common_no_object(&self, pair: Header, unused: u32) {
        let pair = F::word(pair);
        let gone = F::word(IsForwarded(3, 256));
        let blank = F::word(IsPadding(3));
        self.check_no_object(&[
            // no word, a word too few, and a word too many
            &[],
            &[pair, 7],
            &[pair, 7, 8, 9],
            // nothing, by its tag and by an unused bit
            &[0, 7, 8],
            &[pair | unused, 7, 8],
            &[gone, 7, 8],
            &[blank, 7, 8],
        ]);
    }
}
