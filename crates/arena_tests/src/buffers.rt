// Steps along a row of things, and the paddings that closed buffers become.
use crate::things::Thing::{Forwarded, Nothing, Object, Padding};
use crate::things::{Bench, OLD, Thing, counted, tagged};
use arena::{Buffer, Rows, Step, pad_part};
use format::Format;
use formats::{Counted, Tagged};
use std::process::Abort;
use std::test::Fail;

impl<R: Abort, F: Format> Bench<'_, R, F> {
    // Each row is the thing at word 8 of 264, the buffers, the end of the row, and the step from word 8.
    fn check_steps(&self, rows: &[(Thing, &[Buffer], usize, Option<Step>)]) -> Result<(), Fail> {
        for (k, &(thing, buffers, end, step)) in rows.iter().enumerate() {
            let mut words = [OLD; 264];
            self.lay(&mut words, 8, &[thing])?;
            let walk = Rows {
                format: self.format,
                buffers,
                words: &words,
            };
            assert_eq!(self.rt; walk.next_step(8, end), step, "{}, row {k}", self.name);
        }
        Ok(())
    }
}

const AT_8: Buffer = Buffer { init: 8, limit: 20 };

const LONGER_AT_8: Buffer = Buffer {
    init: 8,
    limit: 300,
};

const AT_7: Buffer = Buffer { init: 7, limit: 20 };

const AT_9: Buffer = Buffer { init: 9, limit: 20 };

const EMPTY_AT_8: Buffer = Buffer { init: 8, limit: 8 };

const BACKWARD_AT_8: Buffer = Buffer { init: 8, limit: 7 };

fn check_all_steps(bench: &Bench<impl Abort, impl Format>) -> Result<(), Fail> {
    bench.check_steps(&[
        (Object(5), &[], 264, Some(Step::Thing(13))),
        (Object(128), &[], 264, Some(Step::Thing(136))),
        (Forwarded(5), &[], 264, Some(Step::Thing(13))),
        (Padding(5), &[], 264, Some(Step::Padding(13))),
        (Nothing(5), &[], 264, None),
        // exactly the words up to the end, and one word more
        (Object(5), &[], 13, Some(Step::Thing(13))),
        (Object(5), &[], 12, None),
        (Forwarded(5), &[], 13, Some(Step::Thing(13))),
        (Forwarded(5), &[], 12, None),
        (Padding(5), &[], 13, Some(Step::Padding(13))),
        (Padding(5), &[], 12, None),
        (Padding(256), &[], 264, Some(Step::Padding(264))),
        (Padding(256), &[], 263, None),
        (Object(1), &[], 9, Some(Step::Thing(9))),
        // at the end and past it, and with an end that is not in the arena
        (Object(1), &[], 8, None),
        (Object(1), &[], 7, None),
        (Object(1), &[], 0, None),
        (Object(1), &[], 265, None),
        // a buffer at the place is passed, whatever stands there and wherever it ends
        (Object(5), &[AT_8], 264, Some(Step::Buffer(20))),
        (Nothing(5), &[AT_8], 264, Some(Step::Buffer(20))),
        (Padding(5), &[AT_7, AT_8, AT_9], 264, Some(Step::Buffer(20))),
        (
            Padding(5),
            &[AT_8, LONGER_AT_8],
            264,
            Some(Step::Buffer(20)),
        ),
        (
            Padding(5),
            &[LONGER_AT_8, AT_8],
            264,
            Some(Step::Buffer(300)),
        ),
        (Padding(5), &[AT_8], 9, Some(Step::Buffer(20))),
        // but not at the end, and not with an end that is not in the arena
        (Padding(5), &[AT_8], 8, None),
        (Padding(5), &[AT_8], 265, None),
        // a buffer elsewhere is not, nor one without words
        (Padding(5), &[AT_7, AT_9], 264, Some(Step::Padding(13))),
        (Object(5), &[EMPTY_AT_8], 264, Some(Step::Thing(13))),
        (Padding(5), &[EMPTY_AT_8], 264, Some(Step::Padding(13))),
        (Nothing(5), &[EMPTY_AT_8], 264, None),
        (Padding(5), &[BACKWARD_AT_8], 264, Some(Step::Padding(13))),
        (Padding(5), &[EMPTY_AT_8, AT_8], 264, Some(Step::Buffer(20))),
    ])
}

#[test]
fn steps(rt: HostRuntime) -> Result<(), Fail> {
    check_all_steps(&counted(&rt))?;
    check_all_steps(&tagged(&rt))
}

// An object is judged by its head alone: its one slot refers to 65,536, which it may not.
#[test]
fn steps_by_heads(rt: HostRuntime) {
    let walk = Rows {
        format: &Counted,
        buffers: &[],
        words: &[1 + 2 * 4 + 2048, 65_536],
    };
    assert_eq!(rt; walk.next_step(0, 2), Some(Step::Thing(2)), "counted");
    let walk = Rows {
        format: &Tagged,
        buffers: &[],
        words: &[0x4002_0000, 2 * 65_536],
    };
    assert_eq!(rt; walk.next_step(0, 2), Some(Step::Thing(2)), "tagged");
}

impl<R: Abort, F: Format> Bench<'_, R, F> {
    // Each row is a place and an end in 600 words, and the header of the padding that is made there,
    // with 0 in its other words. No other word changes. A buffer there is closed so, and is then none.
    fn check_paddings(&self, rows: &[(usize, usize, Option<u32>)]) {
        for (k, &(from, end, header)) in rows.iter().enumerate() {
            let mut after = [OLD; 600];
            if let Some(header) = header {
                assert!(self.rt; from < end && end <= 600);
                after[from..end].fill(0);
                after[from] = header;
            }
            let mut words = [OLD; 600];
            pad_part(self.format, &mut words, from, end);
            assert_eq!(self.rt; words, after, "{}, row {k}", self.name);
            let mut words = [OLD; 600];
            let mut buffer = Buffer {
                init: from,
                limit: end,
            };
            buffer.close(self.format, &mut words);
            assert_eq!(self.rt; words, after, "{}, row {k}, closed", self.name);
            assert_eq!(self.rt;
                buffer,
                Buffer { init: 0, limit: 0 },
                "{}, row {k}, closed",
                self.name
            );
        }
    }
}

// The headers are those of paddings of 1, 2 and 256 words.
fn check_all_paddings(bench: &Bench<impl Abort, impl Format>, one: u32, two: u32, most: u32) {
    bench.check_paddings(&[
        (0, 0, None),
        (100, 100, None),
        (100, 101, Some(one)),
        (100, 102, Some(two)),
        (100, 356, Some(most)),
        (100, 357, None),
        (0, 256, Some(most)),
        (0, 600, None),
        // up to the last word, and past it
        (599, 600, Some(one)),
        (344, 600, Some(most)),
        (600, 600, None),
        (600, 601, None),
        (599, 601, None),
        (601, 602, None),
        // an end before the place
        (101, 100, None),
    ]);
}

#[test]
fn paddings(rt: HostRuntime) {
    // 3 in bits 0 and 1, and the size from bit 2 on
    check_all_paddings(&counted(&rt), 3 + 4, 3 + 2 * 4, 3 + 256 * 4);
    // 3 in bits 30 and 31, and the size from bit 16 on
    check_all_paddings(&tagged(&rt), 0xc001_0000, 0xc002_0000, 0xc100_0000);
}
