// Runs of paddings in the segments of a pool.
use crate::things::Thing::{Forwarded, Nothing, Object, Padding};
use crate::things::{Bench, OLD, Thing, counted, tagged};
use arena::{Buffer, Rows, Segments};
use format::Format;
use std::process::Abort;
use std::test::Fail;

// A run, by where it begins and where it ends.
fn span(init: usize, limit: usize) -> Buffer {
    Buffer { init, limit }
}

// A size, and the lowest run of at least so many words.
type Fit = (usize, Option<Buffer>);

impl<R: Abort, F: Format> Bench<'_, R, F> {
    // Each row is the things of segment 1, from word 256 on, the buffers, and what is found there.
    fn check_segment(&self, rows: &[(&[Thing], &[Buffer], &[Fit])]) -> Result<(), Fail> {
        let mut segments = Segments::new();
        segments.give(1, 5);
        for (k, &(things, buffers, fits)) in rows.iter().enumerate() {
            let mut words = [OLD; 1024];
            self.lay(&mut words, 256, things)?;
            let walk = Rows {
                format: self.format,
                buffers,
                words: &words,
            };
            for &(size, run) in fits {
                let found = walk.lowest_run(&segments, 5, size);
                assert_eq!(self.rt; found, run, "{}, row {k}, {size} words", self.name);
            }
        }
        Ok(())
    }
}

const FROM_266_TO_300: Buffer = Buffer {
    init: 266,
    limit: 300,
};

const FROM_280_TO_300: Buffer = Buffer {
    init: 280,
    limit: 300,
};

const EMPTY_AT_266: Buffer = Buffer {
    init: 266,
    limit: 266,
};

const FROM_256_TO_266: Buffer = Buffer {
    init: 256,
    limit: 266,
};

const FROM_300_TO_512: Buffer = Buffer {
    init: 300,
    limit: 512,
};

// Paddings of the words from 256 to 266, to 300 and to 512.
const THREE: [Thing; 3] = [Padding(10), Padding(34), Padding(212)];

fn check_segment_rows(bench: &Bench<impl Abort, impl Format>) -> Result<(), Fail> {
    bench.check_segment(&[
        // no run: objects, things that are gone, and nothing
        (&[Object(128), Object(128)], &[], &[(0, None), (1, None)]),
        (&[Forwarded(128), Forwarded(128)], &[], &[(1, None)]),
        (&[Nothing(256)], &[], &[(0, None), (1, None)]),
        // a run of the whole segment, which does not go on into the next
        (
            &[Padding(256), Padding(256)],
            &[],
            &[
                (0, Some(span(256, 512))),
                (1, Some(span(256, 512))),
                (255, Some(span(256, 512))),
                (256, Some(span(256, 512))),
                (257, None),
                (usize::MAX, None),
            ],
        ),
        // adjacent paddings are one run, and the first run that fits is taken
        (
            &[Padding(10), Padding(20), Object(128), Padding(98)],
            &[],
            &[
                (1, Some(span(256, 286))),
                (11, Some(span(256, 286))),
                (30, Some(span(256, 286))),
                (31, Some(span(414, 512))),
                (98, Some(span(414, 512))),
                (99, None),
            ],
        ),
        (
            &[
                Padding(20),
                Object(2),
                Padding(30),
                Forwarded(4),
                Padding(200),
            ],
            &[],
            &[
                (20, Some(span(256, 276))),
                (21, Some(span(278, 308))),
                (30, Some(span(278, 308))),
                (31, Some(span(312, 512))),
                (200, Some(span(312, 512))),
                (201, None),
            ],
        ),
        // a run between things
        (
            &[Object(5), Padding(3), Padding(4), Object(120), Object(124)],
            &[],
            &[(7, Some(span(261, 268))), (8, None)],
        ),
        // not cut, and cut by a buffer whose words hold a padding
        (
            &THREE,
            &[],
            &[(11, Some(span(256, 512))), (256, Some(span(256, 512)))],
        ),
        (
            &THREE,
            &[FROM_266_TO_300],
            &[
                (10, Some(span(256, 266))),
                (11, Some(span(300, 512))),
                (212, Some(span(300, 512))),
                (213, None),
            ],
        ),
        // not cut by a buffer without words
        (&THREE, &[EMPTY_AT_266], &[(256, Some(span(256, 512)))]),
        // a buffer whose words hold nothing
        (
            &[Padding(10), Nothing(34), Padding(212)],
            &[FROM_266_TO_300],
            &[
                (10, Some(span(256, 266))),
                (11, Some(span(300, 512))),
                (213, None),
            ],
        ),
        // objects, and behind them what is left of the buffer in which they were made
        (
            &[Padding(10), Object(14), Nothing(20), Padding(212)],
            &[FROM_280_TO_300],
            &[
                (10, Some(span(256, 266))),
                (11, Some(span(300, 512))),
                (213, None),
            ],
        ),
        // a buffer at the begin of the segment, at its end, and both
        (
            &THREE,
            &[FROM_256_TO_266],
            &[(1, Some(span(266, 512))), (247, None)],
        ),
        (
            &THREE,
            &[FROM_300_TO_512],
            &[(1, Some(span(256, 300))), (45, None)],
        ),
        (
            &THREE,
            &[FROM_300_TO_512, FROM_256_TO_266],
            &[(34, Some(span(266, 300))), (35, None)],
        ),
        (
            &THREE,
            &[FROM_256_TO_266, FROM_266_TO_300, FROM_300_TO_512],
            &[(0, None), (1, None)],
        ),
        // damaged words end the row, and what stands behind them is not seen
        (
            &[Padding(4), Padding(5), Nothing(1), Padding(246)],
            &[],
            &[(9, Some(span(256, 265))), (10, None)],
        ),
        (
            &[Padding(4), Object(5), Nothing(1), Padding(246)],
            &[],
            &[(4, Some(span(256, 260))), (5, None)],
        ),
        // a thing that passes the end of the segment is none
        (
            &[Padding(128), Padding(127), Padding(2)],
            &[],
            &[(255, Some(span(256, 511))), (256, None)],
        ),
        (
            &[Object(128), Padding(120), Object(9)],
            &[],
            &[(120, Some(span(384, 504))), (121, None)],
        ),
    ])
}

#[test]
fn runs_of_a_segment(rt: HostRuntime) -> Result<(), Fail> {
    check_segment_rows(&counted(&rt))?;
    check_segment_rows(&tagged(&rt))
}

impl<R: Abort, F: Format> Bench<'_, R, F> {
    // Segments 1 and 3 are pool 6's; 2, 4 and 5 are pool 5's. They have runs of 100, 50, 256, 256 and 256 words.
    fn check_pools(&self) -> Result<(), Fail> {
        let mut segments = Segments::new();
        segments.give(1, 6);
        segments.give(2, 5);
        segments.give(3, 6);
        segments.give(4, 5);
        segments.give(5, 5);
        let mut words = [OLD; 1536];
        self.lay(&mut words, 256, &[Padding(100), Object(128)])?;
        self.lay(&mut words, 512, &[Padding(50), Object(128)])?;
        self.lay(&mut words, 768, &[Padding(256); 3])?;
        // how many words the arena has, the pool, the size and the run
        let rows: [(usize, u8, usize, Option<Buffer>); 17] = [
            (1_536, 6, 1, Some(span(256, 356))),
            (1_536, 6, 100, Some(span(256, 356))),
            (1_536, 6, 101, Some(span(768, 1_024))),
            (1_536, 6, 257, None),
            (1_536, 5, 50, Some(span(512, 562))),
            (1_536, 5, 51, Some(span(1_024, 1_280))),
            (1_536, 5, 256, Some(span(1_024, 1_280))),
            // no run goes on into the next segment
            (1_536, 5, 257, None),
            // a pool without segments
            (1_536, 0, 0, None),
            (1_536, 7, 1, None),
            // segments that do not lie in the arena
            (1_280, 5, 51, Some(span(1_024, 1_280))),
            (1_279, 5, 51, None),
            (1_279, 5, 50, Some(span(512, 562))),
            (1_279, 6, 101, Some(span(768, 1_024))),
            (1_023, 6, 101, None),
            (511, 6, 1, None),
            (0, 6, 0, None),
        ];
        for (k, (len, pool, size, run)) in rows.into_iter().enumerate() {
            assert!(self.rt; len <= 1_536);
            let walk = Rows {
                format: self.format,
                buffers: &[],
                words: &words[..len],
            };
            let found = walk.lowest_run(&segments, pool, size);
            assert_eq!(self.rt; found, run, "{}, row {k}", self.name);
        }
        Ok(())
    }
}

#[test]
fn runs_of_pools(rt: HostRuntime) -> Result<(), Fail> {
    counted(&rt).check_pools()?;
    tagged(&rt).check_pools()
}
