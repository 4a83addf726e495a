// Runs of paddings: longest rows of them in one segment. A buffer ends a run, as any other thing does.
ghost use Rattle.std.specs.Prelude.{◌≡◌};
ghost use Rattle.arena.specs.Runs.{fitting, run_in, run_of, lowest_run};

use crate::buffers::{Buffer, Rows, Step};
use crate::segments::{Segments, segments_in};
use format::Format;

// The run from a place up to an end, if it has words, and as many as are wanted.
fn fitting_run(from: usize, end: usize, size: usize) -> Option<Buffer>
    ensures { result ≡ fitting size from end }
{
    (from < end && size <= end - from).then_some(Buffer {
        init: from,
        limit: end,
    })
}

impl<F: Format> Rows<'_, F> {
    // The lowest run of at least so many words in a row.
    #[tactic(auto, using(crate::proofs::Walks::walking))]
    fn run_in_row(&self, from: usize, end: usize, size: usize) -> Option<Buffer>
        ensures { result ≡ run_in (F.Format.meaning self.now.format.now) self.now.buffers.now self.now.words.now size end from }
    {
        let mut run = from;
        let mut place = from;
        while let Some(step) = self.next_step(place, end) {
            match step {
                Step::Padding(next) => place = next,
                Step::Thing(next) | Step::Buffer(next) => {
                    if let Some(found) = fitting_run(run, place, size) {
                        return Some(found);
                    }
                    run = next;
                    place = next;
                }
            }
        }
        fitting_run(run, place, size)
    }

    // The lowest run of at least so many words in a segment, if the segment is the pool's.
    fn run_in_segment(
        &self,
        segments: &Segments,
        segment: u8,
        pool: u8,
        size: usize,
    ) -> Option<Buffer>
        ensures { result ≡ run_of (F.Format.meaning self.now.format.now) segments.now self.now.buffers.now self.now.words.now pool size segment }
    {
        if segments.owner(segment) != Some(pool) {
            return None;
        }
        let base = segment as usize * 256;
        self.run_in_row(base, base + 256, size)
    }

    // The lowest run of at least so many words in a pool's segments.
    pub fn lowest_run(&self, segments: &Segments, pool: u8, size: usize) -> Option<Buffer>
        ensures { result ≡ lowest_run (F.Format.meaning self.now.format.now) segments.now self.now.buffers.now self.now.words.now pool size }
    {
        (1..segments_in(self.words.len())).find_map(|segment| self.run_in_segment(
            segments,
            segment as u8,
            pool,
            size,
        ))
    }
}
