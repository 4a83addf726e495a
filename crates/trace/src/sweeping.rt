// Sweeping a condemned segment: all but marked objects become padding, each run one padding, and a
// segment without marked objects is freed.
ghost use Rattle.std.specs.Prelude.{◌≡◌, ◌+◌, ◌^◌, ◌<◌, ◌≤◌, length};
ghost use Rattle.format.specs.Meaning.{extent};
ghost use Rattle.trace.specs.Traces.{loose, stand_by, stood, row, swept_row, swept_words, swept_segments};

use arena::{Segments, is_set, pad_part};
use format::{Format, Head, look};

// The sweep is lent words and marks alone, and no heap: it has no use for grey objects or targets. Three
// functions take them with the format, too few for a type of their own. A row goes from `base` to `limit` here
// and in the other walks, as in the definitions: with 256 put in for the difference none of them proves alone.

// Where a thing of a row ends, and whether it is a marked object, which is kept.
#[derive(Clone, Copy, PartialEq, Eq, Debug)]
pub(crate) struct Stand {
    pub(crate) end: usize,
    pub(crate) is_kept: bool,
}

// That of a thing which is not kept.
fn loose(end: usize) -> Stand
    ensures { result ≡ loose end }
{
    Stand {
        end,
        is_kept: false,
    }
}

fn stand_of<F: Format>(format: &F, marks: &[u32], at: usize, limit: usize, head: Head) -> Stand
    requires { at + extent (F.Format.meaning format.now) head < 2 ^ 64 }
    ensures { result ≡ stand_by marks.now at limit (F.Format.meaning format.now) head }
{
    match head {
        Head::Nothing => loose(limit),
        Head::Object(shape) => Stand {
            end: at + format.size(shape),
            is_kept: is_set(marks, at),
        },
        Head::Forwarded { size, .. } | Head::Padding { size } => loose(at + size),
    }
}

pub(crate) fn stand_at<F: Format>(
    format: &F,
    words: &[u32],
    marks: &[u32],
    at: usize,
    limit: usize,
) -> Stand
    requires { (at < limit) × (limit ≤ length words.now) }
    ensures which { result ≡ stood (F.Format.meaning format.now) words.now marks.now at limit }
    ensures fits { (at < result.end) × (result.end ≤ limit) }
{
    stand_of(format, marks, at, limit, look(format, &words[at..limit]))
}

// Sweeps the things of a row, and answers where the last run begins that has nothing marked in it.
fn sweep_row<F: Format>(
    format: &F,
    words: &mut [u32],
    marks: &[u32],
    base: usize,
    limit: usize,
) -> usize
    requires { (base ≤ limit) × (limit ≤ length words.old) }
    ensures { row words.new result ≡ swept_row (F.Format.meaning format.now) words.old marks.now base limit }
{
    // By a cursor, since the sweep writes the words that the walk goes over.
    let mut run = base;
    let mut at = base;
    while at < limit {
        let thing = stand_at(format, words, marks, at, limit);
        if thing.is_kept {
            pad_part(format, words, run, at);
            run = thing.end;
        }
        at = thing.end;
    }
    run
}

// Sweeps a segment that lies in the arena.
pub fn sweep<F: Format>(
    format: &F,
    segments: &mut Segments,
    words: &mut [u32],
    marks: &[u32],
    segment: u8,
)
    ensures state { segments.new ≡ swept_segments (F.Format.meaning format.now) segments.old words.old marks.now segment }
    ensures words { words.new ≡ swept_words (F.Format.meaning format.now) words.old marks.now segment }
{
    let base = segment as usize * 256;
    let limit = base + 256;
    if limit <= words.len() {
        let run = sweep_row(format, words, marks, base, limit);
        if run == base {
            segments.free(words, segment);
        } else {
            pad_part(format, words, run, limit);
        }
    }
}
