// Rows of things: objects, forwarded things and paddings one behind the other, without a gap.
ghost use Rattle.std.specs.Prelude.{◌≡◌, Some, drop, IfOk};
ghost use Rattle.rows.specs.Text.{tally_text};

use format::{Format, Head, extent, read};
use std::alloc::{AllocError, Global};
use std::fmt;

// The words from a place on.
pub(crate) fn words_from(words: &[u32], place: usize) -> &[u32]
    ensures { result.now ≡ drop place words.now }
{
    words.get(place..).unwrap_or(&[])
}

// A thing of a row, and where it stands.
#[derive(Clone, Copy, PartialEq, Eq, Debug)]
pub struct Entry {
    pub place: usize,
    pub head: Head,
}

impl Entry {
    ghost use Rattle.rows.specs.Rows.{entry_at};

    // The thing that stands at a place, if one does.
    pub fn at<F: Format>(format: &F, words: &[u32], place: usize) -> Option<Entry>
        ensures { result ≡ entry_at (F.Format.meaning format.now) words.now place }
    {
        let head = read(format, words_from(words, place));
        (head != Head::Nothing).then_some(Entry { place, head })
    }
}

// The things of a row, and the first place behind them, which reads as nothing.
#[derive(Drop)]
pub struct Row {
    pub entries: Vec<Entry>,
    pub end: usize,
}

impl Row {
    ghost use Rattle.rows.specs.Rows.{Listed, RowLaw};

    // The row that the words hold from their start.
    #[tactic(auto, using(crate::proofs::Walks::row_law, crate::proofs::Walks::entry_inside, crate::proofs::Walks::listing_none, crate::proofs::Walks::listing_all))]
    pub fn read<F: Format>(heap: Global, format: &F, words: &[u32]) -> Result<Row, AllocError>
        ensures listed { IfOk result (Listed (F.Format.meaning format.now) words.now) }
        ensures laws { RowLaw (F.Format.meaning format.now) words.now }
    {
        // A loop and no iterator, since the place where it ends is half of the answer.
        let mut entries = Vec::new(heap);
        let mut end = 0;
        while let Some(next) = Entry::at(format, words, end) {
            entries.push(next)?;
            end += extent(format, next.head);
        }
        Ok(Row { entries, end })
    }
}

// How many things of each kind there are.
#[derive(Clone, Copy, PartialEq, Eq, Debug, Default)]
pub struct Tally {
    pub objects: usize,
    pub forwarded: usize,
    pub paddings: usize,
}

impl Tally {
    ghost use Rattle.rows.specs.Rows.{tally_of};

    // Counts the things of each kind, all in one pass.
    pub fn of(entries: &[Entry]) -> Tally
        ensures { result ≡ tally_of entries.now }
    {
        let mut tally = Tally::default();
        for entry in entries {
            match entry.head {
                Head::Nothing => {}
                Head::Object(_) => tally.objects += 1,
                Head::Forwarded { .. } => tally.forwarded += 1,
                Head::Padding { .. } => tally.paddings += 1,
            }
        }
        tally
    }
}

impl fmt::Display for Tally {
    ghost output = { λ tally. Some (tally_text tally) };

    fn fmt<W: fmt::Write>(&self, f: &mut fmt::Formatter<W>) -> fmt::Result {
        let Tally {
            objects,
            forwarded,
            paddings,
        } = *self;
        write!(
            f,
            "objects {objects} forwarded {forwarded} paddings {paddings}"
        )
    }
}
