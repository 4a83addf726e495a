// The listing of a row: a line for each thing and each slot, where the row ends, and how many things of each kind it has.
ghost use Rattle.std.specs.Prelude.{◌≡◌, Some, IfOk, string_bytes, vec_items};
ghost use Rattle.rows.specs.Text.{slot_lines, end_line, entry_text, row_text, listing_text};

use crate::walking::{Entry, Row, Tally, words_from};
use format::{Format, Head, Shape, Slot};
use std::alloc::{AllocError, Global};
use std::fmt;

// The slots of an object, as they are listed.
#[derive_where(Clone, Copy)]
struct Slots<'a, F> {
    format: &'a F,
    own: &'a [u32],
    shape: Shape,
}

impl<F: Format> fmt::Display for Slots<'_, F> {
    ghost output = { λ s. Some (slot_lines (F.Format.meaning s.format.now) s.own.now s.shape s.shape.n) };

    fn fmt<W: fmt::Write>(&self, f: &mut fmt::Formatter<W>) -> fmt::Result {
        for i in 0..self.shape.n {
            match self.format.slot(self.own, self.shape, i) {
                Slot::Reference(address) => writeln!(f, "  {i} reference {address}")?,
                Slot::Number(number) => writeln!(f, "  {i} number {number}")?,
            }
        }
        Ok(())
    }
}

// A thing and its slots, as they are listed.
#[derive_where(Clone, Copy)]
struct Thing<'a, F> {
    format: &'a F,
    words: &'a [u32],
    entry: Entry,
}

impl<F: Format> fmt::Display for Thing<'_, F> {
    ghost output = { λ t. Some (entry_text (F.Format.meaning t.format.now) t.words.now t.entry) };

    fn fmt<W: fmt::Write>(&self, f: &mut fmt::Formatter<W>) -> fmt::Result {
        let Entry { place, head } = self.entry;
        match head {
            Head::Nothing => writeln!(f, "{place} nothing"),
            Head::Object(shape) => {
                let Shape { layout, n } = shape;
                let size = self.format.size(shape);
                let slots = Slots {
                    format: self.format,
                    own: words_from(self.words, place),
                    shape,
                };
                writeln!(f, "{place} object size {size} layout {layout} slots {n}")?;
                write!(f, "{slots}")
            }
            Head::Forwarded { size, to } => writeln!(f, "{place} forwarded size {size} to {to}"),
            Head::Padding { size } => writeln!(f, "{place} padding size {size}"),
        }
    }
}

// Where a row ends, as it is listed: at the end of the words, or where nothing stands.
#[derive(Clone, Copy)]
struct Ending {
    end: usize,
    len: usize,
}

impl fmt::Display for Ending {
    ghost output = { λ e. Some (end_line e.end e.len) };

    fn fmt<W: fmt::Write>(&self, f: &mut fmt::Formatter<W>) -> fmt::Result {
        let Ending { end, len } = *self;
        if end == len {
            writeln!(f, "{end} end, the row is whole")
        } else {
            writeln!(f, "{end} nothing")
        }
    }
}

// A row, as it is listed.
#[derive_where(Clone, Copy)]
struct ListedRow<'a, F> {
    format: &'a F,
    words: &'a [u32],
    row: &'a Row,
}

impl<F: Format> fmt::Display for ListedRow<'_, F> {
    ghost output = { λ l. Some (row_text (F.Format.meaning l.format.now) l.words.now (vec_items l.row.now.entries) l.row.now.end) };

    fn fmt<W: fmt::Write>(&self, f: &mut fmt::Formatter<W>) -> fmt::Result {
        let ListedRow { format, words, row } = *self;
        for entry in &row.entries {
            let thing = Thing {
                format,
                words,
                entry: *entry,
            };
            write!(f, "{thing}")?;
        }
        let ending = Ending {
            end: row.end,
            len: words.len(),
        };
        write!(f, "{ending}")?;
        let tally = Tally::of(&row.entries);
        writeln!(f, "{tally}")
    }
}

// The listing of the row that the words hold from their start.
#[tactic(auto, using(crate::proofs::Lines::listing_is))]
pub fn listing<F: Format>(heap: Global, format: &F, words: &[u32]) -> Result<String, AllocError>
    ensures { IfOk result (λ s. string_bytes s ≡ listing_text (F.Format.meaning format.now) words.now) }
{
    let row = Row::read(heap, format, words)?;
    let listed = ListedRow {
        format,
        words,
        row: &row,
    };
    format!(in heap; "{listed}")
}
