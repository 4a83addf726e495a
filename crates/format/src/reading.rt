// Reading: what stands at the start of a slice of words, for every format.
ghost use Rattle.std.specs.Prelude.{◌≡◌};
ghost use Rattle.format.specs.Meaning.{allowed, seen, slots_hold, read_head};
ghost use Rattle.format.specs.Laws.{Readings};

use crate::checks::{extent, holds, is_place};
use crate::things::{Format, Head, Shape};

// Whether there may be such a thing, its size aside.
fn is_allowed<F: Format>(format: &F, head: Head) -> bool
    ensures { result ≡ allowed (F.Format.meaning format.now) head }
{
    match head {
        Head::Nothing => false,
        Head::Object(shape) => format.admits(shape),
        Head::Forwarded { to, .. } => is_place(format, to),
        Head::Padding { .. } => true,
    }
}

// What stands at the start of the words, by its head alone, in constant time.
pub fn look<F: Format>(format: &F, words: &[u32]) -> Head
    ensures { result ≡ seen (F.Format.meaning format.now) words.now }
{
    let head = format.head(words);
    let size = extent(format, head);
    if is_allowed(format, head) && (1..=head.longest()).contains(&size) && size <= words.len() {
        head
    } else {
        Head::Nothing
    }
}

// Whether each slot of an object holds what it may.
fn object_holds<F: Format>(format: &F, words: &[u32], shape: Shape) -> bool
    ensures { result ≡ slots_hold (F.Format.meaning format.now) words.now (Head.Object shape) }
{
    (0..shape.n).all(|i| holds(format, shape, i, format.slot(words, shape, i)))
}

fn slots_hold<F: Format>(format: &F, words: &[u32], head: Head) -> bool
    ensures { result ≡ slots_hold (F.Format.meaning format.now) words.now head }
{
    match head {
        Head::Object(shape) => object_holds(format, words, shape),
        Head::Nothing | Head::Forwarded { .. } | Head::Padding { .. } => true,
    }
}

// What stands at the start of the words, with every slot of it looked at.
pub fn read<F: Format>(format: &F, words: &[u32]) -> Head
    ensures answer { result ≡ read_head (F.Format.meaning format.now) words.now }
    ensures laws { Readings (F.Format.meaning format.now) }
{
    let head = look(format, words);
    if slots_hold(format, words, head) {
        head
    } else {
        Head::Nothing
    }
}
