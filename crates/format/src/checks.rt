// What a slot may hold, where an object may stand and how many words a thing takes, for every format.
ghost use Rattle.std.specs.Prelude.{◌≡◌};
ghost use Rattle.format.specs.Meaning.{holds, is_place, extent};

use crate::things::{Format, Head, Shape, Slot};

const SMALLEST_ADDRESS: u32 = 256;

// Whether slot i of an object of this shape may hold the value.
pub fn holds<F: Format>(format: &F, shape: Shape, i: u8, value: Slot) -> bool
    ensures { result ≡ holds (F.Format.meaning format.now) shape i value }
{
    let kind = format.kind(shape, i);
    match value {
        Slot::Reference(address) => kind.may_refer() && address <= format.address_limit(),
        Slot::Number(number) => kind.may_count() && number <= format.number_limit(),
    }
}

// Whether an object may stand at the address.
pub(crate) fn is_place<F: Format>(format: &F, address: u32) -> bool
    ensures { result ≡ is_place (F.Format.meaning format.now) address }
{
    (SMALLEST_ADDRESS..=format.address_limit()).contains(&address)
}

// How many words a thing takes.
pub fn extent<F: Format>(format: &F, head: Head) -> usize
    ensures { result ≡ extent (F.Format.meaning format.now) head }
{
    match head {
        Head::Nothing => 0,
        Head::Object(shape) => format.size(shape),
        Head::Forwarded { size, .. } | Head::Padding { size } => size,
    }
}
