// Objects and their slots, and what a format says and does.
ghost use Rattle.std.specs.Prelude.{◌≡◌, ℕ};
ghost use Rattle.format.specs.Meaning.{Meaning, longest, may_count, may_refer};
ghost use Rattle.format.specs.Laws.{Lawful};

// The layout of an object and the number of its slots.
#[derive(Clone, Copy, PartialEq, Eq, Debug)]
pub struct Shape {
    pub layout: u8,
    pub n: u8,
}

// What the words at a base hold: exactly one of four, and so no Option, since `Nothing` is one of them.
#[derive(Clone, Copy, PartialEq, Eq, Debug)]
pub enum Head {
    Nothing,
    Object(Shape),
    Forwarded { size: usize, to: u32 },
    Padding { size: usize },
}

const LONGEST_OBJECT: usize = 128;

pub(crate) const LONGEST_PADDING: usize = 256;

impl Head {
    // The most words that such a thing takes.
    pub(crate) fn longest(self) -> usize
        ensures { result ≡ longest self }
    {
        match self {
            Head::Nothing => 0,
            Head::Object(_) | Head::Forwarded { .. } => LONGEST_OBJECT,
            Head::Padding { .. } => LONGEST_PADDING,
        }
    }
}

// What a slot holds. A reference is an address, or 0 for null, as words in lent memory have it.
#[derive(Clone, Copy, PartialEq, Eq, Debug)]
pub enum Slot {
    Reference(u32),
    Number(u32),
}

// What a slot may hold.
#[derive(Clone, Copy, PartialEq, Eq, Debug)]
pub enum Kind {
    References,
    Numbers,
    Both,
}

impl Kind {
    pub(crate) fn may_refer(self) -> bool
        ensures { result ≡ may_refer self }
    {
        matches!(self, Kind::References | Kind::Both)
    }

    pub(crate) fn may_count(self) -> bool
        ensures { result ≡ may_count self }
    {
        matches!(self, Kind::Numbers | Kind::Both)
    }
}

// An object format. Its functions look at single words and write without asking: `look`, `read`,
// `make`, `set_slot`, `forward` and `pad` are built on them once for every format, and refuse. They are
// functions and no methods with a body, since no format is to write them anew.
pub trait Format {
    const GREATEST_NUMBER: u32;

    const GREATEST_ADDRESS: u32;

    // The constants, as contracts name them.
    ghost GREATEST_NUMBER: { ℕ };

    ghost GREATEST_ADDRESS: { ℕ };

    ghost meaning: { Self → Meaning };

    // The greatest number and address of this format, as the value checks use them. A format that is always
    // the same one answers its constants; one that is of several, as its value says, answers those of that one.
    fn number_limit(&self) -> u32
        ensures { result ≡ (meaning self.now).greatest_number };

    fn address_limit(&self) -> u32
        ensures { result ≡ (meaning self.now).greatest_address };

    // Whether there are objects of this shape.
    fn admits(&self, shape: Shape) -> bool
        ensures { result ≡ (meaning self.now).admits shape };

    // How many words such an object takes.
    fn size(&self, shape: Shape) -> usize
        ensures { result ≡ (meaning self.now).size shape };

    // What slot i of such an object may hold.
    fn kind(&self, shape: Shape, i: u8) -> Kind
        ensures { result ≡ (meaning self.now).kind shape i };

    // What the thing at the start of the words says it is.
    fn head(&self, words: &[u32]) -> Head
        ensures { result ≡ (meaning self.now).head words.now };

    // Slot i of the object at the start of the words.
    fn slot(&self, words: &[u32], shape: Shape, i: u8) -> Slot
        ensures { result ≡ (meaning self.now).slot shape words.now i };

    // Writes a new object over the words.
    fn write_object(&self, own: &mut [u32], shape: Shape)
        ensures { own.new ≡ (meaning self.now).made shape own.old };

    // Writes slot i of the object whose words these are.
    fn write_slot(&self, own: &mut [u32], shape: Shape, i: u8, value: Slot)
        ensures { own.new ≡ (meaning self.now).with_slot shape i value own.old };

    // Marks the object whose words these are as forwarded.
    fn write_forward(&self, own: &mut [u32], to: u32)
        ensures { own.new ≡ (meaning self.now).forwarding to own.old };

    // Makes the words one padding.
    fn write_padding(&self, own: &mut [u32])
        ensures { own.new ≡ (meaning self.now).padded own.old };

    ghost lawful: { (f : Self) → Lawful (meaning f) };
}
