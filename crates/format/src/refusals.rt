// The refusals of the store and their numbers.
ghost use Rattle.std.specs.Prelude.{◌≡◌};
ghost use Rattle.format.specs.Refusals.{number_of, TellsApart};

// Why a call was not performed.
#[derive(Clone, Copy, PartialEq, Eq, Debug)]
pub enum Refusal {
    UnknownCall = 2,
    NoSuchThing = 3,
    NotAdmitted = 4,
    NoSuchSlot = 5,
    NotHeld = 6,
    WrongLength = 7,
    PastTheObject = 8,
    NullRegister = 20,
    PointNotIdle = 21,
    PointIdle = 22,
    PointLost = 23,
    NoRoom = 24,
    OtherKind = 25,
    PokedWord = 26,
    CollectionsSpent = 30,
}

impl Refusal {
    // The number by which a refusal is reported; 0 is left for what was performed.
    pub fn number(self) -> u8
        ensures value { result ≡ number_of self }
        ensures laws { TellsApart }
    {
        self as u8
    }
}
