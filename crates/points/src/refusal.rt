// The refusals of document 01, and of 02's requests, by name; `number` in specs/Refusal.antt has the numbers.
ghost use Rattle.std.specs.Prelude.{◌≡◌};
ghost use Rattle.points.specs.Refusal.{number};

#[derive(Clone, Copy, Debug, PartialEq, Eq)]
pub enum Refusal {
    NotValid = 1,
    SheetCurve = 2,
    NotFinite = 3,
    BoundsCross = 4,
    TooManyPoints = 5,
    TimesDontRise = 6,
    KeysDontRise = 7,
    NoRoom = 8,
    SheetForm = 9,
    NoStep = 10,
    MemoryLength = 11,
    StoredState = 12,
    TooManySamples = 13,
    OtherEnvelope = 14,
}

impl Refusal {
    // 01's number, and from 14 on 02's.
    pub fn number(self) -> u32
        ensures { result ≡ number self }
    {
        self as u32
    }
}
