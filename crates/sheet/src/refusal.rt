// Document 01's and 02's refusals: which rule is broken, and where. A rule's number is the one that the documents give it.
ghost use Rattle.std.specs.Prelude.{◌≡◌};
ghost use Rattle.sheet.specs.Refusal.{number};

// In the order of the documents' tables: of an office, of polygon bytes, of point and district files, and of a text.
#[derive(Clone, Copy, Debug, PartialEq, Eq)]
pub enum Rule {
    UnequalLists = 1,
    PointCount = 2,
    CornerCount = 3,
    ShortBuffer = 4,
    LargeCoordinate = 5,
    RepeatedPoint = 6,
    NoPoint = 7,
    FlatTriangle = 8,
    RepeatedSide = 9,
    UnusedPoint = 10,
    InvadedCircle = 11,
    BrokenRim = 12,
    OuterPoint = 13,
    CutShort = 20,
    ByteOrder = 21,
    OtherType = 22,
    RingCount = 23,
    PositionCount = 24,
    NotFinite = 25,
    OffGrid = 26,
    OpenRing = 27,
    BytesLeft = 28,
    ShortLists = 29,
    NoRing = 30,
    LargeRing = 31,
    ShortOutput = 32,
    PointType = 33,
    DistrictCount = 35,
    LengthSum = 36,
    Text = 40,
}

impl Rule {
    pub fn number(self) -> u8
        ensures { result ≡ number self }
    {
        self as u8
    }

    // The refusal of what breaks the rule at a place.
    pub fn at(self, place: usize) -> Refusal
        ensures { (result.rule ≡ self) × (result.place ≡ place) }
    {
        Refusal { rule: self, place }
    }
}

// The broken rule, and document 01's place of it.
#[derive(Clone, Copy, Debug, PartialEq, Eq)]
pub struct Refusal {
    pub rule: Rule,
    pub place: usize,
}
