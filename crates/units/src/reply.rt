// Document 01, 'Replies', and document 02, requests 3 (16) and 5 (17, 18): every refusal as a case of one enum, with the section and the
// passes that differ from call to call.
// The definition `refusal_numbers` gives each case its number, section and passes; the functions below are the same for programs.
ghost use Rattle.std.specs.Prelude.{◌≡◌};
ghost use Rattle.units.specs.Replies.{refusal_numbers};

// The most passes that settling makes.
pub const MAX_PASSES: u32 = 1024;

// What settling, a write and assembly answer when they accept: the code's length in all, and the passes made.
#[derive(Clone, Copy, Debug, PartialEq, Eq)]
pub struct LaidOut {
    pub length: u32,
    pub passes: u32,
}

// Why a call refused. A section is its index; passes are those made.
#[derive(Clone, Copy, Debug, PartialEq, Eq)]
pub enum Refusal {
    BadDepth,
    BadWord,
    LargeMark,
    BytesFull,
    SectionsFull,
    Damaged { section: u32 },
    ShortTable { section: u32 },
    Unplaced { section: u32 },
    PlacedApart { section: u32 },
    TooNarrow { section: u32, passes: u32 },
    Unsettled,
    Backward { section: u32, passes: u32 },
    ResultFull { passes: u32 },
    ListingFull,
    EntryDiffers { section: u32 },
    StartUnplaced { section: u32 },
    EndUnplaced { section: u32 },
}

impl Refusal {
    // The number of the table of replies.
    // Kept: three functions over one match, since docs/CLAIMS.md names them and a `From` says less than their names.
    pub fn number(self) -> u32
        ensures { result ≡ (refusal_numbers self).number }
    {
        self.numbers().0
    }

    // The first section concerned.
    pub fn section(self) -> u32
        ensures { result ≡ (refusal_numbers self).section }
    {
        self.numbers().1
    }

    // The passes made.
    pub fn passes(self) -> u32
        ensures { result ≡ (refusal_numbers self).passes }
    {
        self.numbers().2
    }

    // Number, section and passes.
    fn numbers(self) -> (u32, u32, u32)
        ensures number { result.0 ≡ (refusal_numbers self).number }
        ensures section { result.1 ≡ (refusal_numbers self).section }
        ensures passes { result.2 ≡ (refusal_numbers self).passes }
    {
        match self {
            Refusal::BadDepth => (1, 0, 0),
            Refusal::BadWord => (2, 0, 0),
            Refusal::LargeMark => (3, 0, 0),
            Refusal::BytesFull => (4, 0, 0),
            Refusal::SectionsFull => (5, 0, 0),
            Refusal::Damaged { section } => (6, section, 0),
            Refusal::ShortTable { section } => (7, section, 0),
            Refusal::Unplaced { section } => (8, section, 0),
            Refusal::PlacedApart { section } => (9, section, 0),
            Refusal::TooNarrow { section, passes } => (10, section, passes),
            Refusal::Unsettled => (11, 0, MAX_PASSES),
            Refusal::Backward { section, passes } => (12, section, passes),
            Refusal::ResultFull { passes } => (13, 0, passes),
            Refusal::ListingFull => (14, 0, 0),
            Refusal::EntryDiffers { section } => (16, section, 0),
            Refusal::StartUnplaced { section } => (17, section, 0),
            Refusal::EndUnplaced { section } => (18, section, 0),
        }
    }
}
