// The refusals of documents 01 and 02: each with its number there, and with the words of the table.
ghost use Rattle.std.specs.Prelude.{◌≡◌};
ghost use Rattle.metrics.specs.Refusals.{refusal_number};
ghost use Rattle.metrics.specs.Promises.{ToldPromise};

#[derive(Clone, Copy, Debug, PartialEq, Eq)]
pub enum Refusal {
    // k not 1 to 6
    BadK = 1,
    // a float setting is NaN or outside its range
    BadFloat = 2,
    // a whole-number setting over its limit
    BadNumber = 3,
    // no variants
    NoVariants = 4,
    // over 64 variants or over 64 parts
    TooMany = 5,
    // lent lengths disagree with V, m or 4^k
    BadLengths = 6,
    // a start is greater than its end
    StartAfterEnd = 7,
    // a start is less than the row before's
    FallingStart = 8,
    // a size over its limit
    BadSize = 9,
    // a feature row over its limit
    BadRow = 10,
    // search mode, and queue room under 1 + (maxpaths + 1) × V entries
    QueueRoom = 11,
    // answer room under V rows
    AnswerRoom = 12,
    // a sequence over its letter limit
    TooManyLetters = 13,
    // a repeated record number
    RepeatedNumber = 14,
    // a variant's feature row is all zero
    EmptyRow = 16,
    // unknown kind
    UnknownKind = 20,
    // input ends inside a record or without 0x00
    CutShort = 21,
    // out of place
    OutOfPlace = 22,
    // padding not zero
    BadPadding = 23,
    // a flag not 0 or 1
    BadFlag = 24,
    // bytes after 0x00
    BytesAfterEnd = 25,
    // over the program's own limits
    TooLarge = 26,
    // not 1 to 16 haplotypes
    TooManyHaplotypes = 27,
    // a record number is not its row
    NumberNotRow = 28,
    // letters is 1
    LettersOne = 29,
    // too little room
    LittleRoom = 30,
    // a bad line of BED, or a bad name to write
    BadLine = 40,
    // a second name in BED
    SecondName = 41,
    // a sixty-fifth line of BED
    TooManyLines = 42,
    // too little room for BED text
    LittleTextRoom = 43,
    // a row that isn't there
    MissingRow = 44,
    // a version that isn't there
    MissingVersion = 45,
    // all 255 versions are used
    VersionsUsed = 46,
    // fewer than 43 bytes left in the book
    LittleBookRoom = 47,
    // a book that breaks its rules or holds settings we would refuse
    BrokenBook = 48,
    // a sheet that isn't its table's, or a table that breaks 5 to 8
    NotItsSheet = 49,
    // a sample count not 1 to 8
    BadSamples = 50,
    // a sample index at or above the sample count
    NoSuchSample = 51,
    // unequal sample counts
    UnequalSamples = 52,
    // a coverage sum passes 64 bits
    CoverageOverflow = 53,
    // a proposal over 64 rows or over 64 positions
    LongProposal = 54,
}

impl From<Refusal> for u32 {
    ghost from_gives = { λ refusal n. n ≡ refusal_number refusal };

    fn from(refusal: Refusal) -> u32 {
        refusal as u32
    }
}

// The number of an accepted call.
pub const ACCEPTED: u32 = 0;

// What a check found, as one number: that of the refusal, or 0 where there is none.
pub fn told(found: Result<(), Refusal>) -> u32
    ensures { ToldPromise found result }
{
    match found {
        Ok(()) => ACCEPTED,
        Err(refusal) => refusal.into(),
    }
}
