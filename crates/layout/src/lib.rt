// The two sizes of a record: by the size a sheet is cut into records, and it tells how long a sheet and how many pollutants there may be.
#![tactic(auto)]

ghost use Rattle.std.specs.Prelude.{◌≡◌, ◌*◌, ◌/◌, ◌%◌};
ghost use Rattle.rules.specs.Sheet.{size, most};
ghost use Rattle.layout.specs.Sizes.{width_is, name_of};

use refusals::Reason;

// The size of a record, 20 or 28 bytes: by it a sheet is cut into records, and it tells how many pollutants there may be.
#[derive(Clone, Copy, PartialEq, Eq)]
pub enum Size {
    Twenty,
    TwentyEight,
}

impl Size {
    // "Records of 20 bytes", and 02, F-10: "A 28-byte record has six measurements".
    pub const TWENTY: usize = 20;

    pub const TWENTY_EIGHT: usize = 28;

    // The bytes of the longest sheet. 02, F-1: "A sheet may hold 38 records.", F-2: "The record limit rises by one.", and F-10: "two records
    // more than the old maximum".
    pub const LONGEST_OF_TWENTY: usize = 39 * Size::TWENTY;

    pub const LONGEST_OF_TWENTY_EIGHT: usize = 41 * Size::TWENTY_EIGHT;

    // The bytes of a record.
    pub fn bytes(self) -> usize
        ensures { result ≡ size (width_is self) }
    {
        match self {
            Size::Twenty => Size::TWENTY,
            Size::TwentyEight => Size::TWENTY_EIGHT,
        }
    }

    // The bytes of the longest sheet.
    pub fn longest(self) -> usize
        ensures { result ≡ most (width_is self) * size (width_is self) }
    {
        match self {
            Size::Twenty => Size::LONGEST_OF_TWENTY,
            Size::TwentyEight => Size::LONGEST_OF_TWENTY_EIGHT,
        }
    }

    // The pollutants that a record has measurements of.
    pub fn pollutants(self) -> u32
        ensures { result ≡ width_is self }
    {
        match self {
            Size::Twenty => 4,
            Size::TwentyEight => 6,
        }
    }

    // How many whole records so many bytes are. Each division is by a number of the program: by one that is not known beforehand it
    // would take longer than a record's check.
    pub fn records_in(self, bytes: usize) -> usize
        ensures { result ≡ bytes / size (width_is self) }
    {
        match self {
            Size::Twenty => bytes / Size::TWENTY,
            Size::TwentyEight => bytes / Size::TWENTY_EIGHT,
        }
    }

    // How many bytes are left behind the whole records.
    pub fn left_over(self, bytes: usize) -> usize
        ensures { result ≡ bytes % size (width_is self) }
    {
        match self {
            Size::Twenty => bytes % Size::TWENTY,
            Size::TwentyEight => bytes % Size::TWENTY_EIGHT,
        }
    }
}

// "Callers name the size" (02, F-10), and may name one that there is not: "30, size not 20 or 28".
impl TryFrom<usize> for Size {
    type Error = Reason;

    ghost try_from_gives = { λ bytes r. r ≡ name_of bytes };

    fn try_from(bytes: usize) -> Result<Size, Reason> {
        match bytes {
            Size::TWENTY => Ok(Size::Twenty),
            Size::TWENTY_EIGHT => Ok(Size::TwentyEight),
            _ => Err(Reason::Size),
        }
    }
}
