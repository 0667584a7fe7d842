// What every call that may be refused shares: the reasons to refuse, rows of reasons tested by their place, what is answered, and what is
// lent afterwards. specs/ has the words, proofs/ the laws. Here are the reasons themselves, which a refused call answers.
#![tactic(auto)]

ghost use Rattle.std.specs.Prelude.{◌≡◌};
ghost use Rattle.refusals.specs.Numbers.{number_of};

use std::error::Error;
use std::fmt;

// Why a call is refused: a reason, with its number for hosts.
#[derive(Clone, Copy, Debug, PartialEq, Eq)]
pub enum Refusal {
    SizeOutOfRange = 1,
    ByteCount = 2,
    SizesDiffer = 3,
    BlockEven = 4,
    BlockTooLarge = 5,
    CountNotPositive = 6,
    CountTooLarge = 7,
    PictureSmallerThanBlock = 8,
    FirstOutOfRange = 9,
    PenaltyOutOfRange = 10,
    PenaltiesReversed = 13,
    OutputLength = 11,
    RoomTooShort = 12,
    CameraOutOfRange = 21,
    BaselineOutOfRange = 22,
    MapSize = 23,
    ListTooShort = 24,
    CoordinateNan = 25,
    PixelOutside = 26,
    IndexLength = 28,
    CellInfinite = 31,
    CellNotWhole = 32,
    OutputTooShort = 33,
    NumberUnfit = 34,
    VersionOrKindUnknown = 35,
    SheetSize = 36,
    CellNumber = 37,
    BytesLeftOver = 38,
    FileHeader = 41,
    FileMaximum = 42,
    FileSize = 43,
    FileData = 44,
    FileOutput = 45,
    CellSide = 51,
    DistanceOutOfRange = 52,
    RectangleSides = 53,
    TooManyCells = 54,
    GridLength = 55,
}

impl Refusal {
    // The number that hosts are given.
    pub fn number(self) -> u8
        ensures { result ≡ number_of self }
    {
        self as u8
    }
}

impl From<Refusal> for u32 {
    ghost from_gives = { λ refusal number. number ≡ number_of refusal };

    fn from(refusal: Refusal) -> u32 {
        u32::from(refusal.number())
    }
}

// The reason as a sentence.
impl fmt::Display for Refusal {
    fn fmt<W: fmt::Write>(&self, f: &mut fmt::Formatter<W>) -> fmt::Result {
        f.write_str(match self {
            Refusal::SizeOutOfRange => "a picture's width or height is outside 1 to 2,048",
            Refusal::ByteCount => "a picture's byte count is not its width times its height",
            Refusal::SizesDiffer => "the two pictures are not of one size",
            Refusal::BlockEven => "the block's side is zero or even",
            Refusal::BlockTooLarge => "the block's side is over 31",
            Refusal::CountNotPositive => "the number of disparities is zero or negative",
            Refusal::CountTooLarge => "the number of disparities is over 256",
            Refusal::PictureSmallerThanBlock => "the pictures are narrower or lower than the block",
            Refusal::FirstOutOfRange => "the first disparity is outside -4,096 to 4,096",
            Refusal::PenaltyOutOfRange => "a penalty is not finite or outside 0 to 1,024",
            Refusal::PenaltiesReversed => "the penalty sgm_p2 is below sgm_p1",
            Refusal::OutputLength => "the output's length does not fit",
            Refusal::RoomTooShort => "a room is too short",
            Refusal::CameraOutOfRange =>
                "fx or fy is not finite and positive, or cx or cy is not finite",
            Refusal::BaselineOutOfRange => "the baseline is not finite or not over 1e-12",
            Refusal::MapSize =>
                "the map's width or height is outside 1 to 2,048 or not the pictures', or its length does not fit them",
            Refusal::ListTooShort => "the list is shorter than the points to write",
            Refusal::CoordinateNan => "a coordinate is NaN",
            Refusal::PixelOutside => "the pixel is outside the picture or the map",
            Refusal::IndexLength => "the index's length is not the number of rows",
            Refusal::CellInfinite => "a cell is infinite",
            Refusal::CellNotWhole => "a cell is minus zero, a fraction, or outside -8,192 to 8,192",
            Refusal::OutputTooShort => "the output is too short for the sheet",
            Refusal::NumberUnfit =>
                "a number of the sheet is cut, not in its shortest form, or has more than five groups",
            Refusal::VersionOrKindUnknown => "the sheet's version or kind is unknown",
            Refusal::SheetSize => "the sheet's width or height is outside 1 to 2,048",
            Refusal::CellNumber => "the sheet has a number that no cell has",
            Refusal::BytesLeftOver => "the sheet has bytes left over",
            Refusal::FileHeader => "the file's header is not one of its format",
            Refusal::FileMaximum => "the file's maximum is not 255",
            Refusal::FileSize => "the file's width or height is outside 1 to 2,048",
            Refusal::FileData => "the file's data are cut, or bytes are left over",
            Refusal::FileOutput => "the output's length does not fit the file",
            Refusal::CellSide => "the cell's side is outside 10 to 10,000 mm",
            Refusal::DistanceOutOfRange =>
                "a coordinate is not finite, or it, an edge or the floor's depth is over 100,000 mm in size, or the coordinates' lists are not of one length",
            Refusal::RectangleSides =>
                "the rectangle's sides are not positive whole multiples of the cell's",
            Refusal::TooManyCells => "the rectangle has more than 65,536 cells",
            Refusal::GridLength => "the grid's length is not the number of cells",
        })
    }
}

impl Error for Refusal {}
