// What version 1 of the sheet holds.
ghost use Rattle.std.specs.Prelude.{◌≡◌};
ghost use Rattle.sheets.specs.Limits.{is_sheet_side};

pub const VERSION: u64 = 1;

// Width and height.
pub const SHEET_SIDE_MOST: u64 = 2048;

// A whole disparity, either way.
pub const WHOLE_MOST: u64 = 8192;

// A width or a height that a sheet of this version holds.
pub fn is_sheet_side(n: u64) -> bool
    ensures { result ≡ is_sheet_side n }
{
    if n < 1 {
        return false;
    }
    n <= SHEET_SIDE_MOST
}
