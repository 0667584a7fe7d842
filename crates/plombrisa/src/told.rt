// What an answer tells a host: 0, with its value in the lent numbers; or the number of the refusal, which leaves them as they were.
ghost use Rattle.refusals.specs.Given.{given_back, number_in};
ghost use Rattle.sheets.specs.Given.{said_given};
ghost use Rattle.plombrisa.specs.Host.{HostTold, sides_in, sheet_in, grid_in, figures_in, verdict_in, HostVerdict};
ghost use Rattle.std.specs.Prelude.{◌≡◌};

use netpbm::raster::Size;
use refusals::Refusal;
use sheets::reading::SheetSize;
use vendor::Verdict;
use volume::heap::Figures;
use volume::site::Shape;

// An answer without a value.
pub fn number(answer: Result<(), Refusal>) -> u32
    ensures { result ≡ number_in answer }
{
    match answer {
        Ok(()) => 0,
        Err(refusal) => u32::from(refusal),
    }
}

// An answer of one value.
pub fn tell<T: Copy>(answer: Result<T, Refusal>, lent: &mut T) -> u32
    ensures { HostTold result (given_back answer) lent.old lent.new }
{
    match answer {
        Ok(value) => {
            *lent = value;
            0
        }
        Err(refusal) => u32::from(refusal),
    }
}

// A count.
pub fn tell_count(answer: Result<usize, Refusal>, count: &mut u64) -> u32
    ensures { HostTold result (given_back answer) count.old count.new }
{
    match answer {
        Ok(n) => {
            *count = n as u64;
            0
        }
        Err(refusal) => u32::from(refusal),
    }
}

// The size of a file's raster.
pub fn tell_size(answer: Result<Size, Refusal>, width: &mut u64, height: &mut u64) -> u32
    ensures { HostTold result (given_back answer) (sides_in width.old height.old) (sides_in width.new height.new) }
{
    match answer {
        Ok(size) => {
            *width = size.width as u64;
            *height = size.height as u64;
            0
        }
        Err(refusal) => u32::from(refusal),
    }
}

// What a sheet is.
pub fn tell_sheet(
    answer: Result<SheetSize, Refusal>,
    kind: &mut u64,
    width: &mut u64,
    height: &mut u64,
) -> u32
    ensures { HostTold result (said_given (given_back answer)) (sheet_in kind.old width.old height.old) (sheet_in kind.new width.new height.new) }
{
    match answer {
        Ok(size) => {
            *kind = u64::from(size.kind);
            *width = size.width as u64;
            *height = size.height as u64;
            0
        }
        Err(refusal) => u32::from(refusal),
    }
}

// The shape of a site's grid.
pub fn tell_shape(answer: Result<Shape, Refusal>, columns: &mut u64, rows: &mut u64) -> u32
    ensures { HostTold result (given_back answer) (grid_in columns.old rows.old) (grid_in columns.new rows.new) }
{
    match answer {
        Ok(shape) => {
            *columns = shape.columns as u64;
            *rows = shape.rows as u64;
            0
        }
        Err(refusal) => u32::from(refusal),
    }
}

// A heap's figures.
pub fn tell_heap(
    answer: Result<Figures, Refusal>,
    volume: &mut u64,
    inside: &mut u64,
    outside: &mut u64,
    empty: &mut u64,
) -> u32
    ensures { HostTold result (given_back answer) (figures_in volume.old inside.old outside.old empty.old) (figures_in volume.new inside.new outside.new empty.new) }
{
    match answer {
        Ok(figures) => {
            *volume = figures.volume;
            *inside = figures.inside as u64;
            *outside = figures.outside as u64;
            *empty = figures.empty as u64;
            0
        }
        Err(refusal) => u32::from(refusal),
    }
}

// Whether a vendor's map passed, 1 or 0, and column and row of the first bad cell.
pub fn tell_verdict(
    answer: Result<Verdict, Refusal>,
    passed: &mut u32,
    x: &mut u64,
    y: &mut u64,
) -> u32
    ensures { HostVerdict result (given_back answer) (verdict_in passed.old x.old y.old) (verdict_in passed.new x.new y.new) }
{
    match answer {
        Ok(Verdict::Yes) => {
            *passed = 1;
            0
        }
        Ok(Verdict::No(column, row)) => {
            *passed = 0;
            *x = column as u64;
            *y = row as u64;
            0
        }
        Err(refusal) => u32::from(refusal),
    }
}
