// Reading a sheet: all of it is looked at first, so that a refusal comes before any cell is written. A reader is given the bytes that are
// left, and answers what stood at their front with the bytes after it.
ghost use Rattle.std.specs.Prelude.{◌≡◌, length};
ghost use Rattle.refusals.specs.Steps.{is, NotRefused};
ghost use Rattle.refusals.specs.Given.{given_back};
ghost use Rattle.sheets.specs.Sheet.{take_version, take_side, take_head, take_cell, take_cells, read_sheet};
ghost use Rattle.sheets.specs.Outcome.{size_said, ReadOutcome};
ghost use Rattle.sheets.specs.Inner.{number_read, head_read, cell_read, looked_at, checked_head};

use crate::code::Kind;
use crate::limits::{VERSION, is_sheet_side};
use crate::number::read_number;
use refusals::Refusal;

// What a sheet is.
#[derive(Clone, Copy, Debug, PartialEq, Eq)]
pub struct SheetSize {
    pub kind: Kind,
    pub width: usize,
    pub height: usize,
}

// The version at the front.
#[tactic(auto, unfolding(crate::specs::Sheet::take_version))]
fn read_version(s: &[u8]) -> Result<(u64, &[u8]), Refusal>
    ensures { number_read result ≡ take_version s.now }
{
    let (version, rest) = read_number(s)?;
    if version == VERSION {
        Ok((version, rest))
    } else {
        Err(Refusal::VersionOrKindUnknown)
    }
}

// A width or a height at the front.
#[tactic(auto, unfolding(crate::specs::Sheet::take_side))]
fn read_side(s: &[u8]) -> Result<(usize, &[u8]), Refusal>
    ensures { number_read result ≡ take_side s.now }
{
    let (side, rest) = read_number(s)?;
    if is_sheet_side(side) {
        Ok((side as usize, rest))
    } else {
        Err(Refusal::SheetSize)
    }
}

// The sheet's head.
#[tactic(auto, unfolding(crate::specs::Sheet::take_head))]
fn read_head(s: &[u8]) -> Result<(SheetSize, &[u8]), Refusal>
    ensures { head_read result ≡ take_head s.now }
{
    let (_, s) = read_version(s)?;
    let (number, s) = read_number(s)?;
    let kind = Kind::try_from(number)?;
    let (width, s) = read_side(s)?;
    let (height, s) = read_side(s)?;
    Ok((
        SheetSize {
            kind,
            width,
            height,
        },
        s,
    ))
}

// The cell at the front.
#[tactic(auto, unfolding(crate::specs::Sheet::take_cell))]
fn read_cell(kind: Kind, s: &[u8]) -> Result<(f32, &[u8]), Refusal>
    ensures { cell_read result ≡ take_cell kind s.now }
{
    let (number, rest) = read_number(s)?;
    let x = kind.cell_of(number)?;
    Ok((x, rest))
}

// Looks at `count` cells, after which the bytes must end.
fn check_cells(kind: Kind, count: usize, s: &[u8]) -> Result<(), Refusal>
    ensures { given_back result ≡ looked_at (take_cells kind count s.now) }
{
    let mut rest = s;
    for _ in 0..count {
        let (_, after) = read_cell(kind, rest)?;
        rest = after;
    }
    if rest.is_empty() {
        Ok(())
    } else {
        Err(Refusal::BytesLeftOver)
    }
}

// Reads cells, as many as `out` holds. No cell is refused: they were looked at.
fn fill_cells(kind: Kind, s: &[u8], out: &mut [f32])
    requires { NotRefused (take_cells kind (length out.old) s.now) }
    ensures { take_cells kind (length out.old) s.now ≡ is out.new }
{
    let mut rest = s;
    for cell in out.iter_mut() {
        let Ok((x, after)) = read_cell(kind, rest) else {
            return;
        };
        *cell = x;
        rest = after;
    }
}

// The head of a sheet all of which was looked at, and its cells' bytes.
fn check_sheet(s: &[u8]) -> Result<(SheetSize, &[u8]), Refusal>
    ensures { head_read result ≡ checked_head s.now }
{
    let (size, cells) = read_head(s)?;
    check_cells(size.kind, size.width * size.height, cells)?;
    Ok((size, cells))
}

// What a sheet is, without its cells.
pub fn sheet_size(s: &[u8]) -> Result<SheetSize, Refusal>
    ensures { given_back result ≡ size_said (read_sheet s.now) }
{
    let (size, _) = check_sheet(s)?;
    Ok(size)
}

// Reads a sheet's cells into `out`, which is to be as long as the map.
pub fn read_sheet(s: &[u8], out: &mut [f32]) -> Result<SheetSize, Refusal>
    ensures { ReadOutcome result (read_sheet s.now) out.old out.new }
{
    let (size, cells) = check_sheet(s)?;
    if out.len() != size.width * size.height {
        return Err(Refusal::OutputLength);
    }
    fill_cells(size.kind, cells, out);
    Ok(size)
}
