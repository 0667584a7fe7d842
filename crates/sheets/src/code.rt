// The kinds of a sheet, and the number that stands for a cell in each.
ghost use Rattle.std.specs.Prelude.{◌≡◌, ◌^◌, ◌<◌, suc, true, IfOk};
ghost use Rattle.std.specs.Float.Ieee.Scale.{finite};
ghost use Rattle.refusals.specs.Given.{given_back};
ghost use Rattle.sheets.specs.Code.{kind_number, kind_of, code_of, sheet_cell};

use crate::limits::WHOLE_MOST;
use maps::Cell;
use numbers::plain::{is_finite, magnitude};
use refusals::Refusal;

// What a sheet holds: whole disparities, or any numbers by their bits.
#[derive(Clone, Copy, Debug, PartialEq, Eq)]
pub enum Kind {
    Whole = 0,
    Exact = 1,
}

// The kind of a number.
impl TryFrom<u64> for Kind {
    type Error = Refusal;

    ghost try_from_gives = { λ number kind. given_back kind ≡ kind_of number };

    fn try_from(number: u64) -> Result<Kind, Refusal> {
        match number {
            0 => Ok(Kind::Whole),
            1 => Ok(Kind::Exact),
            _ => Err(Refusal::VersionOrKindUnknown),
        }
    }
}

// The number of a kind.
impl From<Kind> for u64 {
    ghost from_gives = { λ kind number. number ≡ kind_number kind };

    fn from(kind: Kind) -> u64 {
        kind as u64
    }
}

// The number of a finite cell in kind 0, 1 more than the folded one, which is 2n - 1 of -n and 2n of n. Where its whole part gives the
// cell's bits back, the cell has no fraction, and is not minus zero.
fn whole_code(x: f32) -> Result<u64, Refusal>
    requires { finite x ≡ true }
    ensures { given_back result ≡ code_of Kind.Whole x }
{
    let size = magnitude(x);
    if (WHOLE_MOST as f32) < size {
        return Err(Refusal::CellNotWhole);
    }
    let n = std::num::truncating_f32_to_u64(size);
    let whole = n as f32;
    if x < 0.0 {
        if f32::to_bits(-whole) != f32::to_bits(x) {
            return Err(Refusal::CellNotWhole);
        }
        return Ok(n * 2);
    }
    if f32::to_bits(whole) != f32::to_bits(x) {
        return Err(Refusal::CellNotWhole);
    }
    Ok(n * 2 + 1)
}

// The cell of a number above 0 in kind 0, less 1.
fn whole_cell(folded: u64) -> Result<f32, Refusal>
    ensures { given_back result ≡ sheet_cell Kind.Whole (suc folded) }
{
    if WHOLE_MOST * 2 < folded {
        return Err(Refusal::CellNumber);
    }
    if folded % 2 == 0 {
        let above = (folded / 2) as f32;
        return Ok(above);
    }
    let below = (folded / 2 + 1) as f32;
    Ok(-below)
}

// The cell of a number above 0 in kind 1, less 1.
fn exact_cell(bits: u64) -> Result<f32, Refusal>
    ensures { given_back result ≡ sheet_cell Kind.Exact (suc bits) }
{
    if 0xffff_ffff < bits {
        return Err(Refusal::CellNumber);
    }
    // the exponent's field of an infinity and of a NaN
    if (bits >> 23) % 256 == 255 {
        return Err(Refusal::CellNumber);
    }
    Ok(f32::from_bits(bits as u32))
}

impl Kind {
    // The number of a cell.
    pub fn code_of(self, x: f32) -> Result<u64, Refusal>
        ensures is { given_back result ≡ code_of self x }
        ensures small { IfOk result (λ n. n < 2 ^ 35) }
    {
        if x != x {
            return Ok(0);
        }
        if !is_finite(x) {
            return Err(Refusal::CellInfinite);
        }
        match self {
            Kind::Whole => whole_code(x),
            Kind::Exact => Ok(f32::to_bits(x) as u64 + 1),
        }
    }

    // The cell of a number.
    pub fn cell_of(self, code: u64) -> Result<f32, Refusal>
        ensures { given_back result ≡ sheet_cell self code }
    {
        if code == 0 {
            return Ok(f32::from(Cell::Mark));
        }
        match self {
            Kind::Whole => whole_cell(code - 1),
            Kind::Exact => exact_cell(code - 1),
        }
    }
}
