// Reading a PGM picture: all of it is judged first, so that a refusal comes before any level is written.
ghost use Rattle.std.specs.Prelude.{◌≡◌};
ghost use Rattle.refusals.specs.Given.{given_back};
ghost use Rattle.netpbm.specs.Pgm.{take_pgm_head, read_pgm};
ghost use Rattle.netpbm.specs.Outcome.{size_of, ReadOutcome};
ghost use Rattle.netpbm.specs.Inner.{pgm_read, held_pgm, PictureAs};

use crate::header::{read_spaced, read_white, read_word};
use crate::raster::{Size, judge_size};
use lists::copy_cells;
use refusals::Refusal;

// The largest level, which is the only maximum that is read.
const MAXIMUM: u64 = 255;

// Width, height and maximum, as the header says them.
#[derive(Clone, Copy)]
pub struct PgmNumbers {
    pub width: u64,
    pub height: u64,
    pub maximum: u64,
}

// The header.
#[tactic(auto, using(crate::proofs::Headers::held_is, crate::proofs::Headers::held_refused), unfolding(crate::specs::Pgm::take_pgm_head))]
fn read_pgm_head(s: &[u8]) -> Result<(PgmNumbers, &[u8]), Refusal>
    ensures { pgm_read result ≡ held_pgm (take_pgm_head s.now) }
{
    let s = read_word(s, b"P5")?;
    let (width, s) = read_spaced(s)?;
    let (height, s) = read_spaced(s)?;
    let (maximum, s) = read_spaced(s)?;
    let rest = read_white(s)?;
    Ok((
        PgmNumbers {
            width,
            height,
            maximum,
        },
        rest,
    ))
}

// The size of a picture all of which was judged, and its levels.
#[tactic(auto, using(crate::proofs::Readings::picture_none, crate::proofs::Readings::picture_maximum, crate::proofs::Readings::picture_refused, crate::proofs::Readings::picture_is))]
fn judge_pgm(s: &[u8]) -> Result<(Size, &[u8]), Refusal>
    ensures { PictureAs s.now result }
{
    let (head, levels) = read_pgm_head(s)?;
    if head.maximum != MAXIMUM {
        return Err(Refusal::FileMaximum);
    }
    let size = judge_size(1, head.width, head.height, levels)?;
    Ok((size, levels))
}

// The size of a picture, without its levels.
pub fn pgm_size(s: &[u8]) -> Result<Size, Refusal>
    ensures { given_back result ≡ size_of (read_pgm s.now) }
{
    let (size, _) = judge_pgm(s)?;
    Ok(size)
}

// Reads a picture's levels into `out`, which is to be as long as the picture.
#[tactic(auto, using(crate::proofs::Readings::read_refused, crate::proofs::Readings::read_unfit, crate::proofs::Readings::read_done))]
pub fn read_pgm(s: &[u8], out: &mut [u8]) -> Result<Size, Refusal>
    ensures { ReadOutcome result (read_pgm s.now) out.old out.new }
{
    let (size, levels) = judge_pgm(s)?;
    if out.len() != size.width * size.height {
        return Err(Refusal::FileOutput);
    }
    copy_cells(out, levels);
    Ok(size)
}
