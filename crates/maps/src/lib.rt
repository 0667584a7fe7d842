// A disparity map over cells that the caller owns: one cell, whether it is valid, how many are, the least and the greatest, and the
// cover figure. `MapView` holds the sizes and the slice; what the functions answer is said of the three.
#![tactic(auto)]

ghost use Rattle.std.specs.Prelude.{◌≡◌, cond, length};
ghost use Rattle.std.specs.Float.Ieee.Scale.{finite};
ghost use Rattle.refusals.specs.Answered.{first_of};
ghost use Rattle.refusals.specs.Given.{given_back, number_in};
ghost use Rattle.refusals.specs.Outcome.{answer_for};
ghost use Rattle.maps.specs.Cells.{in_buffer, cell_of};
ghost use Rattle.maps.specs.Inner.{Framed};
ghost use Rattle.maps.specs.Map.{good_size, size_rows, pixel_rows, cover_rows, pixel, got_at, valid_at, valids, valid_count, inner_valids, cover_of, lesser_of, greater_of, range_of, valid_range};

use numbers::plain::is_finite;
use options::{is_block_even, is_block_large, is_side, is_too_small};
use refusals::Refusal;

// One cell of a map: the mark of a cell that has no number, or a number. It is no `Option`: the specification names this enum and its
// cases.
#[derive(Clone, Copy, Debug, PartialEq)]
pub enum Cell {
    Mark,
    At(f32),
}

// A cell in a float buffer: the mark is a NaN, made in this one place so that its bits are always the same.
impl From<Cell> for f32 {
    ghost from_gives = { λ cell number. number ≡ in_buffer cell };

    fn from(cell: Cell) -> f32 {
        match cell {
            Cell::Mark => 0.0 / 0.0,
            Cell::At(d) => d,
        }
    }
}

// The cell that a number of a float buffer stands for: every NaN is the mark.
impl From<f32> for Cell {
    ghost from_gives = { λ number cell. cell ≡ cell_of number };

    fn from(number: f32) -> Cell {
        if number.is_nan() {
            Cell::Mark
        } else {
            Cell::At(number)
        }
    }
}

// The least and the greatest valid number of some cells.
#[derive(Clone, Copy, Debug, PartialEq)]
pub struct Span {
    pub least: f32,
    pub greatest: f32,
}

// Whether a map has a width and a height in their range, and as many cells as pixels.
#[tactic(auto, unfolding(crate::specs::Map::good_size))]
pub fn size_good(width: usize, height: usize, length: usize) -> bool
    ensures { result ≡ good_size width height length }
{
    is_side(width) && is_side(height) && length == width * height
}

// What refuses a question about a map.
#[tactic(auto, unfolding(refusals::specs::Answered::first_of))]
pub fn check_size(width: usize, height: usize, length: usize) -> Result<(), Refusal>
    ensures { number_in result ≡ first_of (size_rows width height length) }
{
    if size_good(width, height, length) {
        Ok(())
    } else {
        Err(Refusal::MapSize)
    }
}

// What refuses a question about one pixel of a map.
#[tactic(auto, unfolding(refusals::specs::Answered::first_of, crate::specs::Map::inside))]
pub fn check_pixel(
    width: usize,
    height: usize,
    length: usize,
    x: usize,
    y: usize,
) -> Result<(), Refusal>
    ensures { number_in result ≡ first_of (pixel_rows width height length x y) }
{
    check_size(width, height, length)?;
    if x < width && y < height {
        Ok(())
    } else {
        Err(Refusal::PixelOutside)
    }
}

// What refuses a question about a map's cover.
#[tactic(auto, unfolding(refusals::specs::Answered::first_of))]
fn check_cover(width: usize, height: usize, length: usize, block: usize) -> Result<(), Refusal>
    ensures { number_in result ≡ first_of (cover_rows width height length block) }
{
    check_size(width, height, length)?;
    if is_block_even(block) {
        return Err(Refusal::BlockEven);
    }
    if is_block_large(block) {
        return Err(Refusal::BlockTooLarge);
    }
    if is_too_small(width, height, block) {
        return Err(Refusal::PictureSmallerThanBlock);
    }
    Ok(())
}

// How many numbers of a slice are finite. A loop, since a filtered count takes three times as long.
pub fn valids_in(cells: &[f32]) -> usize
    ensures { result ≡ valids cells.now }
{
    let mut n: usize = 0;
    for x in cells {
        if is_finite(*x) {
            n += 1;
        }
    }
    n
}

// The lesser of a further number and the least: an equal one leaves the least, which `min` does not promise of the two zeros.
fn lesser(x: f32, least: f32) -> f32
    ensures { result ≡ lesser_of x least }
{
    if x < least { x } else { least }
}

// The greater of a further number and the greatest.
fn greater(x: f32, greatest: f32) -> f32
    ensures { result ≡ greater_of x greatest }
{
    if greatest < x { x } else { greatest }
}

// A number where it is valid, and else z.
fn valid_or(x: f32, z: f32) -> f32
    ensures { result ≡ cond (finite x) x z }
{
    if is_finite(x) { x } else { z }
}

// The least and the greatest of a slice's valid numbers. Infinities stand for none, so that no step asks whether it is the first.
pub fn range_in(cells: &[f32]) -> Option<Span>
    ensures { result ≡ range_of cells.now }
{
    let mut least = f32::INFINITY;
    let mut greatest = f32::NEG_INFINITY;
    for x in cells {
        least = lesser(valid_or(*x, f32::INFINITY), least);
        greatest = greater(valid_or(*x, f32::NEG_INFINITY), greatest);
    }
    is_finite(least).then_some(Span { least, greatest })
}

// A map that borrows the caller's own cells.
#[derive(Clone, Copy, Debug)]
pub struct MapView<'a> {
    pub width: usize,
    pub height: usize,
    pub cells: &'a [f32],
}

impl<'a> MapView<'a> {
    // A view of the caller's cells.
    pub fn new(width: usize, height: usize, cells: &'a [f32]) -> MapView<'a>
        ensures { (result.width ≡ width) × ((result.height ≡ height) × (result.cells ≡ cells.entry)) }
    {
        MapView {
            width,
            height,
            cells,
        }
    }

    // The number in the buffer of a pixel.
    #[tactic(auto, using(crate::proofs::Facts::seat))]
    fn number_at(self, x: usize, y: usize) -> Result<f32, Refusal>
        ensures { given_back result ≡ answer_for (first_of (pixel_rows self.entry.width self.entry.height (length self.entry.cells.now) x y)) (pixel self.entry.width self.entry.cells.now x y) }
    {
        check_pixel(self.width, self.height, self.cells.len(), x, y)?;
        Ok(self.cells[y * self.width + x])
    }

    // The cell of a pixel.
    #[tactic(auto, unfolding(crate::specs::Map::got_at))]
    pub fn get(self, x: usize, y: usize) -> Result<Cell, Refusal>
        ensures { given_back result ≡ got_at self.entry.width self.entry.height self.entry.cells.now x y }
    {
        let number = self.number_at(x, y)?;
        Ok(Cell::from(number))
    }

    // Whether the cell of a pixel is valid, which a finite number is.
    #[tactic(auto, unfolding(crate::specs::Map::valid_at))]
    pub fn valid(self, x: usize, y: usize) -> Result<bool, Refusal>
        ensures { given_back result ≡ valid_at self.entry.width self.entry.height self.entry.cells.now x y }
    {
        let number = self.number_at(x, y)?;
        Ok(is_finite(number))
    }

    // How many cells are valid.
    #[tactic(auto, unfolding(crate::specs::Map::valid_count))]
    pub fn valid_count(self) -> Result<usize, Refusal>
        ensures { given_back result ≡ valid_count self.entry.width self.entry.height self.entry.cells.now }
    {
        check_size(self.width, self.height, self.cells.len())?;
        Ok(valids_in(self.cells))
    }

    // The least and the greatest valid number, where one is valid.
    #[tactic(auto, unfolding(crate::specs::Map::valid_range))]
    pub fn valid_range(self) -> Result<Option<Span>, Refusal>
        ensures { given_back result ≡ valid_range self.entry.width self.entry.height self.entry.cells.now }
    {
        check_size(self.width, self.height, self.cells.len())?;
        Ok(range_in(self.cells))
    }

    // How many cells of the inner frame are valid: of each of its rows the part that lies within.
    fn inner_valids(self, r: usize) -> usize
        requires { Framed self.width self.height r (length self.cells.now) }
        ensures { result ≡ inner_valids self.entry.width self.entry.height r self.entry.cells.now }
    {
        let mut n: usize = 0;
        for y in r..self.height - r {
            let row = y * self.width;
            n += valids_in(&self.cells[row + r..row + (self.width - r)]);
        }
        n
    }
}

// The cover figure by a block: valid cells of the inner frame to a thousand, rounded down.
#[tactic(auto, unfolding(crate::specs::Map::cover_of))]
pub fn cover(map: MapView, block: usize) -> Result<usize, Refusal>
    ensures { given_back result ≡ cover_of map.entry.width map.entry.height map.entry.cells.now block }
{
    check_cover(map.width, map.height, map.cells.len(), block)?;
    let r = block / 2;
    let n = map.inner_valids(r);
    Ok(1000 * n / ((map.width - 2 * r) * (map.height - 2 * r)))
}
