// The grey picture: row-major bytes, read at a pixel and between pixels, with the Rust's clamping and its order of products and sums.
#![tactic(auto)]

ghost use Rattle.std.specs.Prelude.{◌≡◌, ◌<◌, true, false, length, is_nan, IfOk};
ghost use Rattle.lists.specs.Rows.{level_at};
ghost use Rattle.options.specs.Limits.{is_side};
ghost use Rattle.refusals.specs.Answered.{first_of};
ghost use Rattle.refusals.specs.Given.{given_back, number_in};
ghost use Rattle.pictures.specs.Picture.{shape_rows, pixel_of};
ghost use Rattle.pictures.specs.Bilinear.{place_of, blended, value_at, sample_of};

use options::is_side;
use refusals::Refusal;

// Where a coordinate lies along one side: the pixel at or before it, the next one, and the next one's share.
#[derive(Drop)]
struct Place {
    first: usize,
    next: usize,
    share: f64,
}

// A picture that is not refused.
#[derive(Clone, Copy)]
struct Picture<'a> {
    bytes: &'a [u8],
    width: usize,
    height: usize,
    ghost good: { first_of (shape_rows (length bytes.now) width height) ≡ 0 },
}

impl<'a> Picture<'a> {
    // The picture, or why it is refused: a side out of its range, or a wrong number of bytes.
    #[tactic(auto, unfolding(refusals::specs::Answered::first_of))]
    fn new(bytes: &'a [u8], width: usize, height: usize) -> Result<Picture<'a>, Refusal>
        ensures number { number_in result ≡ first_of (shape_rows (length bytes.now) width height) }
        ensures kept { IfOk result (λ p. (p.bytes.now ≡ bytes.now) × (p.width ≡ width) × (p.height ≡ height)) }
    {
        if !is_side(width) || !is_side(height) {
            return Err(Refusal::SizeOutOfRange);
        }
        if bytes.len() != width * height {
            return Err(Refusal::ByteCount);
        }
        Ok(Picture {
            bytes,
            width,
            height,
        })
    }

    // The byte of a pixel inside.
    fn level(self, x: usize, y: usize) -> u8
        requires x_in { x < self.width }
        requires y_in { y < self.height }
        ensures { result ≡ level_at self.entry.width self.entry.bytes.now x y }
    {
        self.bytes[y * self.width + x]
    }

    // The value between pixels.
    #[tactic(auto, using(crate::proofs::Shapes::sides), unfolding(crate::specs::Bilinear::value_at))]
    fn value(self, xf: f64, yf: f64) -> f64
        requires x_is { is_nan xf ≡ false }
        requires y_is { is_nan yf ≡ false }
        ensures { result ≡ value_at self.entry.bytes.now self.entry.width self.entry.height xf yf }
    {
        let x = place_on_side(self.width, xf);
        let y = place_on_side(self.height, yf);
        let p00 = f64::from(self.level(x.first, y.first));
        let p10 = f64::from(self.level(x.next, y.first));
        let p01 = f64::from(self.level(x.first, y.next));
        let p11 = f64::from(self.level(x.next, y.next));
        blend(p00, p10, p01, p11, x.share, y.share)
    }
}

// Where the coordinate t lies along a side of n pixels.
fn place_on_side(n: usize, t: f64) -> Place
    requires side { is_side n ≡ true }
    requires number { is_nan t ≡ false }
    ensures place { result ≡ place_of n t }
    ensures inside { (result.first < n) × (result.next < n) }
{
    let along = t.clamp(0.0, n as f64 - 1.0);
    let first = std::num::truncating_f64_to_u64(along) as usize;
    Place {
        first,
        next: (first + 1).min(n - 1),
        share: along - first as f64,
    }
}

// The four levels, each times its shares, added in the Rust's order.
fn blend(p00: f64, p10: f64, p01: f64, p11: f64, dx: f64, dy: f64) -> f64
    ensures { result ≡ blended p00 p10 p01 p11 dx dy }
{
    p00 * (1.0 - dx) * (1.0 - dy) + p10 * dx * (1.0 - dy) + p01 * (1.0 - dx) * dy + p11 * dx * dy
}

// The level of the pixel (x, y).
#[tactic(auto, using(crate::proofs::Refusing::checked), unfolding(refusals::specs::Answered::first_of, crate::specs::Picture::pixel_of))]
pub fn pixel(pic: &[u8], width: usize, height: usize, x: usize, y: usize) -> Result<u8, Refusal>
    ensures { given_back result ≡ pixel_of pic.now width height x y }
{
    let picture = Picture::new(pic, width, height)?;
    if width <= x || height <= y {
        return Err(Refusal::PixelOutside);
    }
    Ok(picture.level(x, y))
}

// The picture read at (xf, yf), clamped to its border.
#[tactic(auto, using(crate::proofs::Refusing::checked), unfolding(refusals::specs::Answered::first_of, crate::specs::Bilinear::sample_of))]
pub fn bilinear(pic: &[u8], width: usize, height: usize, xf: f64, yf: f64) -> Result<f64, Refusal>
    ensures { given_back result ≡ sample_of pic.now width height xf yf }
{
    let picture = Picture::new(pic, width, height)?;
    if xf.is_nan() || yf.is_nan() {
        return Err(Refusal::CoordinateNan);
    }
    Ok(picture.value(xf, yf))
}
