// What a match is asked for: the options, the raw cost as a type, and the sizes allowed.
#![tactic(auto)]

ghost use Rattle.std.specs.Prelude.{◌≡◌};
ghost use Rattle.options.specs.Limits.{is_side, block_even, block_large, too_small};
ghost use Rattle.options.specs.Frame.{within, is_in_frame};
ghost use Rattle.options.specs.Options.{mode_of, uses_paths, default_options};
ghost use Rattle.options.specs.Costs.{stored, raw_of};

// The sizes allowed (docs/SPECIFICATION.md, "Sizes and rooms"): width and height, the block's side, disparities searched, the first
// disparity either way, and a penalty.
pub const SIDE_MOST: usize = 2048;

pub const BLOCK_MOST: usize = 31;

pub const COUNT_MOST: i32 = 256;

pub const FIRST_MOST: i32 = 4096;

pub const PENALTY_MOST: f32 = 1024.0;

// A width or a height in its range.
pub fn is_side(n: usize) -> bool
    ensures { result ≡ is_side n }
{
    if n < 1 {
        return false;
    }
    n <= SIDE_MOST
}

// A block side that is zero or even.
pub fn is_block_even(block: usize) -> bool
    ensures { result ≡ block_even block }
{
    block % 2 == 0
}

// A block side over its limit.
pub fn is_block_large(block: usize) -> bool
    ensures { result ≡ block_large block }
{
    BLOCK_MOST < block
}

// A picture, or a map, narrower or lower than the block.
pub fn is_too_small(w: usize, h: usize, block: usize) -> bool
    ensures { result ≡ too_small w h block }
{
    if w < block { true } else { h < block }
}

// A window centred at x lies within n pixels: r ≤ x < n - r.
pub fn is_within(n: usize, r: usize, x: usize) -> bool
    ensures { result ≡ within n r x }
{
    if x < r {
        return false;
    }
    if n < r {
        return false;
    }
    x < n - r
}

// The inner frame: r ≤ x < w - r and r ≤ y < h - r.
pub fn is_inner(w: usize, h: usize, r: usize, x: usize, y: usize) -> bool
    ensures { result ≡ is_in_frame w h r x y }
{
    if is_within(w, r, x) {
        is_within(h, r, y)
    } else {
        false
    }
}

// A raw cost: blank, or a correlation. It is no `Option`: the specification names this enum and its cases.
#[derive(Clone, Copy, Debug, PartialEq)]
pub enum RawCost {
    Blank,
    Corr(f32),
}

// A raw cost in a float buffer: blank is negative infinity.
impl From<RawCost> for f32 {
    ghost from_gives = { λ cost cell. cell ≡ stored cost };

    fn from(cost: RawCost) -> f32 {
        match cost {
            RawCost::Blank => -1.0 / 0.0,
            RawCost::Corr(v) => v,
        }
    }
}

// The raw cost that a cell of a float buffer holds.
impl From<f32> for RawCost {
    ghost from_gives = { λ cell cost. cost ≡ raw_of cell };

    fn from(cell: f32) -> RawCost {
        if cell == -1.0 / 0.0 {
            RawCost::Blank
        } else {
            RawCost::Corr(cell)
        }
    }
}

// Which picture is the reference.
#[derive(Clone, Copy, Debug, PartialEq, Eq)]
pub enum Side {
    Left,
    Right,
}

// How a disparity is chosen: by the raw costs themselves, or by costs added up along eight paths.
#[derive(Clone, Copy, Debug, PartialEq, Eq)]
pub enum Mode {
    Block,
    SemiGlobal,
}

impl Mode {
    // The mode of a flag, as hosts and the print program give it: semi-global or not. No `From<bool>`: it would not say which is which.
    pub fn of_flag(semi_global: bool) -> Mode
        ensures { result ≡ mode_of semi_global }
    {
        if semi_global {
            Mode::SemiGlobal
        } else {
            Mode::Block
        }
    }

    // Whether costs are added up along paths: then penalties are read, and the float room is the larger one.
    pub fn uses_paths(self) -> bool
        ensures { result ≡ uses_paths self }
    {
        match self {
            Mode::Block => false,
            Mode::SemiGlobal => true,
        }
    }
}

// The options of a match.
#[derive(Clone, Copy, Debug, PartialEq)]
pub struct BlockMatchOptions {
    // The first disparity, in pixels, and how many are searched.
    pub min_disparity: i32,
    pub num_disparities: i32,
    // The side of the square window, in pixels: odd.
    pub block_size: usize,
    // A pixel whose best raw cost is below this is blank.
    pub min_correlation: f32,
    // A pixel whose best raw cost is less than this above its competitor is blank.
    pub uniqueness_ratio: f32,
    // Whether a map made from the right has to confirm each disparity, and how far it may be off.
    pub lr_consistency: bool,
    pub lr_max_diff: f32,
    // Whether a disparity is refined by its neighbours.
    pub subpixel: bool,
    // How a disparity is chosen, and the penalties along a path for a step of 1 and for a larger one.
    pub mode: Mode,
    pub sgm_p1: f32,
    pub sgm_p2: f32,
}

impl BlockMatchOptions {
    // A raw cost where there is none.
    pub const BLANK: RawCost = RawCost::Blank;
    // The matching cost of a blank raw cost.
    pub const WORST_COST: f32 = 2.0;

    // The options where none are given.
    pub fn defaults() -> Self
        ensures { result ≡ default_options }
    {
        Self {
            min_disparity: 0,
            num_disparities: 64,
            block_size: 7,
            min_correlation: 0.5,
            uniqueness_ratio: 0.03,
            lr_consistency: true,
            lr_max_diff: 1.0,
            subpixel: true,
            mode: Mode::Block,
            sgm_p1: 0.1,
            sgm_p2: 1.5,
        }
    }
}
