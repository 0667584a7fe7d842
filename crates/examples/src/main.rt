// The specification's examples that are run: a line for each, `ok` or `WRONG` and what it shows.
#![tactic(auto)]

ghost use Rattle.std.specs.Prelude.{◌≡◌, ◌*◌, ◌≤◌};

use matching::match_block;
use options::{BlockMatchOptions, Mode};
use std::io;

// Two pictures of one size.
#[derive(Clone, Copy)]
struct Pair<'a> {
    left: &'a [u8],
    right: &'a [u8],
    w: usize,
    h: usize,
}

impl<'a> Pair<'a> {
    // A picture and the same one again.
    fn twice(picture: &'a [u8], w: usize, h: usize) -> Pair<'a>
        ensures w { result.w ≡ w }
        ensures h { result.h ≡ h }
    {
        Pair {
            left: picture,
            right: picture,
            w,
            h,
        }
    }
}

// The cells of 31 by 31 pixels, and the rooms of block 31 on them (5·32·32 whole numbers) and of count 256 on 3 by 3 pixels
// (256·9 + 9 floats).
#[derive(Drop)]
struct Rooms {
    cells: [f32; 961],
    whole: [u64; 5120],
    float: [f32; 2313],
}

impl Rooms {
    fn new() -> Rooms {
        Rooms {
            cells: [0.0; 961],
            whole: [0; 5120],
            float: [0.0; 2313],
        }
    }

    // The number given back for a match, or 0.
    fn number(&mut self, pair: Pair, opts: BlockMatchOptions) -> u32
        requires { pair.w * pair.h ≤ 961 }
    {
        let cells: &mut [f32] = &mut self.cells;
        let map = &mut cells[..pair.w * pair.h];
        matched(pair, opts, map, &mut self.whole, &mut self.float)
    }

    // Whether a match is accepted and has the map.
    fn has_map(&mut self, pair: Pair, opts: BlockMatchOptions, map: &[f32]) -> bool
        requires { pair.w * pair.h ≤ 961 }
    {
        let cells: &mut [f32] = &mut self.cells;
        let found = &mut cells[..pair.w * pair.h];
        let number = matched(pair, opts, found, &mut self.whole, &mut self.float);
        number == 0 && are_same(found, map)
    }
}

// The number given back for a match, or 0 and the map.
fn matched(
    pair: Pair,
    opts: BlockMatchOptions,
    map: &mut [f32],
    whole: &mut [u64],
    float: &mut [f32],
) -> u32 {
    match match_block(
        pair.left, pair.w, pair.h, pair.right, pair.w, pair.h, opts, map, whole, float,
    ) {
        Ok(()) => 0,
        Err(refusal) => u32::from(refusal),
    }
}

// An example's options; the others are the defaults, and so the first disparity is 0.
fn with(count: i32, block: usize, semi_global: bool, left_right: bool) -> BlockMatchOptions {
    BlockMatchOptions {
        num_disparities: count,
        block_size: block,
        lr_consistency: left_right,
        mode: Mode::of_flag(semi_global),
        ..BlockMatchOptions::defaults()
    }
}

// Whether two cells are one number, or marks both.
fn is_same(a: f32, b: f32) -> bool {
    if a != a { b != b } else { a == b }
}

// Whether two maps have the same cells.
fn are_same(a: &[f32], b: &[f32]) -> bool {
    a.len() == b.len() && a.iter().zip(b).all(|(x, y)| is_same(*x, *y))
}

fn tell(rt: &impl Print, is_ok: bool, name: &str) -> io::Result<()> {
    let verdict = if is_ok { "ok" } else { "WRONG" };
    println!(rt; "{verdict} {name}")
}

// Block sides at their limit and past it, on 31 by 31 pixels of one level.
fn blocks(rt: &impl Print, level: &[u8], rooms: &mut Rooms) -> io::Result<()> {
    let pair = Pair::twice(level, 31, 31);
    tell(
        rt,
        rooms.number(pair, with(1, 31, false, false)) == 0,
        "block 31 fits",
    )?;
    tell(
        rt,
        rooms.number(pair, with(1, 32, false, false)) == 4,
        "block 32 gets 4",
    )?;
    tell(
        rt,
        rooms.number(pair, with(1, 33, false, false)) == 5,
        "block 33 gets 5",
    )
}

// Counts at their limit and past it, on 3 by 3 pixels of one level.
fn counts(rt: &impl Print, level: &[u8], rooms: &mut Rooms) -> io::Result<()> {
    let pair = Pair::twice(level, 3, 3);
    tell(
        rt,
        rooms.number(pair, with(256, 3, false, false)) == 0,
        "count 256 fits",
    )?;
    tell(
        rt,
        rooms.number(pair, with(257, 3, false, false)) == 7,
        "count 257 gets 7",
    )
}

// Penalties the wrong way round, and equal ones, on 3 by 3 pixels of one level.
fn penalties(rt: &impl Print, level: &[u8], rooms: &mut Rooms) -> io::Result<()> {
    let pair = Pair::twice(level, 3, 3);
    let opts = with(1, 3, true, false);
    let reversed = BlockMatchOptions {
        sgm_p1: 1.0,
        sgm_p2: 0.0,
        ..opts
    };
    tell(
        rt,
        rooms.number(pair, reversed) == 13,
        "p1 1 and p2 0 get 13",
    )?;
    let equal = BlockMatchOptions {
        sgm_p1: 1.0,
        sgm_p2: 1.0,
        ..opts
    };
    tell(rt, rooms.number(pair, equal) == 0, "p1 1 and p2 1 fit")
}

// The printed example's pictures, of 5 by 3 pixels.
fn printed(rt: &impl Print, rooms: &mut Rooms) -> io::Result<()> {
    let left = [9u8, 1, 4, 7, 2, 9, 1, 4, 7, 2, 9, 1, 4, 7, 2];
    let right = [1u8, 4, 7, 2, 5, 1, 4, 7, 2, 5, 1, 4, 7, 2, 5];
    let pair = Pair {
        left: &left,
        right: &right,
        w: 5,
        h: 3,
    };
    let m: f32 = 0.0 / 0.0;
    // the windows of block 1 show one level each
    let blank = [m; 15];
    tell(
        rt,
        rooms.has_map(pair, with(2, 1, false, false), &blank),
        "block 1: all blank",
    )?;
    let map = [m, m, m, m, m, m, m, 1.0, 1.0, m, m, m, m, m, m];
    tell(
        rt,
        rooms.has_map(pair, with(2, 3, false, false), &map),
        "left-right off: as printed",
    )?;
    tell(
        rt,
        rooms.has_map(pair, with(2, 3, false, true), &map),
        "left-right on: the same",
    )
}

// Pictures of one level of 5 by 3 pixels, semi-global: 0 in the inner frame.
fn one_level(rt: &impl Print, level: &[u8], rooms: &mut Rooms) -> io::Result<()> {
    let pair = Pair::twice(level, 5, 3);
    let m: f32 = 0.0 / 0.0;
    let map = [m, m, m, m, m, m, 0.0, 0.0, 0.0, m, m, m, m, m, m];
    tell(
        rt,
        rooms.has_map(pair, with(2, 3, true, false), &map),
        "one level, left-right off: 0",
    )?;
    tell(
        rt,
        rooms.has_map(pair, with(2, 3, true, true), &map),
        "one level, left-right on: 0",
    )
}

fn main(rt: HostRuntime) -> io::Result<()> {
    let level = [0u8; 961];
    let mut rooms = Rooms::new();
    blocks(&rt, &level, &mut rooms)?;
    counts(&rt, &level[..9], &mut rooms)?;
    penalties(&rt, &level[..9], &mut rooms)?;
    printed(&rt, &mut rooms)?;
    one_level(&rt, &level[..15], &mut rooms)
}
