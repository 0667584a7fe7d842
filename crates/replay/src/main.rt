// Replays a stored sample of the Rust's answers (data/README.md) and prints how many maps and cells were compared, and how many
// cells differ. A map that is refused, or a file that is cut, counts as a difference.
#![tactic(auto)]

ghost use Rattle.std.specs.Prelude.{◌+◌, ◌*◌, ◌≤◌, length, IfSome};

use matching::match_block;
use options::{BlockMatchOptions, Mode};
use std::{fs, io};

// The bytes of a case before its pictures.
const HEAD: usize = 28;

// The bytes of a file that are read.
const READ_MOST: usize = 65536;

// A case of the file, and what follows it.
#[derive(Clone, Copy)]
struct Case<'a> {
    w: usize,
    h: usize,
    opts: BlockMatchOptions,
    left: &'a [u8],
    right: &'a [u8],
    answers: &'a [u8],
    rest: &'a [u8],
}

// How many maps and cells were compared, and how many cells differ.
#[derive(Clone, Copy)]
struct Tally {
    maps: usize,
    cells: usize,
    differ: usize,
}

// The cells of the largest map, 24 by 16, and the rooms for its match with 8 disparities.
#[derive(Drop)]
struct Rooms {
    cells: [f32; 384],
    whole: [u64; 2125],
    float: [f32; 9600],
}

impl Rooms {
    fn new() -> Rooms {
        Rooms {
            cells: [0.0; 384],
            whole: [0; 2125],
            float: [0.0; 9600],
        }
    }
}

// The float with a pattern, the low byte first; a NaN's reads as 0, and the sample has none.
fn number(head: &[u8; HEAD], at: usize) -> f32
    requires { at + 4 ≤ 28 }
{
    let bits = u32::from_le_bytes([head[at], head[at + 1], head[at + 2], head[at + 3]]);
    if 0x7F80_0000 < bits % 0x8000_0000 {
        return 0.0;
    }
    f32::from_bits(bits)
}

// The options of a case.
fn options_of(head: &[u8; HEAD]) -> BlockMatchOptions {
    let flags = head[6];
    BlockMatchOptions {
        min_disparity: i32::from(i16::from_le_bytes([head[4], head[5]])),
        num_disparities: i32::from(head[2]),
        block_size: usize::from(head[3]),
        min_correlation: number(head, 8),
        uniqueness_ratio: number(head, 12),
        lr_consistency: flags / 2 % 2 == 1,
        lr_max_diff: number(head, 16),
        subpixel: flags / 4 % 2 == 1,
        mode: Mode::of_flag(flags % 2 == 1),
        sgm_p1: number(head, 20),
        sgm_p2: number(head, 24),
    }
}

// The case at the front of the bytes, where a whole one stands there.
fn read_case(bytes: &[u8]) -> Option<Case>
    ensures { IfSome result (λ c. (c.w * c.h ≤ 384) × (c.w * c.h + 1 + length c.rest.now ≤ length bytes.now)) }
{
    let (head, rest) = bytes.split_first_chunk::<HEAD>()?;
    let w = usize::from(head[0]);
    let h = usize::from(head[1]);
    if 24 < w || 16 < h {
        return None;
    }
    let size = w * h;
    let (left, rest) = rest.split_at_checked(size)?;
    let (right, rest) = rest.split_at_checked(size)?;
    let (answers, rest) = rest.split_at_checked(4 * size)?;
    let opts = options_of(head);
    Some(Case {
        w,
        h,
        opts,
        left,
        right,
        answers,
        rest,
    })
}

// The pattern of a cell, and of every NaN that of the mark.
fn pattern(x: f32) -> u32 {
    if x != x { 0x7FC0_0000 } else { f32::to_bits(x) }
}

// Whether the match of a case is accepted.
fn is_matched(case: Case, map: &mut [f32], whole: &mut [u64], float: &mut [f32]) -> bool {
    match_block(
        case.left, case.w, case.h, case.right, case.w, case.h, case.opts, map, whole, float,
    )
    .is_ok()
}

// How many of the cells differ from the patterns that were answered.
fn differing(map: &[f32], answers: &[u8]) -> usize
    ensures { result ≤ length map.now }
{
    let (answers, _) = answers.as_chunks::<4>();
    map.iter()
        .zip(answers)
        .filter(|(x, answer)| pattern(**x) != u32::from_le_bytes(**answer))
        .count()
}

// Matches the pair of a case, and counts the cells that differ from the answer.
fn replay_case(case: Case, rooms: &mut Rooms) -> usize
    requires { case.w * case.h ≤ 384 }
    ensures { result ≤ case.entry.w * case.entry.h }
{
    let cells: &mut [f32] = &mut rooms.cells;
    let map = &mut cells[..case.w * case.h];
    if is_matched(case, map, &mut rooms.whole, &mut rooms.float) {
        differing(map, case.answers)
    } else {
        map.len()
    }
}

// All cases. Where no whole case stands, there is one more difference, and the end.
fn replay(bytes: &[u8], rooms: &mut Rooms) -> Tally
    requires { length bytes.now ≤ 65536 }
{
    let mut tally = Tally {
        maps: 0,
        cells: 0,
        differ: 0,
    };
    let mut rest = bytes;
    // cases differ in length
    while !rest.is_empty() {
        let Some(case) = read_case(rest) else {
            tally.differ += 1;
            return tally;
        };
        tally.maps += 1;
        tally.cells += case.w * case.h;
        tally.differ += replay_case(case, rooms);
        rest = case.rest;
    }
    tally
}

fn main(rt: HostRuntime) -> io::Result<()> {
    let bytes = fs::read(&rt, "answers.bin")?;
    let n = bytes.len().min(READ_MOST);
    let mut rooms = Rooms::new();
    let tally = replay(&bytes[..n], &mut rooms);
    let maps = tally.maps;
    let compared = tally.cells;
    let differ = tally.differ;
    println!(rt; "{maps} maps of the Rust replayed, {compared} cells compared, {differ} differ")
}
