// Reads one request from standard input, matches, and writes the answer: a map, a number given back, or why the input is turned down.
#![tactic(auto)]

ghost use Rattle.std.specs.Prelude.{◌≡◌, ◌+◌, ◌*◌, ◌≤◌, length, IfOk};
ghost use Rattle.lists.specs.Stores.{Wrote};
ghost use Rattle.texts.specs.Pen.{HasRoom, Writes};
ghost use Rattle.heap_print.specs.Answer.{whole_room_cells, float_room_cells, options_of, Matched, matched_text, answer_of, ReadingAnswered};

use heap_text::head::Request;
use heap_text::plan::{TurnedDown, plan_of};
use heap_text::text;
use matching::match_block;
use options::{BlockMatchOptions, Mode};
use refusals::Refusal;
use std::io::{self, Read, Write};
use texts::Pen;

// The longest good input is a line of 32 bytes and two pictures of 384; one byte more shows that an input is too long.
const READ_MOST: usize = 801;

// The cells of the largest map, 24 by 16, and the rooms for its match with 8 disparities.
#[derive(Drop)]
struct Rooms {
    cells: [f32; 384],
    whole: [u64; 2125],
    float: [f32; 9600],
}

impl Rooms {
    fn new() -> Rooms {
        Rooms {
            cells: [0.0; 384],
            whole: [0; 2125],
            float: [0.0; 9600],
        }
    }
}

// The line's options; the others are the defaults.
fn options_of(q: Request) -> BlockMatchOptions
    requires { q.count ≤ 8 }
    ensures { result ≡ options_of q }
{
    BlockMatchOptions {
        min_disparity: q.first,
        num_disparities: q.count as i32,
        block_size: q.block,
        lr_consistency: q.left_right,
        subpixel: q.subpixel,
        mode: Mode::of_flag(q.semi_global),
        ..BlockMatchOptions::defaults()
    }
}

// Matches the two pictures that follow the line into a map, or gives back the number of the refusal.
fn match_pictures(
    input: &[u8],
    q: Request,
    map: &mut [f32],
    whole: &mut [u64],
    float: &mut [f32],
) -> Result<(), Refusal>
    requires count_bound { q.count ≤ 8 }
    requires pictures { q.start + 2 * (q.width * q.height) ≤ length input.now }
    requires pixels { length map.old ≡ q.width * q.height }
    requires rooms { (length whole.old ≡ whole_room_cells) × (length float.old ≡ float_room_cells) }
    ensures { Matched input.now q result map.new }
{
    let size = q.width * q.height;
    let (left, rest) = input[q.start..].split_at(size);
    let right = &rest[..size];
    let opts = options_of(q);
    match_block(
        left, q.width, q.height, right, q.width, q.height, opts, map, whole, float,
    )
}

// Puts the map of the two pictures that follow the line, or the refusal.
fn put_match(input: &[u8], q: Request, rooms: &mut Rooms, pen: &mut Pen)
    requires count_bound { q.count ≤ 8 }
    requires pixels { q.width * q.height ≤ 384 }
    requires pictures { q.start + 2 * (q.width * q.height) ≤ length input.now }
    requires room { HasRoom pen.old (19 + 9 * (q.width * q.height)) }
    ensures { Writes pen.old (matched_text input.now q) pen.new }
{
    let cells: &mut [f32] = &mut rooms.cells;
    let map = &mut cells[..q.width * q.height];
    match match_pictures(input, q, map, &mut rooms.whole, &mut rooms.float) {
        Ok(()) => text::put_map(map, q.width, q.height, maps::valids_in(map), pen),
        Err(refusal) => text::put_refused(usize::from(refusal.number()), pen),
    }
}

// Puts the answer to an input.
fn put_answer(input: &[u8], rooms: &mut Rooms, pen: &mut Pen)
    requires { HasRoom pen.old 3475 }
    ensures { Writes pen.old (answer_of input.now) pen.new }
{
    match plan_of(input) {
        Ok(q) => put_match(input, q, rooms, pen),
        Err(TurnedDown::TooBig) => text::put_too_big(pen),
        Err(TurnedDown::BadInput) => text::put_bad_input(pen),
    }
}

// The answer to an input, put at the front of `out`.
fn answer(input: &[u8], rooms: &mut Rooms, out: &mut [u8]) -> usize
    requires { 3475 ≤ length out.old }
    ensures { Wrote out.old 0 (answer_of input.now) out.new result }
{
    let mut pen = Pen { out, at: 0 };
    put_answer(input, rooms, &mut pen);
    pen.at
}

// The answer to every input that reads so, however long it is: the first n bytes of the array are the whole input, or as much of it as the
// array holds. The type keeps the array's length, which has to be enough to tell a good input from a longer one.
fn answer_reading(read: &[u8; READ_MOST], n: usize, rooms: &mut Rooms, out: &mut [u8]) -> usize
    requires n_in_bounds { n ≤ length read.now }
    requires in_bounds { 3475 ≤ length out.old }
    ensures { ReadingAnswered read.now n out.old out.new result }
{
    let whole: &[u8] = read;
    answer(&whole[..n], rooms, out)
}

// Reads until the buffer is full or the input ends, and gives how many bytes it put at the front.
fn read_full<R: Read>(input: &mut R, buffer: &mut [u8]) -> io::Result<usize>
    ensures { IfOk result (λ n. n ≤ length buffer.new) }
{
    let mut done: usize = 0;
    // how much a read gives is not known before it
    while done < buffer.len() {
        let n = input.read(&mut buffer[done..])?;
        if n == 0 {
            return Ok(done);
        }
        done += n;
    }
    Ok(done)
}

// No contract says what is read; `read_full` stops where the array is full or the input ends.
fn main(rt: HostRuntime) -> io::Result<()> {
    let mut input = [0u8; READ_MOST];
    let mut rooms = Rooms::new();
    let mut out = [0u8; 3475];
    let n = read_full(&mut rt.stdin(), &mut input)?;
    let m = answer_reading(&input, n, &mut rooms, &mut out);
    rt.stdout().write_all(&out[..m])
}
