// The raw cost and the raw volume (docs/SPECIFICATION.md, "Raw cost").
#![tactic(auto)]

ghost use Rattle.std.specs.Prelude.{◌≡◌, length};
ghost use Rattle.refusals.specs.Given.{number_in};
ghost use Rattle.costs.specs.Outcome.{raw_call, RawOutcome};

use calls::{Call, Output};
use options::{BlockMatchOptions, Mode, Side};
use refusals::Refusal;

mod plane;
pub mod raw;
pub mod tables;
pub mod volume;

// Pictures of w columns and h rows, and in them windows whose sides reach r pixels from the centre.
#[derive(Clone, Copy)]
pub struct Frame {
    pub w: usize,
    pub h: usize,
    pub r: usize,
}

// Two pictures of w columns and h rows.
#[derive(Clone, Copy)]
pub struct Pictures<'a> {
    pub left: &'a [u8],
    pub right: &'a [u8],
    pub w: usize,
    pub h: usize,
}

// What is asked for and lent: no mode is used, and the block's stands there; so no penalty is read, and there is no float
// room.
pub fn raw_call(
    left: &[u8],
    left_w: usize,
    left_h: usize,
    right: &[u8],
    right_w: usize,
    right_h: usize,
    opts: BlockMatchOptions,
    out_len: usize,
    room_len: usize,
) -> Call
    ensures { result ≡ raw_call left.now left_w left_h right.now right_w right_h opts out_len room_len }
{
    Call {
        output: Output::Volume,
        left_w,
        left_h,
        left_bytes: left.len(),
        right_w,
        right_h,
        right_bytes: right.len(),
        first: opts.min_disparity,
        count: opts.num_disparities,
        block: opts.block_size,
        mode: Mode::Block,
        p1: 0.0,
        p2: 0.0,
        out_len,
        whole_len: room_len,
        float_len: 0,
    }
}

// The raw costs of all indices and pixels: index k of pixel (x, y) goes to cell k·w·h + y·w + x of `out`, blank as negative
// infinity. A refusal leaves every cell as it was.
pub fn raw_volume(
    left: &[u8],
    left_w: usize,
    left_h: usize,
    right: &[u8],
    right_w: usize,
    right_h: usize,
    opts: BlockMatchOptions,
    side: Side,
    out: &mut [f32],
    room: &mut [u64],
) -> Result<(), Refusal>
    ensures { RawOutcome (number_in result) (raw_call left.now left_w left_h right.now right_w right_h opts (length out.old) (length room.old)) side left.now right.now out.old out.new room.old room.new }
{
    let call = raw_call(
        left,
        left_w,
        left_h,
        right,
        right_w,
        right_h,
        opts,
        out.len(),
        room.len(),
    );
    call.check()?;
    let pictures = Pictures {
        left,
        right,
        w: left_w,
        h: left_h,
    };
    volume::volume_of(pictures, opts, side, out, room);
    Ok(())
}
