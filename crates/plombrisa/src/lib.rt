// The functions for C and Rust hosts. A slice is its pointer and then its length. Names and order are fixed: nothing checks
// the declaration on the other side.
#![tactic(auto)]

pub mod check;
pub mod file;
pub mod heap;
pub mod map;
pub mod picture;
pub mod point;
pub mod row;
pub mod sheet;
mod told;

ghost use Rattle.std.specs.Prelude.{◌≡◌, length};
ghost use Rattle.costs.specs.Outcome.{raw_call, RawOutcome};
ghost use Rattle.matching.specs.Outcome.{match_call, MatchOutcome};
ghost use Rattle.plombrisa.specs.Options.{side_of, raw_options, match_options};

use crate::told::number;
use costs::raw_volume;
use matching::match_block;
use options::{BlockMatchOptions, Mode, Side};

// The map of two pictures: 0, or the number of the refusal.
#[unsafe(no_mangle)]
pub extern "C" fn plombrisa_match_block(
    left: &[u8],
    left_width: usize,
    left_height: usize,
    right: &[u8],
    right_width: usize,
    right_height: usize,
    min_disparity: i32,
    num_disparities: i32,
    block_size: usize,
    min_correlation: f32,
    uniqueness_ratio: f32,
    lr_consistency: bool,
    lr_max_diff: f32,
    subpixel: bool,
    semi_global: bool,
    sgm_p1: f32,
    sgm_p2: f32,
    out: &mut [f32],
    whole_room: &mut [u64],
    float_room: &mut [f32],
) -> u32
    ensures { MatchOutcome result (match_call left.now left_width left_height right.now right_width right_height (match_options min_disparity num_disparities block_size min_correlation uniqueness_ratio lr_consistency lr_max_diff subpixel semi_global sgm_p1 sgm_p2) (length out.old) (length whole_room.old) (length float_room.old)) (match_options min_disparity num_disparities block_size min_correlation uniqueness_ratio lr_consistency lr_max_diff subpixel semi_global sgm_p1 sgm_p2) left.now right.now out.old out.new whole_room.old whole_room.new float_room.old float_room.new }
{
    let opts = BlockMatchOptions {
        min_disparity,
        num_disparities,
        block_size,
        min_correlation,
        uniqueness_ratio,
        lr_consistency,
        lr_max_diff,
        subpixel,
        mode: Mode::of_flag(semi_global),
        sgm_p1,
        sgm_p2,
    };
    number(match_block(
        left,
        left_width,
        left_height,
        right,
        right_width,
        right_height,
        opts,
        out,
        whole_room,
        float_room,
    ))
}

// Which picture is the reference. No `From<bool>`: it would not say which is which.
fn side_of(from_right: bool) -> Side
    ensures { result ≡ side_of from_right }
{
    if from_right { Side::Right } else { Side::Left }
}

// The raw volume from one side: 0, or the number of the refusal.
#[unsafe(no_mangle)]
pub extern "C" fn plombrisa_raw_volume(
    left: &[u8],
    left_width: usize,
    left_height: usize,
    right: &[u8],
    right_width: usize,
    right_height: usize,
    min_disparity: i32,
    num_disparities: i32,
    block_size: usize,
    from_right: bool,
    out: &mut [f32],
    whole_room: &mut [u64],
) -> u32
    ensures { RawOutcome result (raw_call left.now left_width left_height right.now right_width right_height (raw_options min_disparity num_disparities block_size) (length out.old) (length whole_room.old)) (side_of from_right) left.now right.now out.old out.new whole_room.old whole_room.new }
{
    let opts = BlockMatchOptions {
        min_disparity,
        num_disparities,
        block_size,
        ..BlockMatchOptions::defaults()
    };
    number(raw_volume(
        left,
        left_width,
        left_height,
        right,
        right_width,
        right_height,
        opts,
        side_of(from_right),
        out,
        whole_room,
    ))
}
