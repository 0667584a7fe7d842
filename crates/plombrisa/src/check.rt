// A check on a vendor's map, for hosts: 0, or the number of the refusal, which leaves what is lent as it was.
ghost use Rattle.std.specs.Prelude.{length};
ghost use Rattle.vendor.specs.Outcome.{vendor_call};
ghost use Rattle.plombrisa.specs.Host.{verdict_in, HostCheck};
ghost use Rattle.plombrisa.specs.Options.{check_options};

use crate::told::tell_verdict;
use options::BlockMatchOptions;
use vendor::check_vendor;

// Whether every valid cell of a vendor's map is what the raw costs of its pair say. `passed` is 1, or 0 with column and row of the
// first bad cell in `x` and `y`, which are as they were where there is none.
#[unsafe(no_mangle)]
pub extern "C" fn plombrisa_check_vendor(
    left: &[u8],
    left_width: usize,
    left_height: usize,
    right: &[u8],
    right_width: usize,
    right_height: usize,
    min_disparity: i32,
    num_disparities: i32,
    block_size: usize,
    min_correlation: f32,
    map: &[f32],
    map_width: usize,
    map_height: usize,
    whole_room: &mut [u64],
    passed: &mut u32,
    x: &mut u64,
    y: &mut u64,
) -> u32
    ensures { HostCheck result (vendor_call left.now left_width left_height right.now right_width right_height (check_options min_disparity num_disparities block_size min_correlation) (length whole_room.old)) (check_options min_disparity num_disparities block_size min_correlation) left.now right.now map_width map_height map.now whole_room.old whole_room.new (verdict_in passed.old x.old y.old) (verdict_in passed.new x.new y.new) }
{
    let opts = BlockMatchOptions {
        min_disparity,
        num_disparities,
        block_size,
        min_correlation,
        ..BlockMatchOptions::defaults()
    };
    let verdict = check_vendor(
        left,
        left_width,
        left_height,
        right,
        right_width,
        right_height,
        opts,
        map,
        map_width,
        map_height,
        whole_room,
    );
    tell_verdict(verdict, passed, x, y)
}
