// A check on the vendor's matcher: whether every valid cell of a whole-pixel map is a disparity of the searched range whose raw cost is
// not blank, isn't below the least correlation, and is not beaten by that of any other. There is no volume: the products' table is
// filled for one index after the other, and each cell is held to that index's raw cost.
#![tactic(auto)]

ghost use Rattle.std.specs.Prelude.{◌≡◌, ◌*◌, length, drop};
ghost use Rattle.lists.specs.Lists.{cleared};
ghost use Rattle.windows.specs.Window.{cells};
ghost use Rattle.refusals.specs.Answered.{first_of};
ghost use Rattle.refusals.specs.Given.{number_in};
ghost use Rattle.calls.specs.Accepted.{Sizes};
ghost use Rattle.matching.specs.Inner.{CountFits};
ghost use Rattle.vendor.specs.Verdict.{check_of, first_bad, verdict_of};
ghost use Rattle.vendor.specs.Outcome.{vendor_call, map_rows, vendor_refusal, CheckOutcome};
ghost use Rattle.vendor.specs.Inner.{Tabled, Lent};

use calls::Call;
use cells::Question;
use choices::subpixel::Search;
use cost::Tables;
use costs::volume::shift_at;
use costs::{Frame, raw_call};
use matching::block::search_of;
use options::{BlockMatchOptions, Side};
use refusals::Refusal;
use windows::fill_cross;

mod cells;
mod cost;

// The answer: every valid cell is what it should be, or column and row of the first by rows that is not.
#[derive(Clone, Copy, Debug, PartialEq, Eq)]
pub enum Verdict {
    Yes,
    No(usize, usize),
}

// What a map is checked by: the pictures' size and half of the block's side, what is searched, and the least correlation.
#[derive(Clone, Copy)]
pub struct Check {
    pub frame: Frame,
    pub search: Search,
    pub least: f32,
}

impl Check {
    // What the maps of w by h pictures are checked by.
    fn new(w: usize, h: usize, opts: BlockMatchOptions) -> Check
        requires { CountFits opts }
        ensures { result ≡ check_of w h opts }
    {
        Check {
            frame: Frame {
                w,
                h,
                r: opts.block_size / 2,
            },
            search: search_of(opts),
            least: opts.min_correlation,
        }
    }

    // The first pixel by rows that does not pass, and the number of pixels where all do. The tables of the two pictures stand in the room.
    // The number of pixels stands for none, as in the specification, where it is also the next limit.
    fn sweep(self, left: &[u8], right: &[u8], room: &mut [u64], map: &[f32]) -> usize
        requires { Lent self left.now right.now (length map.now) (length room.old) × Tabled room.old self left.now right.now }
        ensures { (result ≡ first_bad self left.now right.now map.now) × (drop (5 * cells self.frame.w self.frame.h) room.new ≡ drop (5 * cells self.frame.w self.frame.h) room.old) }
    {
        let Frame { w, h, .. } = self.frame;
        let cells = (w + 1) * (h + 1);
        let four = 4 * cells;
        let five = 5 * cells;
        let tables = Tables {
            left,
            right,
            room,
            check: self,
        };
        let mut limit = tables.first_failing(map, Question::Fit, map.len());
        for k in 0..self.search.count {
            let shift = shift_at(Side::Left, self.search.first as i64, k);
            fill_cross(&mut room[four..five], left, right, w, h, shift);
            let tables = Tables {
                left,
                right,
                room,
                check: self,
            };
            limit = tables.first_failing(map, Question::Unbeaten(k), limit);
        }
        limit
    }

    // The verdict on a map; the room's cells that were needed are zero afterwards.
    fn verdict(self, left: &[u8], right: &[u8], room: &mut [u64], map: &[f32]) -> Verdict
        requires { Lent self left.now right.now (length map.now) (length room.old) }
        ensures { (result ≡ verdict_of self left.now right.now map.now) × (room.new ≡ cleared 0 (5 * cells self.frame.w self.frame.h) room.old) }
    {
        let frame = self.frame;
        let Frame { w, h, .. } = frame;
        let cells = (w + 1) * (h + 1);
        let two = 2 * cells;
        let four = 4 * cells;
        let five = 5 * cells;
        frame.fill_picture(&mut room[0..two], left);
        frame.fill_picture(&mut room[two..four], right);
        let bad = self.sweep(left, right, room, map);
        room[0..five].fill(0);
        if bad == map.len() {
            return Verdict::Yes;
        }
        Verdict::No(bad % w, bad / w)
    }
}

// The last rows: the map's size and number of cells, then the room.
#[tactic(auto, unfolding(refusals::specs::Answered::first_of, crate::specs::Outcome::map_rows))]
fn check_map(call: Call, map_w: usize, map_h: usize, map_cells: usize) -> Result<(), Refusal>
    requires { Sizes call }
    ensures { number_in result ≡ first_of (map_rows call map_w map_h map_cells) }
{
    if map_w != call.left_w || map_h != call.left_h || map_cells != call.left_w * call.left_h {
        return Err(Refusal::MapSize);
    }
    if call.whole_len < 5 * ((call.left_w + 1) * (call.left_h + 1)) {
        return Err(Refusal::RoomTooShort);
    }
    Ok(())
}

// All rows of a check of a map of so many cells: the first that applies is the refusal.
fn check_call(call: Call, map_w: usize, map_h: usize, map_cells: usize) -> Result<(), Refusal>
    ensures { number_in result ≡ vendor_refusal call map_w map_h map_cells }
{
    call.check_pair()?;
    check_map(call, map_w, map_h, map_cells)
}

// Whether a vendor's map of two pictures holds what their raw costs say. A refusal leaves the room as it was; else the
// cells that were needed are zero.
pub fn check_vendor(
    left: &[u8],
    left_w: usize,
    left_h: usize,
    right: &[u8],
    right_w: usize,
    right_h: usize,
    opts: BlockMatchOptions,
    map: &[f32],
    map_w: usize,
    map_h: usize,
    room: &mut [u64],
) -> Result<Verdict, Refusal>
    ensures { CheckOutcome result (vendor_call left.now left_w left_h right.now right_w right_h opts (length room.old)) opts left.now right.now map_w map_h map.now room.old room.new }
{
    let call = raw_call(
        left,
        left_w,
        left_h,
        right,
        right_w,
        right_h,
        opts,
        0,
        room.len(),
    );
    check_call(call, map_w, map_h, map.len())?;
    let check = Check::new(left_w, left_h, opts);
    Ok(check.verdict(left, right, room, map))
}
