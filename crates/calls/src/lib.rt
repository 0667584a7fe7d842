// What a match or a raw volume asks for and lends, and the reasons to refuse it (docs/SPECIFICATION.md, "Numbers given back"), in the
// table's order.
#![tactic(auto, unfolding(refusals::specs::Answered::first_of, crate::specs::Refusals::picture_rows, crate::specs::Refusals::search_rows, crate::specs::Refusals::penalty_rows, crate::specs::Refusals::out_rows, crate::specs::Refusals::room_rows))]

ghost use Rattle.std.specs.Prelude.{◌≡◌};
ghost use Rattle.options.specs.Limits.{is_penalty};
ghost use Rattle.refusals.specs.Answered.{first_of};
ghost use Rattle.refusals.specs.Given.{number_in};
ghost use Rattle.calls.specs.Refusals.{in_range, picture_rows, search_rows, pair_rows, by_paths, penalty_rows, area, volume, out_cells_of, whole_cells_of, float_cells, out_rows, room_rows, refusal};
ghost use Rattle.calls.specs.Accepted.{Sizes};

use options::{
    COUNT_MOST, FIRST_MOST, Mode, PENALTY_MOST, is_block_even, is_block_large, is_side,
    is_too_small,
};
use refusals::Refusal;

// What a call's output is to hold: the raw volume, or a map.
#[derive(Clone, Copy, Debug, PartialEq, Eq)]
pub enum Output {
    Volume,
    Map,
}

// What a call asks for and what it lends.
#[derive(Clone, Copy)]
pub struct Call {
    pub output: Output,
    // Sizes and byte counts of the two pictures.
    pub left_w: usize,
    pub left_h: usize,
    pub left_bytes: usize,
    pub right_w: usize,
    pub right_h: usize,
    pub right_bytes: usize,
    // What is searched.
    pub first: i32,
    pub count: i32,
    pub block: usize,
    // The mode and its penalties.
    pub mode: Mode,
    pub p1: f32,
    pub p2: f32,
    // Lengths of the output, the whole-number room and the float room.
    pub out_len: usize,
    pub whole_len: usize,
    pub float_len: usize,
}

// Width and height are in their range.
fn in_range(w: usize, h: usize) -> bool
    ensures { result ≡ in_range w h }
{
    is_side(w) && is_side(h)
}

// A number from 0 to the largest penalty.
fn is_penalty(p: f32) -> bool
    ensures { result ≡ is_penalty p }
{
    0.0 <= p && p <= PENALTY_MOST
}

impl Call {
    // Rows 1 to 3: width, height and byte count of each picture.
    fn check_pictures(self) -> Result<(), Refusal>
        ensures { number_in result ≡ first_of (picture_rows self) }
    {
        if !in_range(self.left_w, self.left_h) || !in_range(self.right_w, self.right_h) {
            return Err(Refusal::SizeOutOfRange);
        }
        if self.left_bytes != self.left_w * self.left_h
            || self.right_bytes != self.right_w * self.right_h
        {
            return Err(Refusal::ByteCount);
        }
        if self.left_w != self.right_w || self.left_h != self.right_h {
            return Err(Refusal::SizesDiffer);
        }
        Ok(())
    }

    // Rows 4 to 9: block side, count, size of the pictures and first disparity.
    fn check_search(self) -> Result<(), Refusal>
        ensures { number_in result ≡ first_of (search_rows self) }
    {
        if is_block_even(self.block) {
            return Err(Refusal::BlockEven);
        }
        if is_block_large(self.block) {
            return Err(Refusal::BlockTooLarge);
        }
        if self.count < 1 {
            return Err(Refusal::CountNotPositive);
        }
        if self.count > COUNT_MOST {
            return Err(Refusal::CountTooLarge);
        }
        if is_too_small(self.left_w, self.left_h, self.block) {
            return Err(Refusal::PictureSmallerThanBlock);
        }
        if self.first < -FIRST_MOST || FIRST_MOST < self.first {
            return Err(Refusal::FirstOutOfRange);
        }
        Ok(())
    }

    // Rows 1 to 9: the pair and what is searched in it.
    pub fn check_pair(self) -> Result<(), Refusal>
        ensures { number_in result ≡ first_of (pair_rows self) }
    {
        self.check_pictures()?;
        self.check_search()
    }

    // Whether the penalties are read: only a map along paths reads them.
    fn uses_penalties(self) -> bool
        ensures { result ≡ by_paths self.output self.mode }
    {
        match self.output {
            Output::Volume => false,
            Output::Map => self.mode.uses_paths(),
        }
    }

    // Rows 10 and 13: the penalties.
    fn check_penalties(self) -> Result<(), Refusal>
        ensures { number_in result ≡ first_of (penalty_rows self) }
    {
        if self.uses_penalties() {
            if !is_penalty(self.p1) || !is_penalty(self.p2) {
                return Err(Refusal::PenaltyOutOfRange);
            }
            if self.p2 < self.p1 {
                return Err(Refusal::PenaltiesReversed);
            }
        }
        Ok(())
    }

    // w·h.
    fn area(self) -> usize
        requires { Sizes self }
        ensures { result ≡ area self }
    {
        self.left_w * self.left_h
    }

    // V = count·w·h.
    fn volume(self) -> usize
        requires { Sizes self }
        ensures { result ≡ volume self }
    {
        self.count as usize * self.area()
    }

    // The cells that the output has: V for the raw volume, w·h for a map.
    fn out_cells(self) -> usize
        requires { Sizes self }
        ensures { result ≡ out_cells_of self self.output }
    {
        match self.output {
            Output::Volume => self.volume(),
            Output::Map => self.area(),
        }
    }

    // The cells that the whole-number room needs: five tables of (w+1)(h+1).
    fn whole_cells(self) -> usize
        requires { Sizes self }
        ensures { result ≡ whole_cells_of self }
    {
        5 * ((self.left_w + 1) * (self.left_h + 1))
    }

    // The cells that the float room needs: none for the raw volume, V + w·h for a block map, 3V + w·h for a semi-global one.
    pub fn float_cells(self) -> usize
        requires { Sizes self }
        ensures { result ≡ float_cells self self.output }
    {
        match self.output {
            Output::Volume => 0,
            Output::Map => {
                let volumes = if self.mode.uses_paths() { 3 } else { 1 };
                volumes * self.volume() + self.area()
            }
        }
    }

    // Row 11: the length of the output.
    fn check_output(self) -> Result<(), Refusal>
        requires { Sizes self }
        ensures { number_in result ≡ first_of (out_rows self) }
    {
        if self.out_len != self.out_cells() {
            return Err(Refusal::OutputLength);
        }
        Ok(())
    }

    // Row 12: the lengths of the rooms.
    fn check_rooms(self) -> Result<(), Refusal>
        requires { Sizes self }
        ensures { number_in result ≡ first_of (room_rows self) }
    {
        if self.whole_len < self.whole_cells() || self.float_len < self.float_cells() {
            return Err(Refusal::RoomTooShort);
        }
        Ok(())
    }

    // All rows: the first that applies is the refusal.
    pub fn check(self) -> Result<(), Refusal>
        ensures { number_in result ≡ refusal self }
    {
        self.check_pair()?;
        self.check_penalties()?;
        self.check_output()?;
        self.check_rooms()
    }
}

// The number that hosts are given: that of the first row that applies, 0 for none. It stays beside `Call::check`, because
// docs/STATEMENTS.md has it among the public calls.
pub fn refusal(call: Call) -> u32
    ensures { result ≡ refusal call }
{
    match call.check() {
        Ok(()) => 0,
        Err(reason) => u32::from(reason),
    }
}
