// Block choice: the largest raw cost of each pixel, unless a gate rejects it. A row is chosen at a time, index by index, so
// that its raw costs are read as they lie and its loops have no branch.
ghost use Rattle.std.specs.Prelude.{◌≡◌, ℕ, ◌+◌, ◌*◌, ◌<◌, ◌≤◌, ◌&&◌, ◌||◌, Some, None, map, length, take, if◌then◌else◌, unsigned_abs};
ghost use Rattle.std.specs.Float.Ieee.{lt};
ghost use Rattle.options.specs.Costs.{stored, raw_of};
ghost use Rattle.options.specs.Limits.{most_count, shift_most};
ghost use Rattle.maps.specs.Cells.{in_buffer};
ghost use Rattle.choices.specs.Subpixel.{placed};
ghost use Rattle.choices.specs.Block.{best_of, block_choice, block_map};
ghost use Rattle.choices.specs.Seen.{seen_as, CellsInRange, CellsInRange-prop, RowIn, MapIn, cell_in, column_costs, moved_by, seen_shift, seen_span, part_at};
ghost use Rattle.choices.specs.Leading.{index_float, too_near, led_most, led_at, rivalled_by};
ghost use Rattle.choices.specs.RowChoice.{led_index, most_row, at_row, rival_in, rival_row, column_cell, chosen_row};

use super::subpixel::{Search, columns_at, disparity_at, has_sides, refine};
use maps::Cell;
use options::{BlockMatchOptions, RawCost, is_within};

// The best raw cost of a pixel with its index.
#[derive(Drop)]
pub struct Best {
    pub k: usize,
    pub cost: f32,
}

// What rejects a choice. A NaN rejects nothing.
#[derive(Clone, Copy)]
pub struct Gates {
    pub min_correlation: f32,
    pub uniqueness_ratio: f32,
}

// Whose volume the raw costs are: of the picture that the map is made for, or of the other picture.
#[derive(Clone, Copy, Debug, PartialEq, Eq)]
pub enum Seen {
    Own,
    Turned,
}

// Row y of a map of h rows of w cells, and whose volume it is read from.
#[derive(Clone, Copy)]
pub struct Row {
    pub w: usize,
    pub h: usize,
    pub y: usize,
    pub seen: Seen,
}

// Where a row's numbers lie: the columns from `lo` to w - `from` take the cells from `from` to w - `lo`, the others are blank.
#[derive(Drop)]
pub struct Shift {
    pub lo: usize,
    pub from: usize,
}

// The same in the volume: the columns from `lo` on take the cells from `from` to `to`.
#[derive(Drop)]
pub struct Span {
    pub lo: usize,
    pub from: usize,
    pub to: usize,
}

// A choice that is no branch.
fn pick(test: bool, yes: f32, no: f32) -> f32
    ensures { result ≡ (if test then yes else no) }
{
    if test { yes } else { no }
}

// Where the cells of a row lie that stand d columns further left.
fn moved_by(w: usize, d: i32) -> Shift
    requires { unsigned_abs d ≤ shift_most }
    ensures { result ≡ moved_by w d }
{
    if d < 0 {
        Shift {
            lo: 0,
            from: w.min((0 - d) as usize),
        }
    } else {
        Shift {
            lo: w.min(d as usize),
            from: 0,
        }
    }
}

// One index over a row, whose raw costs from column lo on are `part`: the largest so far, and its index as a float.
fn lead_part(most: &mut [f32], at: &mut [f32], lo: usize, part: &[f32], k: usize)
    requires at_len { length at.old ≡ length most.old }
    requires part_bound { lo + length part.now ≤ length most.old }
    requires k_lt_count_most { k < most_count }
    ensures most_value { most.new ≡ led_most (part_at lo part.now) most.old }
    ensures at_value { at.new ≡ led_at k (part_at lo part.now) most.old at.old }
{
    let index = k as f32;
    for (i, &v) in part.iter().enumerate() {
        let x = lo + i;
        let best = most[x];
        most[x] = pick(best < v, v, best);
        at[x] = pick(best < v, index, at[x]);
    }
}

// Whether a raw cost v counts as a competitor, and is larger than the best so far: `low` and `high` are the indices beside its own.
fn is_rival(at: f32, low: f32, high: f32, most: f32, v: f32) -> bool
    ensures { result ≡ ((lt high at || lt at low) && lt most v) }
{
    (high < at || at < low) && most < v
}

// One index over a row for the competitor: the largest so far at indices more than 1 away from those in `at`.
fn rival_part(most: &mut [f32], at: &[f32], lo: usize, part: &[f32], k: usize)
    requires at_len { length at.now ≡ length most.old }
    requires part_bound { lo + length part.now ≤ length most.old }
    requires k_lt_count_most { k < most_count }
    ensures { most.new ≡ rivalled_by k (part_at lo part.now) at.now most.old }
{
    let low = k.saturating_sub(1) as f32;
    let high = (k + 1) as f32;
    for (i, &v) in part.iter().enumerate() {
        let x = lo + i;
        let best = most[x];
        most[x] = pick(is_rival(at[x], low, high, best, v), v, best);
    }
}

// Whether there is a competitor, and best minus it is below the ratio.
fn is_close(best: f32, rival: RawCost, ratio: f32) -> bool
    ensures { result ≡ too_near best rival ratio }
{
    match rival {
        RawCost::Blank => false,
        RawCost::Corr(second) => best - second < ratio,
    }
}

// The raw costs of one index in a row: `cells` has those of the columns from `lo` on, and the others are blank.
#[derive(Clone, Copy)]
struct Part<'a> {
    lo: usize,
    cells: &'a [f32],
}

// A row of raw costs, and what is searched.
#[derive(Clone, Copy)]
struct RowCosts<'a> {
    raw: &'a [f32],
    row: Row,
    search: Search,
    ghost within: { RowIn row search raw.now },
    ghost in_range: { CellsInRange raw.now (search.count * (row.w * row.h)) } by { CellsInRange-prop raw.now (search.count * (row.w * row.h)) },
}

impl<'a> RowCosts<'a> {
    // Where the cells of index k lie in their row: the other picture's stand as many columns further left as the disparity says.
    fn shift(self, k: usize) -> Shift
        requires { k < self.search.count }
        ensures { result ≡ seen_shift self.entry.row.seen self.entry.row.w self.entry.search.first k }
    {
        match self.row.seen {
            Seen::Own => Shift { lo: 0, from: 0 },
            Seen::Turned => moved_by(self.row.w, columns_at(self.search, k)),
        }
    }

    // Where they lie in the volume.
    fn span(self, k: usize) -> Span
        requires { k < self.search.count }
        ensures { result ≡ seen_span self.entry.row self.entry.search k }
    {
        let row = self.row;
        let base = k * (row.w * row.h) + row.y * row.w;
        let shift = self.shift(k);
        Span {
            lo: shift.lo,
            from: base + shift.from,
            to: base + (row.w - shift.lo),
        }
    }

    // The raw costs with index k.
    fn part(self, k: usize) -> Part<'a>
        requires { k < self.search.count }
        ensures fits { result.lo + length result.cells.now ≤ self.entry.row.w }
        ensures reads { (x : ℕ) → x < self.entry.row.w → part_at result.lo result.cells.now x ≡ cell_in self.entry.row self.entry.search self.entry.raw.now x k }
    {
        let span = self.span(k);
        Part {
            lo: span.lo,
            cells: &self.raw[span.from..span.to],
        }
    }

    // The best of each column and its index, ties to the smaller index.
    fn lead(self, most: &mut [f32], at: &mut [f32])
        requires most_none { most.old ≡ most_row self.row self.search self.raw.now 0 }
        requires at_none { at.old ≡ at_row self.row self.search self.raw.now 0 }
        ensures most_all { most.new ≡ most_row self.entry.row self.entry.search self.entry.raw.now self.entry.search.count }
        ensures at_all { at.new ≡ at_row self.entry.row self.entry.search self.entry.raw.now self.entry.search.count }
    {
        for k in 0..self.search.count {
            let part = self.part(k);
            lead_part(most, at, part.lo, part.cells, k);
        }
    }

    // The competitor of each column: the largest raw cost at indices more than 1 away from that of its best.
    // A loop of its own, since it only reads the indices that `lead` writes.
    fn rival(self, most: &mut [f32], at: &[f32])
        requires most_none { most.old ≡ rival_row self.row self.search self.raw.now 0 }
        requires at_all { at.now ≡ at_row self.row self.search self.raw.now self.search.count }
        ensures { most.new ≡ rival_row self.entry.row self.entry.search self.entry.raw.now self.entry.search.count }
    {
        for k in 0..self.search.count {
            let part = self.part(k);
            rival_part(most, at, part.lo, part.cells, k);
        }
    }

    // The raw cost with index k in column x.
    fn cell(self, x: usize, k: usize) -> RawCost
        requires x_lt_w { x < self.row.w }
        requires k_lt_count { k < self.search.count }
        ensures { result ≡ raw_of (cell_in self.entry.row self.entry.search self.entry.raw.now x k) }
    {
        let part = self.part(k);
        if x < part.lo {
            return BlockMatchOptions::BLANK;
        }
        match part.cells.get(x - part.lo) {
            Some(v) => RawCost::from(*v),
            None => BlockMatchOptions::BLANK,
        }
    }

    // The best of column x, if there is one: its index is kept as a float.
    fn best(self, x: usize, at: f32) -> Option<Best>
        requires x_lt_w { x < self.row.w }
        requires at_value { at ≡ index_float (led_index self.row self.search self.raw.now self.search.count x) }
        ensures { result ≡ best_of (column_costs self.entry.row self.entry.search self.entry.raw.now x) }
    {
        let k = at as usize;
        match self.cell(x, k) {
            RawCost::Blank => None,
            RawCost::Corr(cost) => Some(Best { k, cost }),
        }
    }

    // The disparity of column x at index k, whose raw cost is best.
    #[tactic(auto, unfolding(crate::specs::Subpixel::placed))]
    fn placed(self, x: usize, k: usize, best: f32) -> f32
        requires x_lt_w { x < self.row.w }
        requires k_lt_count { k < self.search.count }
        ensures { result ≡ placed self.entry.search (map stored (column_costs self.entry.row self.entry.search self.entry.raw.now x)) k best }
    {
        let d = disparity_at(self.search, k);
        if has_sides(self.search, k) {
            let cm = self.cell(x, k - 1);
            let cp = self.cell(x, k + 1);
            refine(d, f32::from(cm), best, f32::from(cp))
        } else {
            d
        }
    }

    // The choice in column x, from the index of its best and its competitor.
    fn choice(self, gates: Gates, x: usize, at: f32, rival: RawCost) -> Cell
        requires x_lt_w { x < self.row.w }
        requires at_value { at ≡ index_float (led_index self.row self.search self.raw.now self.search.count x) }
        requires rival_value { rival ≡ raw_of (rival_in self.row self.search self.raw.now self.search.count x) }
        ensures { result ≡ block_choice self.entry.search gates (column_costs self.entry.row self.entry.search self.entry.raw.now x) }
    {
        match self.best(x, at) {
            None => Cell::Mark,
            Some(best) => {
                if best.cost < gates.min_correlation {
                    return Cell::Mark;
                }
                if is_close(best.cost, rival, gates.uniqueness_ratio) {
                    return Cell::Mark;
                }
                Cell::At(self.placed(x, best.k, best.cost))
            }
        }
    }

    // The same for every column, the mark in the frame of r columns.
    #[tactic(auto, unfolding(crate::specs::RowChoice::column_cell))]
    fn column(self, r: usize, gates: Gates, x: usize, at: f32, rival: RawCost) -> Cell
        requires x_lt_w { x < self.row.w }
        requires at_value { at ≡ index_float (led_index self.row self.search self.raw.now self.search.count x) }
        requires rival_value { rival ≡ raw_of (rival_in self.row self.search self.raw.now self.search.count x) }
        ensures { result ≡ column_cell self.entry.row r self.entry.search gates self.entry.raw.now x }
    {
        if is_within(self.row.w, r, x) {
            self.choice(gates, x, at, rival)
        } else {
            Cell::Mark
        }
    }

    // The choices of the row: they take the place of the competitors.
    fn finish(self, most: &mut [f32], at: &[f32], r: usize, gates: Gates)
        requires most_all { most.old ≡ rival_row self.row self.search self.raw.now self.search.count }
        requires at_all { at.now ≡ at_row self.row self.search self.raw.now self.search.count }
        ensures { most.new ≡ chosen_row self.entry.row r self.entry.search gates self.entry.raw.now }
    {
        for (x, cell) in most.iter_mut().enumerate() {
            let rival = RawCost::from(*cell);
            *cell = f32::from(self.column(r, gates, x, at[x], rival));
        }
    }

    // Block choice in the row. The first w cells of `work` get the choices, the next w are used up.
    fn choose(self, work: &mut [f32], r: usize, gates: Gates)
        requires { length work.old ≡ self.row.w + self.row.w }
        ensures { take self.entry.row.w work.new ≡ chosen_row self.entry.row r self.entry.search gates self.entry.raw.now }
    {
        let blank = f32::from(BlockMatchOptions::BLANK);
        let (most, at) = work.split_at_mut(self.row.w);
        most.fill(blank);
        at.fill(0.0);
        self.lead(most, at);
        most.fill(blank);
        self.rival(most, at);
        self.finish(most, at, r, gates);
    }
}

// The map of the block choices, one cell for each pixel, in `out`.
pub fn select_block(
    out: &mut [f32],
    raw: &[f32],
    w: usize,
    h: usize,
    r: usize,
    search: Search,
    gates: Gates,
    seen: Seen,
)
    requires out_len { length out.old ≡ w * h }
    requires map_in { MapIn w h r search raw.now }
    requires cells_in_range { CellsInRange raw.now (search.count * (w * h)) }
    ensures { out.new ≡ map in_buffer (block_map w h r search gates (seen_as seen w h search raw.now)) }
{
    let mark = f32::from(Cell::Mark);
    let bottom = h - r;
    out[..r * w].fill(mark);
    // The row after each is used up, and gets its own choices next.
    for y in r..bottom {
        let first = y * w;
        let last = first + 2 * w;
        let row = Row { w, h, y, seen };
        let costs = RowCosts { raw, row, search };
        costs.choose(&mut out[first..last], r, gates);
    }
    out[bottom * w..].fill(mark);
}
