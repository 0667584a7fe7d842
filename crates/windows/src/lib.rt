// Summed-area tables of a picture, the sum over a window from a table's four corners, and the variance of a
// window, all as whole numbers (docs/SPECIFICATION.md, "Window sums").
#![tactic(auto)]

ghost use Rattle.std.specs.Prelude.{◌≡◌, ℕ, ◌+◌, ◌*◌, ◌^◌, ◌≤◌, ◌<◌, min, nat_abs, List, ◌++◌, length, get_or, take, drop};
ghost use Rattle.options.specs.Limits.{side_most, shift_most};
ghost use Rattle.lists.specs.Rows.{level_at};
ghost use Rattle.windows.specs.Table.{Sizes, RowReady, next_row, table_of, level_in, square_at, cross_in, cross_at};
ghost use Rattle.lists.specs.Sums.{sum_to};
ghost use Rattle.windows.specs.Parts.{overlap_of, product_in, Beside, IsSmall, Gives, sums_below, TakesRow, FillsRow, AddsRows};
ghost use Rattle.windows.specs.Window.{corner_sum, Corners};
ghost use Rattle.windows.specs.Moments.{variance_of};

// Where a picture has no pixel the row's sum stays as it is. It is no case of `add_values`: there each cell waits for the sum before it.
fn add_run(below: &mut [u64], above: &[u64], run: u64)
    requires { Beside above.now below.old × (run < 2 ^ 52) }
    ensures { below.new ≡ sums_below (λ _. run) above.now }
{
    for (i, cell) in above.iter().enumerate() {
        below[i] = *cell + run;
    }
}

// Where it has one the row's sum grows by the pixel's value; the whole sum is the result. Callers pass closures by `move`:
// what a loop reads behind a reference to a local is loaded at every turn.
fn add_values<F: Fn(usize) -> u64>(below: &mut [u64], above: &[u64], value: F) -> u64
    requires rows { Beside above.now below.old × (length above.now ≤ side_most) }
    requires small { IsSmall (F.pre value) (F.post value) (length above.now) }
    ensures { (g : ℕ → ℕ) → Gives (F.post value) (length above.now) g → (result ≡ sum_to (length above.now) g) × (below.new ≡ sums_below (λ i. sum_to i g) above.now) }
{
    let mut run: u64 = 0;
    for (i, cell) in above.iter().enumerate() {
        below[i] = *cell + run;
        run += value(i);
    }
    run
}

// Fills a row of a table from the row above it and the levels of the picture's row.
fn add_levels(below: &mut [u64], above: &[u64], levels: &[u8])
    requires { RowReady (length levels.now) above.now × (length below.old ≡ length above.now) }
    ensures { below.new ≡ next_row (length levels.now) (level_in levels.now) above.now }
{
    let w = levels.len();
    let run = add_values(&mut below[..w], &above[..w], move |x| u64::from(levels[x]));
    below[w] = above[w] + run;
}

// The product of two levels.
pub fn product(a: u8, b: u8) -> u64
    ensures { result ≡ a * b }
{
    u64::from(a) * u64::from(b)
}

// The columns of a row whose counterparts the other row has too, and where those begin.
#[derive(Clone, Copy)]
struct Overlap {
    first: usize,
    other: usize,
    count: usize,
}

// How far apart two columns are.
pub fn distance(shift: i64) -> usize
    requires { nat_abs shift ≤ shift_most }
    ensures { result ≡ nat_abs shift }
{
    shift.unsigned_abs() as usize
}

fn overlap_of(n: usize, m: usize, shift: i64) -> Overlap
    requires { nat_abs shift ≤ shift_most }
    ensures is { result ≡ overlap_of n m shift }
    ensures within { result.first + result.count ≤ n }
    ensures within_other { result.other + result.count ≤ m }
{
    let apart = distance(shift);
    if shift < 0 {
        let first = apart.min(n);
        let count = m.min(n - first);
        return Overlap {
            first,
            other: 0,
            count,
        };
    }
    let other = apart.min(m);
    let count = n.min(m - other);
    Overlap {
        first: 0,
        other,
        count,
    }
}

// Fills a row of a table from the row above it and the products of a's levels by b's shifted ones.
fn add_cross(below: &mut [u64], above: &[u64], a: &[u8], b: &[u8], shift: i64)
    requires { RowReady (length a.now) above.now × (length below.old ≡ length above.now) × (nat_abs shift ≤ shift_most) }
    ensures { below.new ≡ next_row (length a.now) (cross_in a.now b.now shift) above.now }
{
    let both = overlap_of(a.len(), b.len(), shift);
    let first = both.first;
    let other = both.other;
    let end = first + both.count;
    add_run(&mut below[..first], &above[..first], 0);
    let run = add_values(&mut below[first..end], &above[first..end], move |i| {
        product(a[first + i], b[other + i])
    });
    add_run(&mut below[end..], &above[end..], run);
}

// Fills the second of two rows of `side` cells, row y + 1 of a table, from the first.
fn fill_row<F: Fn(usize, &mut [u64], &[u64])>(rows: &mut [u64], side: usize, y: usize, add_row: &F)
    requires inside { side ≤ length rows.old }
    requires takes { TakesRow F.Fn add_row.now y (take side rows.old) (drop side rows.old) }
    ensures { (below : List ℕ) × FillsRow F.Fn add_row.now y (take side rows.old) (drop side rows.old) below × (rows.new ≡ take side rows.old ++ below) }
{
    let (above, below) = rows.split_at_mut(side);
    add_row(y, below, above);
}

// Fills a table from a first row of zeros on; `add_row` fills row y + 1 from row y.
fn fill_rows<F: Fn(usize, &mut [u64], &[u64])>(table: &mut [u64], w: usize, h: usize, add_row: &F)
    ghost v: { ℕ → ℕ → ℕ }
    requires sizes { (w ≤ side_most) × (h ≤ side_most) × (length table.old ≡ (w + 1) * (h + 1)) }
    requires small { (x y : ℕ) → v x y ≤ 65025 }
    requires adds { AddsRows F.Fn add_row.now w h v }
    ensures { table.new ≡ table_of w h v }
{
    let side = w + 1;
    table[..side].fill(0);
    for y in 0..h {
        let top = y * side;
        let end = top + 2 * side;
        fill_row(&mut table[top..end], side, y, add_row);
    }
}

// The table of the picture's levels.
pub fn fill_levels(table: &mut [u64], pic: &[u8], w: usize, h: usize)
    requires { Sizes w h table.old pic.now }
    ensures { table.new ≡ table_of w h (level_at w pic.now) }
{
    let add_row = |y: usize, below: &mut [u64], above: &[u64]|
        requires { (y * w + w ≤ length pic.now) × RowReady w above.now × (length below.old ≡ length above.now) }
        ensures { below.new ≡ next_row w (λ x. level_at w pic.entry.now x y) above.now }
    {
        let first = y * w;
        add_levels(below, above, &pic[first..first + w]);
    };
    fill_rows(table, w, h, &add_row);
}

// The table of the products of a's levels by b's, taken `shift` columns further right.
pub fn fill_cross(table: &mut [u64], a: &[u8], b: &[u8], w: usize, h: usize, shift: i64)
    requires { Sizes w h table.old a.now × (length b.now ≡ w * h) × (nat_abs shift ≤ shift_most) }
    ensures { table.new ≡ table_of w h (cross_at w a.now b.now shift) }
{
    let add_row = move |y: usize, below: &mut [u64], above: &[u64]|
        requires { (y * w + w ≤ length a.now) × (length b.now ≡ length a.now) × (nat_abs shift ≤ shift_most) × RowReady w above.now × (length below.old ≡ length above.now) }
        ensures { below.new ≡ next_row w (λ x. cross_at w a.entry.now b.entry.now shift x y) above.now }
    {
        let first = y * w;
        let last = first + w;
        add_cross(below, above, &a[first..last], &b[first..last], shift);
    };
    fill_rows(table, w, h, &add_row);
}

// The table of the squares of the picture's levels: its products with itself, unshifted.
pub fn fill_squares(table: &mut [u64], pic: &[u8], w: usize, h: usize)
    requires { Sizes w h table.old pic.now }
    ensures { table.new ≡ table_of w h (square_at w pic.now) }
{
    fill_cross(table, pic, pic, w, h, 0);
}

// The sum over a window of n · n pixels, from the four corners of a table in rows of `side` cells; `at` is the first of them.
#[tactic(auto, unfolding(crate::specs::Window::corner_sum))]
pub fn window_sum(table: &[u64], side: usize, at: usize, n: usize) -> u64
    requires { Corners table.now side at n }
    ensures { result ≡ corner_sum table.now side at n }
{
    let below = at + n * side;
    let right = table[below + n] - table[at + n];
    let left = table[below] - table[at];
    right - left
}

// n·Saa - Sa², of the sum and the sum of squares of a window's n levels.
pub fn variance(n: u64, sum: u64, squares: u64) -> u64
    requires { (n * squares < 2 ^ 53) × (sum * sum ≤ n * squares) }
    ensures { result ≡ variance_of n sum squares }
{
    n * squares - sum * sum
}
