// One direction of the rectangle: from a low edge on up to a high one, in cells.
ghost use Rattle.std.specs.Prelude.{◌≡◌, ◌/◌, ◌<◌, cond};
ghost use Rattle.volume.specs.Metres.{is_near};
ghost use Rattle.volume.specs.Rectangle.{above, multiple};
ghost use Rattle.volume.specs.Heights.{is_between};
ghost use Rattle.volume.specs.Inner.{Near};

// The largest size of a coordinate, an edge or the floor depth, in millimetres.
const SIZE_MOST: u64 = 100000;

// Whether a number of millimetres is at most 100,000 in size.
pub fn is_near(v: i64) -> bool
    ensures { result ≡ is_near v }
{
    v.unsigned_abs() <= SIZE_MOST
}

// How far a lies above b, and 0 where it lies below.
pub fn above_by(a: i64, b: i64) -> usize
    requires { Near a × Near b }
    ensures { result ≡ above a b }
{
    (a - b).max(0) as usize
}

// A side of the rectangle: its low edge lies inside and its high edge outside. Its cells begin at the low edge.
#[derive(Clone, Copy)]
pub struct Side {
    pub low: i64,
    pub high: i64,
    pub cell: usize,
    ghost low_near: { Near low },
    ghost high_near: { Near high },
    ghost cell_some: { 0 < cell },
}

impl Side {
    // Whether v lies between the edges.
    #[tactic(auto, unfolding(crate::specs::Heights::is_between))]
    fn contains(self, v: i64) -> bool
        ensures { result ≡ is_between self.low self.high v }
    {
        self.low <= v && v < self.high
    }

    // How long the side is, and 0 where its high edge is not the higher one.
    fn length(self) -> usize
        ensures { result ≡ above self.high self.low }
    {
        above_by(self.high, self.low)
    }

    // Whether it is positive and a whole multiple of the cell's.
    #[tactic(auto, unfolding(crate::specs::Rectangle::multiple))]
    pub fn is_whole(self) -> bool
        ensures { result ≡ multiple (above self.high self.low) self.cell }
    {
        let length = self.length();
        0 < length && length % self.cell == 0
    }

    // How many cells there are along it.
    pub fn cells(self) -> usize
        ensures { result ≡ above self.high self.low / self.cell }
    {
        self.length() / self.cell
    }

    // Which of these v lies in, if it lies between the edges.
    pub fn cell_at(self, v: i64) -> Option<usize>
        ensures { result ≡ cond (is_between self.low self.high v) (Some (above v self.low / self.cell)) None }
    {
        if self.contains(v) {
            Some(above_by(v, self.low) / self.cell)
        } else {
            None
        }
    }
}
