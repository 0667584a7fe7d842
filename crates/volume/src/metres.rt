// Coordinates in metres as whole millimetres, and whether they are of a size to be used.
ghost use Rattle.std.specs.Prelude.{◌≡◌, true};
ghost use Rattle.volume.specs.Metres.{millimetres, good_coordinate, all_good, spot_of, are_good};

use numbers::wide::round_half_away_wide;

// A point, in whole millimetres.
#[derive(Clone, Copy)]
pub struct Spot {
    pub x: i64,
    pub y: i64,
    pub z: i64,
}

// Points, by the lists of their coordinates in metres: hosts lend them as three.
#[derive(Clone, Copy)]
pub struct Points<'a> {
    pub xs: &'a [f64],
    pub ys: &'a [f64],
    pub zs: &'a [f64],
}

// Whether a coordinate is finite and at most 100,000 mm in size. From half a millimetre beyond that on it rounds to more.
fn is_good(x: f64) -> bool
    ensures { result ≡ good_coordinate x }
{
    let product = x * 1000.0;
    product < 100000.5 && -100000.5 < product
}

// Whether all coordinates are.
fn all_good(xs: &[f64]) -> bool
    ensures { result ≡ all_good xs.now }
{
    xs.iter().all(|x| is_good(*x))
}

// A coordinate in whole millimetres. The cast is of whole numbers; minus zero is none of them to it.
fn to_millimetres(x: f64) -> i64
    requires { good_coordinate x ≡ true }
    ensures { result ≡ millimetres x }
{
    let whole = round_half_away_wide(x * 1000.0);
    if whole == 0.0 { 0 } else { whole as i64 }
}

impl Spot {
    // A point given in metres.
    pub fn from_metres(x: f64, y: f64, z: f64) -> Spot
        requires x { good_coordinate x ≡ true }
        requires y { good_coordinate y ≡ true }
        requires z { good_coordinate z ≡ true }
        ensures { result ≡ spot_of x y z }
    {
        Spot {
            x: to_millimetres(x),
            y: to_millimetres(y),
            z: to_millimetres(z),
        }
    }
}

impl Points<'_> {
    // Whether each point has its three coordinates, all of them good.
    #[tactic(auto, unfolding(crate::specs::Metres::good_points))]
    pub fn are_good(self) -> bool
        ensures { result ≡ are_good self.entry }
    {
        let Points { xs, ys, zs } = self;
        ys.len() == xs.len() && zs.len() == xs.len() && all_good(xs) && all_good(ys) && all_good(zs)
    }
}
