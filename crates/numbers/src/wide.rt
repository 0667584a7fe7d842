// What `plain` and `away` have of an `f32`, of an `f64`: its magnitude, and rounded to a whole number, halves away from zero.
// A trait would have to list each float operation that the bodies use, and be longer than they are.
ghost use Rattle.std.specs.Prelude.{◌≡◌};
ghost use Rattle.std.specs.Float.{binary64};
ghost use Rattle.numbers.specs.Away.{rounded_away};
ghost use Rattle.numbers.specs.Plain.{magnitude_of};

// x without its sign.
pub fn magnitude_wide(x: f64) -> f64
    ensures { result ≡ magnitude_of x }
{
    if x < 0.0 {
        return -x;
    }
    if x == 0.0 {
        return 0.0;
    }
    x
}

// The whole number nearest to x, and from halfway the one further from zero, with x's sign. Below 2^52 twice x is exact.
pub fn round_half_away_wide(x: f64) -> f64
    ensures { result ≡ rounded_away binary64 x }
{
    let size = magnitude_wide(x);
    if size < 4503599627370496.0 {
        let halves = std::num::truncating_f64_to_u64(size + size);
        let whole = ((halves + 1) / 2) as f64;
        if x < 0.0 {
            return -whole;
        }
        if x == 0.0 {
            return x;
        }
        return whole;
    }
    x
}
