// A float's magnitude, the smaller of two floats, and whether a float is finite.
ghost use Rattle.std.specs.Prelude.{◌≡◌};
ghost use Rattle.std.specs.Float.Ieee.Scale.{finite};
ghost use Rattle.numbers.specs.Plain.{magnitude_of, smaller_of};

// x without its sign: Rust's `abs`. Minus zero is no less than zero, and is told apart.
pub fn magnitude(x: f32) -> f32
    ensures { result ≡ magnitude_of x }
{
    if x < 0.0 {
        return -x;
    }
    if x == 0.0 {
        return 0.0;
    }
    x
}

// The smaller of a and b, and a where they are equal or one is a NaN.
pub fn smaller(a: f32, b: f32) -> f32
    ensures { result ≡ smaller_of a b }
{
    if b < a { b } else { a }
}

// Whether x is neither a NaN nor an infinity.
pub fn is_finite(x: f32) -> bool
    ensures { result ≡ finite x }
{
    x - x == 0.0
}

// Whether x is neither a NaN nor an infinity.
pub fn is_finite_wide(x: f64) -> bool
    ensures { result ≡ finite x }
{
    x - x == 0.0
}
