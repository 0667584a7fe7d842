// Bytes, digits and numbers put into a lent slice by a pen, which knows the place where it stands.
#![tactic(auto)]

ghost use Rattle.std.specs.Prelude.{◌≡◌, [], ◌∷◌, ◌+◌, ◌≤◌, ◌<◌, length};
ghost use Rattle.lists.specs.Stores.{Wrote};
ghost use Rattle.texts.specs.Digits.{digit_byte, digits, places_of, decimal_text};
ghost use Rattle.texts.specs.Pen.{HasRoom, Writes};

// A lent slice, and the place in it where the next byte goes.
#[derive(Drop)]
pub struct Pen<'a> {
    pub out: &'a mut [u8],
    pub at: usize,
}

impl<'a> Pen<'a> {
    // A pen at the front of a slice.
    pub fn new(out: &'a mut [u8]) -> Pen<'a>
        ensures same_slice { result.out.ghost_name ≡ out.entry.ghost_name }
        ensures bytes { result.out.now ≡ out.old }
        ensures place { result.at ≡ 0 }
    {
        Pen { out, at: 0 }
    }

    pub fn put_byte(&mut self, b: u8)
        requires { HasRoom self.old 1 }
        ensures { Writes self.old (b ∷ []) self.new }
    {
        self.out[self.at] = b;
        self.at += 1;
    }

    pub fn put_bytes(&mut self, text: &[u8])
        requires { HasRoom self.old (length text.now) }
        ensures { Writes self.old text.now self.new }
    {
        let end = self.at + text.len();
        self.out[self.at..end].copy_from_slice(text);
        self.at = end;
    }

    // The last k digits of n in a base up to 16, from the last to the first.
    pub fn put_digits(&mut self, n: u64, base: u64, k: usize)
        requires base_nonzero { 0 < base }
        requires base_bound { base ≤ 16 }
        requires k_in_bounds { HasRoom self.old k }
        ensures { Writes self.old (digits base k n) self.new }
    {
        let mut rest = n;
        for i in (0..k).rev() {
            self.out[self.at + i] = digit_byte(rest % base);
            rest /= base;
        }
        self.at += k;
    }

    // A number below ten thousand.
    pub fn put_decimal(&mut self, n: usize)
        requires { HasRoom self.old 4 }
        ensures { Writes self.old (decimal_text n) self.new }
    {
        self.put_digits(n as u64, 10, places(n));
    }
}

fn digit_byte(d: u64) -> u8
    requires { d < 16 }
    ensures { result ≡ digit_byte d }
{
    if d < 10 {
        b'0' + d as u8
    } else {
        b'A' + (d - 10) as u8
    }
}

pub fn places(n: usize) -> usize
    ensures { result ≡ places_of n }
{
    match n {
        0..=9 => 1,
        10..=99 => 2,
        100..=999 => 3,
        _ => 4,
    }
}
