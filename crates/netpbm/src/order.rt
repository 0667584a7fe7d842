// The four bytes of a cell, in either order.
ghost use Rattle.std.specs.Prelude.{◌≡◌, ◌+◌, ◌≤◌, length, take, drop};
ghost use Rattle.std.specs.Float.{binary32};
ghost use Rattle.std.specs.Float.Ieee.{to_bits, of_bits};
ghost use Rattle.texts.specs.Pen.{HasRoom, Writes};
ghost use Rattle.netpbm.specs.Order.{four_bytes_of, four_pattern};
ghost use Rattle.netpbm.specs.Pfm.{outward, inward, cell_bytes, file_cell};

use maps::Cell;
use texts::Pen;

// Which byte of a number comes first: its lowest or its highest.
#[derive(Clone, Copy, Debug, PartialEq, Eq)]
pub enum Order {
    Little,
    Big,
}

impl Order {
    // The four bytes of a number.
    #[tactic(auto, using(crate::proofs::Orders::low_first, crate::proofs::Orders::high_first), unfolding(crate::specs::Order::four_bytes_of))]
    fn bytes_of(self, p: u32) -> [u8; 4]
        ensures { result ≡ four_bytes_of self p }
    {
        match self {
            Order::Little => p.to_le_bytes(),
            Order::Big => p.to_be_bytes(),
        }
    }

    // The number that four bytes have.
    #[tactic(auto, using(crate::proofs::Orders::from_low, crate::proofs::Orders::from_high), unfolding(crate::specs::Order::four_pattern))]
    fn number_of(self, bytes: [u8; 4]) -> u32
        ensures { result ≡ four_pattern self bytes }
    {
        match self {
            Order::Little => u32::from_le_bytes(bytes),
            Order::Big => u32::from_be_bytes(bytes),
        }
    }
}

// The bit pattern that a cell is written with: that of plus infinity for a blank cell, which is a NaN.
fn outward_pattern(x: f32) -> u32
    ensures { result ≡ to_bits binary32 (outward x) }
{
    if x != x { 0x7F80_0000 } else { f32::to_bits(x) }
}

// The cell that is read of a bit pattern: the mark where it is not finite.
fn inward_cell(p: u32) -> f32
    ensures { result ≡ inward (of_bits binary32 p) }
{
    // the exponent's field of an infinity and of a NaN
    if (p >> 23) % 256 == 255 {
        return f32::from(Cell::Mark);
    }
    f32::from_bits(p)
}

// Puts a cell where a pen stands.
#[tactic(auto, using(crate::proofs::Orders::four_bytes), unfolding(crate::specs::Pfm::cell_bytes))]
pub fn put_cell(order: Order, x: f32, pen: &mut Pen)
    requires { HasRoom pen.old 4 }
    ensures { Writes pen.old (cell_bytes order x) pen.new }
{
    pen.put_bytes(&order.bytes_of(outward_pattern(x)));
}

// The cell whose bytes stand at a place.
#[tactic(auto, using(crate::proofs::Orders::four_at), unfolding(crate::specs::Pfm::file_cell))]
pub fn cell_at(order: Order, s: &[u8], at: usize) -> f32
    requires { at + 4 ≤ length s.now }
    ensures { result ≡ file_cell order (take 4 (drop at s.now)) }
{
    let bytes = [s[at], s[at + 1], s[at + 2], s[at + 3]];
    inward_cell(order.number_of(bytes))
}
