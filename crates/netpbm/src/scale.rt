// The scale's line of a PFM header: only its sign counts, which says the order of the bytes.
ghost use Rattle.std.specs.Prelude.{◌≡◌};
ghost use Rattle.netpbm.specs.Pfm.{take_sign, take_fraction, take_scale};
ghost use Rattle.netpbm.specs.Inner.{number_read, held_number, sign_read, scale_read};

use crate::header::{read_number, read_word};
use crate::order::Order;
use refusals::Refusal;

// The order that the sign at the front says: a minus is little-endian, a plus or none big-endian.
#[tactic(auto, using(crate::proofs::Headers::word_tested), unfolding(crate::specs::Pfm::take_sign))]
fn read_sign(s: &[u8]) -> (Order, &[u8])
    ensures { sign_read result ≡ take_sign s.now }
{
    match s.strip_prefix(b"-") {
        Some(rest) => (Order::Little, rest),
        None => match s.strip_prefix(b"+") {
            Some(rest) => (Order::Big, rest),
            None => (Order::Big, s),
        },
    }
}

// Perhaps a point with digits; without one the fraction is 0.
#[tactic(auto, using(crate::proofs::Headers::word_tested), unfolding(crate::specs::Pfm::take_fraction))]
fn read_fraction(s: &[u8]) -> Result<(u64, &[u8]), Refusal>
    ensures { number_read result ≡ held_number (take_fraction s.now) }
{
    match s.strip_prefix(b".") {
        Some(rest) => read_number(rest),
        None => Ok((0, s)),
    }
}

// The scale's line.
#[tactic(auto, using(crate::proofs::Headers::held_is, crate::proofs::Headers::held_refused), unfolding(crate::specs::Pfm::take_scale))]
pub fn read_scale(s: &[u8]) -> Result<(Order, &[u8]), Refusal>
    ensures { scale_read result ≡ take_scale s.now }
{
    let (order, s) = read_sign(s);
    let (whole, s) = read_number(s)?;
    let (fraction, s) = read_fraction(s)?;
    if whole + fraction == 0 {
        return Err(Refusal::FileHeader);
    }
    let rest = read_word(s, b"\n")?;
    Ok((order, rest))
}
