// A number as bytes: groups of seven bits, low group first, the high bit set on all but the last group. There is one writer and one
// reader of a number; every field and every cell goes through them.
ghost use Rattle.std.specs.Prelude.{◌≡◌, ◌+◌, ◌^◌, ◌<◌, ◌≤◌, ◌&&◌, length, ◌==◌, nat_lt};
ghost use Rattle.lists.specs.Stores.{Wrote};
ghost use Rattle.sheets.specs.Number.{number_bytes, take_number};
ghost use Rattle.sheets.specs.Inner.{number_read};

use refusals::Refusal;

// The most groups that a number has.
const GROUPS_MOST: usize = 5;

// How many bytes a number takes. Here and below the groups are divided off one by one: there is no slice to go over.
pub fn number_length(n: u64) -> usize
    requires { n < 2 ^ 35 }
    ensures { result ≡ length (number_bytes n) }
{
    let mut left = n;
    let mut length: usize = 1;
    while 128 <= left {
        left = left / 128;
        length += 1;
    }
    length
}

// Puts a number into `out` from `at` on, and answers the place past it. Two functions of this crate store bytes; a pen would serve them alone.
pub fn put_number(n: u64, out: &mut [u8], at: usize) -> usize
    requires n_bound { n < 2 ^ 35 }
    requires n_in_bounds { at + length (number_bytes n) ≤ length out.old }
    ensures { Wrote out.old at (number_bytes n) out.new result }
{
    let mut rest = n;
    let mut next = at;
    while 128 <= rest {
        out[next] = (128 + rest % 128) as u8;
        rest = rest / 128;
        next += 1;
    }
    out[next] = rest as u8;
    next + 1
}

// A byte as a number; the second clause is for the loop below, which knows no bound of the bytes that are left.
fn group_of(b: u8) -> u64
    ensures is { result ≡ b }
    ensures small { result < 256 }
{
    u64::from(b)
}

// Whether a last group only makes the number longer: a 0 behind `before` other groups.
fn is_padding(group: u64, before: usize) -> bool
    ensures { result ≡ nat_lt 0 before && (group == 0) }
{
    0 < before && group == 0
}

// The number at the front, and the bytes after it: refused where it is cut, has a last group of 0 behind others, or goes on after five
// groups. A loop, since a function that calls itself for each further group takes twice as long.
pub fn read_number(s: &[u8]) -> Result<(u64, &[u8]), Refusal>
    ensures { number_read result ≡ take_number s.now }
{
    let mut value: u64 = 0;
    let mut unit: u64 = 1;
    let mut rest = s;
    for before in 0..GROUPS_MOST {
        let Some((b, after)) = rest.split_first() else {
            return Err(Refusal::NumberUnfit);
        };
        let group = group_of(*b);
        if group < 128 {
            if is_padding(group, before) {
                return Err(Refusal::NumberUnfit);
            }
            return Ok((value + group * unit, after));
        }
        value += (group - 128) * unit;
        unit *= 128;
        rest = after;
    }
    Err(Refusal::NumberUnfit)
}
