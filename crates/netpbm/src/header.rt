// The parts of a header. A reader takes the bytes that are left, and answers what stood at their front with the bytes after it.
ghost use Rattle.std.specs.Prelude.{◌≡◌, true, ◌-◌, ◌*◌, ◌+◌, ◌≤◌, ◌<◌, length, MatchOption};
ghost use Rattle.texts.specs.Digits.{is_digit, all_digits, decimal_from};
ghost use Rattle.netpbm.specs.Header.{is_white, ends_line, after_blanks, after_comment, digits_of, take_word, take_white, take_number, take_spaced, take_ended};
ghost use Rattle.netpbm.specs.Inner.{number_most, held, rest_read, number_read, held_number};

use refusals::Refusal;

// A number may have any count of digits; it is held as this one where it is above it.
const NUMBER_MOST: u64 = 65536;

// A word at the front.
#[tactic(auto, using(crate::proofs::Headers::word_tested), unfolding(crate::specs::Header::take_word))]
pub fn read_word<'a>(s: &'a [u8], word: &[u8]) -> Result<&'a [u8], Refusal>
    ensures { rest_read result ≡ take_word word.now s.now }
{
    s.strip_prefix(word).ok_or(Refusal::FileHeader)
}

// Whether a byte is a white-space character: space, TAB, LF, VT, FF or CR.
pub fn is_white(b: u8) -> bool
    ensures { result ≡ is_white b }
{
    b == b' ' || (b'\t' <= b && b <= b'\r')
}

// Whether a byte ends a comment.
fn ends_line(b: u8) -> bool
    ensures { result ≡ ends_line b }
{
    b == b'\n' || b == b'\r'
}

// A single white-space character at the front.
#[tactic(auto, unfolding(crate::specs::Header::take_white))]
pub fn read_white(s: &[u8]) -> Result<&[u8], Refusal>
    ensures { rest_read result ≡ take_white s.now }
{
    match s.split_first() {
        Some((b, rest)) if is_white(*b) => Ok(rest),
        _ => Err(Refusal::FileHeader),
    }
}

// What follows a comment's line end, for bytes within the comment.
#[tactic(auto, using(crate::proofs::Headers::past_end, crate::proofs::Headers::past_text, crate::proofs::Headers::comment_end))]
fn past_line(s: &[u8]) -> &[u8]
    ensures blanks { after_comment s.now ≡ after_blanks result.now }
    ensures shorter { length result.now ≤ length s.now }
{
    let mut rest = s;
    while let Some((b, after)) = rest.split_first() {
        if ends_line(*b) {
            return after;
        }
        rest = after;
    }
    rest
}

// What follows one white-space character or one comment, if one is at the front.
#[tactic(auto, using(crate::proofs::Headers::past_white, crate::proofs::Headers::past_hash, crate::proofs::Headers::blanks_end))]
fn past_blank(s: &[u8]) -> Option<&[u8]>
    ensures { MatchOption result (after_blanks s.now ≡ s.now) (λ rest. (after_blanks s.now ≡ after_blanks rest.now) × (length rest.now < length s.now)) }
{
    let (b, rest) = s.split_first()?;
    if is_white(*b) {
        return Some(rest);
    }
    if *b == b'#' {
        return Some(past_line(rest));
    }
    None
}

// What follows white space and comments.
fn past_blanks(s: &[u8]) -> &[u8]
    ensures { result.now ≡ after_blanks s.now }
{
    let mut rest = s;
    while let Some(after) = past_blank(rest) {
        rest = after;
    }
    rest
}

// How many digits are at the front.
fn digits_long(s: &[u8]) -> usize
    ensures { result ≡ length (digits_of s.now) }
{
    s.iter().take_while(|b| b.is_ascii_digit()).count()
}

// The number after a further digit.
fn with_digit(n: u64, b: u8) -> u64
    requires n_le_number_most { n ≤ number_most }
    requires b_value { is_digit b ≡ true }
    ensures { result ≡ held (n * 10 + (b - 48)) }
{
    (n * 10 + u64::from(b - b'0')).min(NUMBER_MOST)
}

// The number that digits write.
#[tactic(auto, using(crate::proofs::Headers::numbered_all, crate::proofs::Headers::numbered_digit, crate::proofs::Headers::numbered_next))]
fn number_of(digits: &[u8]) -> u64
    requires { all_digits digits.now ≡ true }
    ensures { result ≡ held (decimal_from 0 digits.now) }
{
    let mut n: u64 = 0;
    for b in digits {
        n = with_digit(n, *b);
    }
    n
}

// The number at the front.
#[tactic(auto, using(crate::proofs::Headers::digits_inside, crate::proofs::Headers::digits_part, crate::proofs::Headers::digits_all, crate::proofs::Headers::number_none, crate::proofs::Headers::number_is))]
pub fn read_number(s: &[u8]) -> Result<(u64, &[u8]), Refusal>
    ensures { number_read result ≡ held_number (take_number s.now) }
{
    let long = digits_long(s);
    if long == 0 {
        return Err(Refusal::FileHeader);
    }
    let (digits, rest) = s.split_at(long);
    Ok((number_of(digits), rest))
}

// White space and then a number.
#[tactic(auto, using(crate::proofs::Headers::spaced_none, crate::proofs::Headers::spaced_is))]
pub fn read_spaced(s: &[u8]) -> Result<(u64, &[u8]), Refusal>
    ensures { number_read result ≡ held_number (take_spaced s.now) }
{
    let rest = past_blanks(s);
    if rest.len() == s.len() {
        return Err(Refusal::FileHeader);
    }
    read_number(rest)
}

// A number and the word that ends it.
#[tactic(auto, using(crate::proofs::Headers::held_is, crate::proofs::Headers::held_refused), unfolding(crate::specs::Header::take_ended))]
pub fn read_ended<'a>(s: &'a [u8], stop: &[u8]) -> Result<(u64, &'a [u8]), Refusal>
    ensures { number_read result ≡ held_number (take_ended stop.now s.now) }
{
    let (n, rest) = read_number(s)?;
    let rest = read_word(rest, stop)?;
    Ok((n, rest))
}
