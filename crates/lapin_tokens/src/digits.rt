//! The digits that a line begins with, as a number.

ghost use Rattle.std.specs.Prelude.{◌≡◌, ◌≢◌, ◌==◌, ◌<◌, ◌≤◌, ℕ, false, true, take, length, slice_index, IfSome};
ghost use Rattle.std.specs.Str.Parse.{digits_value, AllDigits};
ghost use Rattle.std.specs.Char.{digit_value};

/// So many digits say a number of 64 bits, whatever they are.
const MOST_DIGITS: usize = 19;

// The digit at this place of a line, among the first 19.
#[inline(always)]
fn digit_at(line: &[u8], place: usize) -> Option<u64>
    ensures within { IfSome result (λ d. (place < 19) × (place < length line.now)) }
    ensures digit { IfSome result (λ d. (d < 10) × (digit_value (slice_index line.now place) ≡ d)) }
    ensures no_space { IfSome result (λ d. (slice_index line.now place == 32) ≡ false) }
{
    if place < MOST_DIGITS && place < line.len() {
        let byte = line[place];
        if b'0' <= byte && byte <= b'9' {
            return Some(u64::from(byte - b'0'));
        }
    }
    None
}

/// The number that the first digits of a line say, at most 19, and how many these are. None of them is a space.
#[inline(always)]
pub(crate) fn digits_ahead(line: &[u8]) -> (u64, usize)
    ensures within { result.1 ≤ length line.now }
    ensures value { result.0 ≡ digits_value 10 (take result.1 line.now) }
    ensures digits { AllDigits 10 (take result.1 line.now) }
    ensures no_space { (k : ℕ) → k < result.1 → (slice_index line.now k == 32) ≡ false }
{
    let mut number = 0;
    let mut place = 0;
    while let Some(digit) = digit_at(line, place) {
        number = number * 10 + digit;
        place += 1;
    }
    (number, place)
}

/// Whether so many first digits of a line are a decimal: there is one, and no zero before another.
#[inline(always)]
pub(crate) fn begins_plainly(line: &[u8], place: usize) -> bool
    requires { place ≤ length line.now }
    ensures some { result ≡ true → 0 < place }
    ensures plain { result ≡ true → 1 < place → slice_index line.now 0 ≢ 48 }
{
    if place == 1 {
        return true;
    }
    place > 1 && line[0] != b'0'
}
