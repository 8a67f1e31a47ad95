//! Cuts a text in two.

ghost use Rattle.std.specs.Prelude.{◌≡◌, ◌<◌, ◌∷◌, [], ◌==◌, length, MatchOption, Some, None, option_map};
ghost use Rattle.std.specs.List.{slice_split, position};
ghost use Rattle.pz_entries.specs.Reading.{cut_last, up_to, below, is_number, number_of};

fn place_of(text: &[u8], byte: u8) -> Option<usize>
    ensures { result ≡ position (λ b. b == byte) text.now }
{
    text.iter().position(|b| *b == byte)
}

/// What stands before and after the first such byte.
pub(crate) fn cut_first(text: &[u8], byte: u8) -> Option<(&[u8], &[u8])>
    ensures parts { MatchOption result (slice_split (λ b. b == byte) text.now ≡ text.now ∷ [])
        (λ parts. slice_split (λ b. b == byte) text.now ≡ parts.0.now ∷ slice_split (λ b. b == byte) parts.1.now) }
    ensures shorter { MatchOption result (Unit {0}) (λ parts. length parts.1.now < length text.now) }
{
    match place_of(text, byte) {
        None => None,
        Some(at) => Some((&text[..at], &text[at + 1..])),
    }
}

/// What stands before and after the last colon.
pub(crate) fn cut_last(text: &[u8]) -> Option<(&[u8], &[u8])>
    ensures { option_map (λ parts. (parts.0.now, parts.1.now)) result ≡ cut_last text.now }
{
    let mut end = text.len();
    while end > 0 {
        end -= 1;
        if text[end] == b':' {
            return Some((&text[..end], &text[end + 1..]));
        }
    }
    None
}

/// The number that the digits write, if it is at most `most`.
pub(crate) fn number_up_to(most: usize, digits: &[u8]) -> Option<usize>
    ensures { result ≡ up_to most (number_of digits.now) }
{
    if digits.is_empty() {
        return None;
    }
    let mut number: usize = 0;
    for digit in digits {
        if !digit.is_ascii_digit() {
            return None;
        }
        number = number
            .checked_mul(10)?
            .checked_add((*digit - b'0') as usize)?;
    }
    if number > most { None } else { Some(number) }
}

/// Whether the digits write this number.
pub(crate) fn writes_number(number: usize, digits: &[u8]) -> bool
    ensures { result ≡ is_number number (number_of digits.now) }
{
    match number_up_to(number, digits) {
        Some(written) => written == number,
        None => false,
    }
}

/// The number that the digits write, if it is below a count.
pub(crate) fn number_below(count: usize, digits: &[u8]) -> Option<usize>
    ensures { result ≡ below count (number_of digits.now) }
{
    match number_up_to(count, digits) {
        Some(number) if number < count => Some(number),
        _ => None,
    }
}
