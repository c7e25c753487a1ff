// The texts of the listing: numbers and dates as bytes of a text (text.rt), the numbers of a line read back, and the search for a byte.
// Document 01 is the scope document of the toll account ledger.
#![tactic(auto)]

ghost use Rattle.std.specs.Prelude.{◌≡◌, [], ◌∷◌, ◌<◌, length, true, false, unwrap_or, IfSome, MatchOption};
ghost use Rattle.decimal.specs.Bytes.{index_of};
ghost use Rattle.decimal.specs.Decimal.{digit_value, magnitude, plain, minus, number_of, fields_of, is_numbers, numbers_of};

pub use text::{TEXT_BYTES, Text};

mod text;

// "1 to 19 digits", which 64 bits hold.
const MOST_DIGITS: usize = 19;

// The place of the first byte b, where there is one.
pub fn find(bytes: &[u8], b: u8) -> Option<usize>
    ensures value { unwrap_or result (length bytes.now) ≡ index_of b bytes.now }
    ensures within { IfSome result (λ k. k < length bytes.now) }
{
    bytes.iter().position(|x| *x == b)
}

// ---- a number

// The value of a digit's byte.
fn digit_value(b: u8) -> Option<u64>
    ensures { result ≡ digit_value b }
{
    if b.is_ascii_digit() {
        Some((b - b'0') as u64)
    } else {
        None
    }
}

// The value of 1 to 19 digits.
fn read_digits(bytes: &[u8]) -> Option<u64>
    ensures { result ≡ magnitude bytes.now }
{
    if bytes.is_empty() || bytes.len() > MOST_DIGITS {
        return None;
    }
    let mut v = 0u64;
    for b in bytes {
        v = v * 10 + digit_value(*b)?;
    }
    Some(v)
}

// The number that digits with no minus before them state.
// Kept beside `read_minus`: a line each, of the library's sum and difference.
fn read_plain(digits: &[u8]) -> Option<i64>
    ensures { result ≡ plain digits.now }
{
    0i64.checked_add_unsigned(read_digits(digits)?)
}

// The number that digits with a minus before them state.
fn read_minus(digits: &[u8]) -> Option<i64>
    ensures { result ≡ minus digits.now }
{
    0i64.checked_sub_unsigned(read_digits(digits)?)
}

// The number that a field states.
pub fn read_number(field: &[u8]) -> Option<i64>
    ensures { result ≡ number_of field.now }
{
    match field.strip_prefix(b"-") {
        Some(digits) => read_minus(digits),
        None => read_plain(field),
    }
}

// ---- a line

// The first field of a line, and the fields after its comma, where it has one.
fn next_field(line: &[u8]) -> (&[u8], Option<&[u8]>)
    ensures { MatchOption result.1
        (fields_of line.now ≡ result.0.now ∷ [])
        (λ after. fields_of line.now ≡ result.0.now ∷ fields_of after.now) }
{
    match find(line, b',') {
        Some(stop) => (&line[..stop], Some(&line[stop + 1..])),
        None => (line, None),
    }
}

// The numbers of a line that is exactly so many numbers with commas between them.
pub fn read_numbers<const N: usize>(line: &[u8]) -> Option<[i64; N]>
    ensures { MatchOption result
        (is_numbers N line.now ≡ false)
        (λ values. (is_numbers N line.now ≡ true) × (values ≡ numbers_of line.now)) }
{
    let mut values = [0i64; N];
    let mut rest = Some(line);
    for i in 0..N {
        let (field, after) = next_field(rest?);
        values[i] = read_number(field)?;
        rest = after;
    }
    match rest {
        Some(_) => None,
        None => Some(values),
    }
}
