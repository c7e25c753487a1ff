// A text that is written from front to back into a fixed buffer.
ghost use Rattle.std.specs.Prelude.{◌≡◌, [], ◌∷◌, ◌++◌, ◌+◌, ◌≤◌, ◌<◌, length};
ghost use Rattle.decimal.specs.Bytes.{most_number_bytes, date_bytes};
ghost use Rattle.decimal.specs.Decimal.{digits_of, text_of, two_digits, date_text};

use itoa::Buffer;
use std::marker::Model;

// The bytes that the listing program's text has room for.
pub const TEXT_BYTES: usize = 65536;

// A text with room for N bytes, which clauses see as its bytes.
// Kept: a fixed buffer with its length beside it, since there is no heap.
#[derive(Drop)]
pub struct Text<const N: usize> {
    bytes: [u8; N],
    len: usize,
}

impl<const N: usize> Model for Text<N> {
    ghost use Rattle.std.specs.Prelude.{ℕ, List, ◌≤◌, take};

    ghost Value = { List ℕ };

    ghost view = { λ t. take t.len t.bytes };

    ghost invariant = { λ t. t.len ≤ N };
}

impl<const N: usize> Text<N> {
    // A text of no bytes.
    pub fn new() -> Self
        ensures { result ≡ [] }
    {
        Text {
            bytes: [0; N],
            len: 0,
        }
    }

    pub fn len(&self) -> usize
        ensures value { result ≡ length self.now }
        ensures within { result ≤ N }
    {
        self.len
    }

    pub fn as_bytes(&self) -> &[u8]
        ensures { result.now ≡ self.now }
    {
        &self.bytes[..self.len]
    }

    pub fn clear(&mut self)
        ensures { self.new ≡ [] }
    {
        self.len = 0;
    }

    pub fn push(&mut self, b: u8)
        requires { length self.old < N }
        ensures text { self.new ≡ self.old ++ (b ∷ []) }
        ensures longer { length self.new ≡ length self.old + 1 }
    {
        self.bytes[self.len] = b;
        self.len += 1;
    }

    pub fn extend_from_slice(&mut self, bytes: &[u8])
        requires { length self.old + length bytes.now ≤ N }
        ensures text { self.new ≡ self.old ++ bytes.now }
        ensures longer { length self.new ≡ length self.old + length bytes.now }
    {
        let end = self.len + bytes.len();
        let buffer = &mut self.bytes[..];
        buffer[self.len..end].copy_from_slice(bytes);
        self.len = end;
    }

    // The digits of a number.
    pub fn push_digits(&mut self, n: u64)
        requires { length self.old + length (digits_of n) ≤ N }
        ensures text { self.new ≡ self.old ++ digits_of n }
        ensures longer { length self.new ≡ length self.old + length (digits_of n) }
    {
        let mut buffer = Buffer::new();
        self.extend_from_slice(buffer.format(n).as_bytes());
    }

    // A number, with a minus where it is below 0.
    // Kept, here, for dates and for the listing's lines (write_answer, write_bad_line, write_row, write_account): by `Display` the text
    // goes through a writer that may fail, and these cannot.
    pub fn push_number(&mut self, v: i64)
        requires { length self.old + most_number_bytes ≤ N }
        ensures text { self.new ≡ self.old ++ text_of v }
        ensures short { length self.new ≤ length self.old + most_number_bytes }
    {
        let mut buffer = Buffer::new();
        self.extend_from_slice(buffer.format(v).as_bytes());
    }

    // The last two digits of a number.
    fn push_two(&mut self, n: u64)
        requires { length self.old + 2 ≤ N }
        ensures text { self.new ≡ self.old ++ two_digits n }
        ensures short { length self.new ≡ length self.old + 2 }
    {
        self.push(b'0' + (n / 10 % 10) as u8);
        self.push(b'0' + (n % 10) as u8);
    }

    // The date of a day number as yyyy-mm-dd.
    pub fn push_date(&mut self, day: u64)
        requires { (length self.old + date_bytes ≤ N) × (1 ≤ day) × (day ≤ 36525) }
        ensures text { self.new ≡ self.old ++ date_text day }
        ensures short { length self.new ≡ length self.old + date_bytes }
    {
        let date = dates::date_of(day);
        self.push_two(date.year / 100);
        self.push_two(date.year % 100);
        self.push(b'-');
        self.push_two(date.month);
        self.push(b'-');
        self.push_two(date.day);
    }
}
