// The listing's input as it is read: the bytes that are read and not yet taken.
#![tactic(auto)]

ghost use Rattle.std.specs.Prelude.{◌≡◌, [], ◌+◌, ◌≤◌, ◌<◌, length, take, drop, unwrap_or, IfSome};
ghost use Rattle.decimal.specs.Bytes.{index_of};
ghost use Rattle.listing_input.specs.Sizes.{input_bytes};

use decimal::find;
use std::io::Read;
use std::marker::Model;

// The bytes of the input's buffer.
const INPUT_BYTES: usize = 65536;

// The input, which clauses see as the bytes that are read and not yet taken.
// Kept: a fixed buffer as `decimal::Text` is, since there is no heap; bytes are taken from its front, and a text only grows: they
// share `new` and `as_bytes`, of a line each.
#[derive(Drop)]
pub struct Input {
    bytes: [u8; INPUT_BYTES],
    from: usize,
    to: usize,
}

impl Model for Input {
    ghost use Rattle.std.specs.Prelude.{ℕ, List, ◌-◌, ◌≤◌, take, drop};
    ghost use Rattle.listing_input.specs.Sizes.{input_bytes};

    ghost Value = { List ℕ };

    ghost view = { λ i. take (i.to - i.from) (drop i.from i.bytes) };

    ghost invariant = { λ i. (i.from ≤ i.to) × (i.to ≤ input_bytes) };
}

// The place of the first line feed, where there is one.
pub fn line_end(bytes: &[u8]) -> Option<usize>
    ensures value { unwrap_or result (length bytes.now) ≡ index_of 10 bytes.now }
    ensures within { IfSome result (λ k. k < length bytes.now) }
{
    find(bytes, b'\n')
}

impl Input {
    // Nothing is read.
    pub fn new() -> Self
        ensures { result ≡ [] }
    {
        Input {
            bytes: [0; INPUT_BYTES],
            from: 0,
            to: 0,
        }
    }

    pub fn as_bytes(&self) -> &[u8]
        ensures { result.now ≡ self.now }
    {
        &self.bytes[self.from..self.to]
    }

    // The place of the first line feed, where there is one.
    pub fn line_end(&self) -> Option<usize>
        ensures value { unwrap_or result (length self.now) ≡ index_of 10 self.now }
        ensures within { IfSome result (λ k. k < length self.now) }
    {
        line_end(self.as_bytes())
    }

    // Takes the first n bytes.
    pub fn skip(&mut self, n: usize)
        requires { n ≤ length self.old }
        ensures { self.new ≡ drop n self.old }
    {
        self.from += n;
    }

    // Moves the bytes to the start of the buffer and reads more after them. Returns how many came, none at the input's end or where the
    // read fails.
    pub fn read_more(&mut self, rt: &HostRuntime) -> usize
        requires { length self.old < input_bytes }
        ensures kept { take (length self.old) self.new ≡ self.old }
        ensures longer { length self.new ≡ length self.old + result }
    {
        let n = self.to - self.from;
        self.bytes.copy_within(self.from..self.to, 0);
        let more = read_part(rt, &mut self.bytes[n..]);
        self.from = 0;
        self.to = n + more;
        more
    }
}

// Reads into a part of a buffer, and returns how many bytes came, none at the input's end or where the read fails. Into an empty part none
// come anywhere.
fn read_part(rt: &HostRuntime, part: &mut [u8]) -> usize
    requires some { 0 < length part.old }
    ensures { result ≤ length part.new }
{
    rt.stdin().read(part).unwrap_or(0)
}
