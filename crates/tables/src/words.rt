// One word of a table as a number, and a difference as a word: the only functions that see a signed number.
ghost use Rattle.std.specs.Prelude.{◌≡◌, ◌+◌, ◌^◌, ◌≤◌, ◌<◌, map, pos, length, set};
ghost use Rattle.records.specs.Encoding.{word, Storable};
ghost use Rattle.rules.specs.Book.{minus};
ghost use Rattle.tables.specs.Changes.{put_all};

use records::words::natural;

// The word at a place.
pub fn get(t: &[i64], i: usize) -> u64
    requires { i < length t.now }
    ensures { result ≡ word t.now i }
{
    natural(t[i])
}

// A number stored at a place.
pub fn put(t: &mut [i64], i: usize, v: u64)
    requires { (i < length t.old) × (v < 2 ^ 63) }
    ensures { t.new ≡ set t.old i (pos v) }
{
    t[i] = v as i64;
}

// A record's words stored, the first at place p.
pub fn put_words<const N: usize>(t: &mut [i64], p: usize, words: [u64; N])
    requires { (p + N ≤ length t.old) × Storable words }
    ensures { t.new ≡ put_all t.old p 0 (map pos words.entry) }
{
    for i in 0..N {
        put(t, p + i, words[i]);
    }
}

// a - b as a word.
pub fn minus(a: u64, b: u64) -> i64
    requires { (a < 2 ^ 63) × (b < 2 ^ 63) }
    ensures { result ≡ minus a b }
{
    (a as i64) - (b as i64)
}
