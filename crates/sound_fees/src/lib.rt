// "A toll of stage k is named by at most k - 1 fees": the fees that name each row are counted as they come, and one too many is refused
// at once.
#![tactic(auto)]

ghost use Rattle.std.specs.Prelude.{◌<◌, length, get_or};
ghost use Rattle.records.specs.Limits.{most_rows};
ghost use Rattle.sound_fees.specs.Fees.{CountsOne};

use records::Row;
use records::codes::KIND_TOLL;
use sound_header::tests::implies;

// One more fee that names row number n, `named`: false where that is more than it may have.
pub fn count_fee(counts: &mut [u16], n: usize, named: Row) -> bool
    requires { (n < length counts.old) × (get_or counts.old n 0 < most_rows) }
    ensures { CountsOne counts.old counts.new n named result }
{
    let c = counts[n] + 1;
    counts[n] = c;
    implies(named.kind == KIND_TOLL, u64::from(c) < named.mark)
}
