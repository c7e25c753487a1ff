// Days counted back from today: which holds end, and whose days to close are over.
ghost use Rattle.std.specs.Prelude.{◌≡◌};
ghost use Rattle.rules.specs.Tick.{hold_ends};
ghost use Rattle.tick_base.specs.Remainders.{days_over};

use records::codes::STATE_PENDING;
use records::limits::{CLOSING_DAYS, HOLD_DAYS};
use records::{Account, Row};
use row_tests::held_toll;

// A held toll whose hold began 30 days ago.
pub fn hold_ends(r: Row, today: u64) -> bool
    ensures { result ≡ hold_ends today r }
{
    if !held_toll(r) {
        return false;
    }
    if today < r.hold {
        return false;
    }
    today - r.hold == HOLD_DAYS
}

// Pending, its 15 days over today.
pub fn days_over(x: Account, today: u64) -> bool
    ensures { result ≡ days_over today x }
{
    if x.state != STATE_PENDING {
        return false;
    }
    if today < x.request {
        return false;
    }
    CLOSING_DAYS <= today - x.request
}
