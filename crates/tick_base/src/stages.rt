// Which tolls rise at a tick, and their fees.
ghost use Rattle.std.specs.Prelude.{◌≡◌, cond, ◌+◌};
ghost use Rattle.records.specs.Layout.{header_schedule};
ghost use Rattle.rules.specs.Schedule.{stage_fee};
ghost use Rattle.rules.specs.Tick.{rises};
ghost use Rattle.rules.specs.Tables.{schedule_from};

use records::Row;
use records::codes::{KIND_TOLL, LAST_STAGE};
use records::layout::{FEE2_PLACE, HEADER_SCHEDULE};
use row_tests::held_toll;
use table_lists::Header;
use tables::words::get;

// An unheld unsettled toll under stage 4, due today.
pub fn is_rising(r: Row, today: u64) -> bool
    ensures { result ≡ rises today r }
{
    (r.kind == KIND_TOLL)
        & !held_toll(r)
        & (r.settled < r.amount)
        & (r.mark < LAST_STAGE)
        & (r.due == today)
}

// The fee for a stage: none before stage 2.
// Kept, here and in `fee_due`: a number, as the rules' `stage_fee` is one: a fee of 0 and no fee are the same, no row for either.
pub fn fee_of_stage(header: Header, stage: u64) -> u64
    ensures { result ≡ stage_fee (schedule_from header.entry.words.now header_schedule) stage }
{
    if stage < 2 {
        return 0;
    }
    if LAST_STAGE < stage {
        return 0;
    }
    get(
        header.words,
        HEADER_SCHEDULE + FEE2_PLACE + (stage - 2) as usize,
    )
}

// The fee that the row brings at the tick to `today`, 0 for none.
pub fn fee_due(header: Header, r: Row, today: u64) -> u64
    ensures { result ≡ cond (rises today r) (stage_fee (schedule_from header.entry.words.now header_schedule) (r.mark + 1)) 0 }
{
    if is_rising(r, today) {
        return fee_of_stage(header, r.mark + 1);
    }
    0
}
