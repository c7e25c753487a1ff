// The first steps of a day tick: holds begun 30 days ago end as by verdict 0, then settlement of the accounts for which something can
// have changed.
#![tactic(auto)]

ghost use Rattle.std.specs.Prelude.{◌≡◌, true, ◌≤◌};
ghost use Rattle.records.specs.Encoding.{row_at};
ghost use Rattle.records.specs.Limits.{most_accounts};
ghost use Rattle.rules.specs.Tick.{end_hold};
ghost use Rattle.rules.specs.Tables.{sound_tables, three_tables};
ghost use Rattle.tables.specs.Changes.{RowIn, RowChanged, RowsMapped};
ghost use Rattle.settlement.specs.Settling.{Journal};
ghost use Rattle.tick_holds.specs.Holds.{Ending, EndingRows, HoldsCounted, SettledThose, UnraisedRows};

use account_sums::SLOTS;
use lent::Tables;
use posting::rows::released;
use row_passes::change_rows;
use settlement::settle;
use table_rows::{read_row, write_row};
use tick_base::holds::ends_at;

// Row i, released where its hold ends.
fn end_hold(journal: &mut [i64], i: usize, today: u64)
    requires { RowIn journal.old i × Ending today (row_at journal.old i) }
    ensures { RowChanged journal.old journal.new i
        (end_hold today (row_at journal.old i)) }
{
    if ends_at(journal, i, today) {
        let r = read_row(journal, i);
        write_row(journal, i, released(r, today));
    }
}

// The used rows, those whose hold ends released.
fn end_holds(journal: &mut [i64], used: usize, today: u64)
    requires { EndingRows journal.old used today }
    ensures { RowsMapped (end_hold today) journal.old journal.new used }
{
    change_rows(journal, used, |rows, i| end_hold(rows, i, today));
}

// Accounts 1 to `count`, those settled of which a hold has ended and that have unused money.
fn settle_freed(
    journal: &mut [i64],
    used: usize,
    count: usize,
    ends: &[u64; SLOTS],
    money: &[u64; SLOTS],
)
    requires { Journal journal.old used × (count ≤ most_accounts) }
    ensures { SettledThose ends.now money.now count journal.old journal.new used }
{
    for i in 0..count {
        let n = i + 1;
        if (0 < ends[n]) & (0 < money[n]) {
            settle(journal, used, n as u64);
        }
    }
}

// The holds that end at the tick to the next day, and the settlement that they allow, where it is counted by account how many end and what
// money is unused.
pub fn free_and_settle(
    header: &[i64],
    accounts: &[i64],
    journal: &mut [i64],
    ends: &[u64; SLOTS],
    money: &[u64; SLOTS],
)
    requires { (sound_tables (three_tables header.now accounts.now journal.old) ≡ true)
        × HoldsCounted (three_tables header.now accounts.now journal.old) ends.now money.now }
    ensures { UnraisedRows (three_tables header.now accounts.now journal.old) journal.new }
{
    let t = Tables {
        header,
        accounts,
        journal,
    };
    let used = t.used() as usize;
    let today = t.day() + 1;
    let count = t.count();
    end_holds(journal, used, today);
    settle_freed(journal, used, count, ends, money);
}
