// Which accounts are used, a mark for each number. Each row's account is looked up: among 257 bytes, and not in the accounts' table, of which
// a row reads one word in 72 bytes.
ghost use Rattle.std.specs.Prelude.{◌≡◌, not, ◌*◌, ◌≤◌, length};
ghost use Rattle.lists.specs.Tests.{◌is◌};
ghost use Rattle.records.specs.Layout.{account_width};
ghost use Rattle.records.specs.Encoding.{accounts_of};
ghost use Rattle.records.specs.Limits.{slot_count};
ghost use Rattle.rules.specs.Book.{account_no, state_unused};
ghost use Rattle.sound_journal.specs.Marks.{Marked};

use records::codes::STATE_UNUSED;
use records::limits::SLOT_COUNT;
use table_accounts::account_numbered;

fn is_used(accounts: &[i64], count: usize, n: u64) -> bool
    requires { count * account_width ≤ length accounts.now }
    ensures { result ≡ not ((account_no (accounts_of accounts.now count) n).state is state_unused) }
{
    account_numbered(accounts, count, n).state != STATE_UNUSED
}

// Each mark told anew.
pub fn mark_used(accounts: &[i64], count: usize, marks: &mut [bool; SLOT_COUNT])
    requires { (count * account_width ≤ length accounts.now) × (length marks.old ≡ slot_count) }
    ensures { Marked accounts.now count marks.new }
{
    for n in 0..SLOT_COUNT {
        marks[n] = is_used(accounts, count, n as u64);
    }
}

pub fn marks_of(accounts: &[i64], count: usize) -> [bool; SLOT_COUNT]
    requires { count * account_width ≤ length accounts.now }
    ensures { Marked accounts.now count result }
{
    let mut marks = [false; SLOT_COUNT];
    mark_used(accounts, count, &mut marks);
    marks
}
