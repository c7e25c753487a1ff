// The accounts that will close, and those of them that have money left.
ghost use Rattle.std.specs.Prelude.{◌≡◌, true, false, ◌≤◌, ◌<◌, map, length};
ghost use Rattle.lists.specs.Lists.{gather};
ghost use Rattle.records.specs.Encoding.{nat_of, accounts_of};
ghost use Rattle.records.specs.Limits.{most_accounts, slot_count};
ghost use Rattle.rules.specs.BusinessDays.{business_day, holidays_fit};
ghost use Rattle.rules.specs.Tables.{accounts_in};
ghost use Rattle.lent.specs.Lent.{lent};
ghost use Rattle.tick_plan.specs.Plans.{close_at, NoneClosesBy, refunds_at, refund_at};

use super::rows::RowCounts;
use holidays::is_business_day;
use lent::Tables;
use records::Account;
use table_accounts::read_account;
use tick_base::days::days_over;

impl RowCounts {
    // Account n, which is x, will close on a business day: its days are over, none of its tolls stays held, and its money covers what it
    // owes.
    fn will_close(&self, n: usize, x: Account) -> bool
        requires { n < slot_count }
        ensures { result ≡ close_at self.now n x }
    {
        let owed = self.remains.owed[n];
        let money = self.remains.money[n];
        days_over(x, self.today) & (self.stays[n] == 0) & (owed <= money)
    }

    // Whether an account would close on a business day.
    fn any_ready(&self, t: Tables) -> bool
        requires { accounts_in (lent t) ≤ most_accounts }
        ensures { result ≡ false → NoneClosesBy self.now t.entry.accounts.now (accounts_in (lent t.entry)) }
    {
        (0..t.count()).any(|i| self.will_close(i + 1, read_account(t.accounts, i)))
    }

    // Whether an account will close. The holidays are searched here, once a tick.
    pub fn any_closes(&self, t: Tables, holidays: &[i64]) -> bool
        requires { (accounts_in (lent t) ≤ most_accounts) × (holidays_fit (map nat_of holidays.now) ≡ true) }
        ensures business { result ≡ true → business_day (map nat_of holidays.now) self.now.today ≡ true }
        ensures none { result ≡ false
            → business_day (map nat_of holidays.now) self.now.today ≡ true
            → NoneClosesBy self.now t.entry.accounts.now (accounts_in (lent t.entry)) }
    {
        if !is_business_day(holidays, self.today) {
            return false;
        }
        self.any_ready(t)
    }

    // Account n, which is x, will close with money left, which brings a refund row.
    fn will_refund(&self, n: usize, x: Account) -> bool
        requires { n < slot_count }
        ensures { result ≡ refunds_at self.now n x }
    {
        self.will_close(n, x) & (self.remains.owed[n] < self.remains.money[n])
    }

    // How many refund rows the accounts bring.
    pub fn refunds_added(&self, t: Tables) -> usize
        requires { accounts_in (lent t) ≤ most_accounts }
        ensures { (result ≡ length (gather (refund_at self.now) (accounts_of t.entry.accounts.now (accounts_in (lent t.entry)))))
            × (result ≤ accounts_in (lent t.entry)) }
    {
        let mut refunds = 0;
        for i in 0..t.count() {
            refunds += usize::from(self.will_refund(i + 1, read_account(t.accounts, i)));
        }
        refunds
    }
}
