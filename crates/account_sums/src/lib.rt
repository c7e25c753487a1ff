// What the rows come to for each account, in arrays by account number: one sum, or the six sums that soundness compares.
#![tactic(auto)]

ghost use Rattle.std.specs.Prelude.{◌≡◌, cond, ◌+◌, ◌^◌, ◌<◌, get_or, set};
ghost use Rattle.records.specs.Limits.{most_rows, slot_count};
ghost use Rattle.account_sums.specs.AccountSums.{Low, Small, sourced, debited, with_source, with_debit, Addable};

use records::Row;
use records::limits::SLOT_COUNT;

// A sum for each account number, from 0 on.
pub const SLOTS: usize = SLOT_COUNT;

// What an account's rows come to, by default those of no rows. An array of them has the sums of an account side by side, so that a row
// touches one place of memory.
#[derive(Clone, Copy, Default)]
pub struct Sums {
    pub returned: u64, // checks that were returned
    pub drawn: u64, // what is used of its sources
    pub money: u64, // what is not
    pub paid: u64, // what is settled of its debits
    pub debt: u64, // what settlement may pay of them
    pub owed: u64, // all that is unsettled
}

impl Sums {
    // A source: whether it is a returned check, what is used of it, what is not.
    fn take_source(&mut self, r: Row, returned: bool)
        requires { Low self.old most_rows × Small r }
        ensures { self.new ≡ sourced self.old r returned }
    {
        self.returned += part(returned, 1);
        self.drawn += r.settled;
        self.money += r.amount - r.settled;
    }

    // A debit: what is settled of it, what settlement may pay, all that is unsettled.
    fn take_debit(&mut self, r: Row, held: bool)
        requires { Low self.old most_rows × Small r }
        ensures { self.new ≡ debited self.old r held }
    {
        let left = r.amount - r.settled;
        self.paid += r.settled;
        self.debt += part(!held, left);
        self.owed += left;
    }
}

pub fn part(test: bool, v: u64) -> u64
    ensures { result ≡ cond test v 0 }
{
    if test { v } else { 0 }
}

pub fn add(sums: &mut [u64; SLOTS], account: usize, v: u64)
    requires { (account < slot_count) × (get_or sums.old account 0 + v < 2 ^ 64) }
    ensures { sums.new ≡ set sums.old account (get_or sums.old account 0 + v) }
{
    sums[account] += v;
}

// A source goes to its account's sums.
pub fn add_source(sums: &mut [Sums; SLOTS], r: Row, returned: bool)
    requires { Addable sums.old r }
    ensures { sums.new ≡ with_source sums.old r returned }
{
    sums[r.account as usize].take_source(r, returned);
}

// So does a debit.
pub fn add_debit(sums: &mut [Sums; SLOTS], r: Row, held: bool)
    requires { Addable sums.old r }
    ensures { sums.new ≡ with_debit sums.old r held }
{
    sums[r.account as usize].take_debit(r, held);
}
