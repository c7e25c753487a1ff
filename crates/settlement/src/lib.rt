// The settlement of one account over the journal: unused sources in row order pay the unheld unsettled tolls in row order, then the unheld
// unsettled fees and reversals in row order, until either side is spent (document 02, No. 5).
#![tactic(auto)]

ghost use Rattle.std.specs.Prelude.{◌≡◌, ◌+◌, ◌*◌, ◌^◌, ◌≤◌, ◌<◌, min};
ghost use Rattle.records.specs.Encoding.{row_at};
ghost use Rattle.lists.specs.Lists.{only};
ghost use Rattle.rules.specs.Rows.{remaining, settle_more, source_of};
ghost use Rattle.tables.specs.Changes.{RowIn, RowChanged};
ghost use Rattle.table_rows.specs.UsedRows.{rows_in};
ghost use Rattle.settlement.specs.Settling.{in_rank, of_rank, Journal, Begun, NextDebit, RankSettled, Settled};

use records::Row;
use records::codes::KIND_TOLL;
use row_tests::{is_debit, is_held, is_source, remaining_of};
use table_rows::{Rows, account_at, put_settled, read_row};

// The two ranks of debits, the first to be paid first. A refund is settled whole from the day it is added, so it wants nothing in either.
#[derive(Clone, Copy)]
pub enum Rank {
    Tolls,
    FeesAndReversals,
}

// A debit of the rank, held or not.
fn in_rank(r: Row, rank: Rank) -> bool
    ensures { result ≡ in_rank rank r }
{
    match rank {
        Rank::Tolls => r.kind == KIND_TOLL,
        Rank::FeesAndReversals => is_debit(r) & (r.kind != KIND_TOLL),
    }
}

// What row i has as a source of the account. Most rows are other accounts', so the account is read first and alone.
fn unused(journal: &[i64], i: usize, account: u64) -> u64
    requires { RowIn journal.now i }
    ensures { result ≡ only (source_of account) remaining (row_at journal.now i) }
{
    if account_at(journal, i) != account {
        return 0;
    }
    let r = read_row(journal, i);
    if is_source(r) {
        return remaining_of(r);
    }
    0
}

// What row i wants as a debit of the account, of this rank and not held; the account is read first here too.
fn wanted(rows: &Rows, i: usize, account: u64, rank: Rank) -> u64
    requires { i < rows.now.used }
    ensures { result
        ≡ only (of_rank rank (rows_in rows.now) account) remaining (row_at rows.now.journal.now i) }
{
    if account_at(rows.journal, i) != account {
        return 0;
    }
    let r = read_row(rows.journal, i);
    if in_rank(r, rank) {
        if is_held(rows, r) {
            return 0;
        }
        return remaining_of(r);
    }
    0
}

// The first used row from j on that wants something in the rank, if there is one.
fn next_debit(rows: &Rows, j: usize, account: u64, rank: Rank) -> Option<usize>
    requires { j ≤ rows.now.used }
    ensures { NextDebit (of_rank rank (rows_in rows.now) account) rows.now.journal.now rows.now.used j result }
{
    (j..rows.used).find(|k| 0 < wanted(rows, *k, account, rank))
}

// Row i has m more settled.
fn add_settled(journal: &mut [i64], i: usize, m: u64)
    requires { RowIn journal.old i × ((row_at journal.old i).settled + m < 2 ^ 63) }
    ensures { RowChanged journal.old journal.new i (settle_more (row_at journal.old i) m) }
{
    let r = read_row(journal, i);
    put_settled(journal, i, r.settled + m);
}

// Settles the account's debits of one rank among the used rows, from the rows given for its sources and its debits on. It gives back the
// first row that can still be a source with something left: one that this rank has not spent, or the end of the used rows.
fn settle_rank(
    journal: &mut [i64],
    used: usize,
    account: u64,
    rank: Rank,
    source: usize,
    debit: usize,
) -> usize
    requires { Journal journal.old used × Begun journal.old used account source debit }
    ensures { RankSettled rank journal.old journal.new used account result debit }
{
    let mut j = debit;
    let mut left = used;
    'sources: for i in source..used {
        let mut x = unused(journal, i, account);
        // Kept: it goes by the money that is left of the source, and counts no index.
        while 0 < x {
            let rows = Rows { journal, used };
            let Some(next) = next_debit(&rows, j, account, rank) else {
                left = i;
                break 'sources;
            };
            j = next;
            let m = x.min(wanted(&rows, j, account, rank));
            add_settled(journal, i, m);
            add_settled(journal, j, m);
            x -= m;
        }
    }
    left
}

// Settles the account among the used rows, from the rows given for its sources and its debits on: its tolls, then its fees and reversals.
// The sources are passed over once, the debits once a rank.
pub fn settle_from(journal: &mut [i64], used: usize, account: u64, source: usize, debit: usize)
    requires { Journal journal.old used × Begun journal.old used account source debit }
    ensures { Settled journal.old journal.new used account }
{
    let rest = settle_rank(journal, used, account, Rank::Tolls, source, debit);
    settle_rank(journal, used, account, Rank::FeesAndReversals, rest, debit);
}

// Settles the account among the used rows, from the first one on.
pub fn settle(journal: &mut [i64], used: usize, account: u64)
    requires { Journal journal.old used }
    ensures { Settled journal.old journal.new used account }
{
    settle_from(journal, used, account, 0, 0);
}
