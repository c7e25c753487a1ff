// Tests on a row as a value: of which kind and account it is, what remains of it, whether it is a source, a debit, held.
#![tactic(auto)]

ghost use Rattle.std.specs.Prelude.{◌≡◌, ◌&&◌};
ghost use Rattle.lists.specs.Tests.{◌is◌};
ghost use Rattle.rules.specs.Rows.{Row, remaining, source, debit, held_toll, held};
ghost use Rattle.table_rows.specs.UsedRows.{rows_in};

use records::Row;
use records::codes::{
    DISPUTE_HELD, KIND_CREDIT, KIND_FEE, KIND_PAYMENT, KIND_REFUND, KIND_REVERSAL, KIND_TOLL,
};
use table_rows::Rows;

// A row of this kind and account, as an event has to name one.
pub fn is_of(r: Row, kind: u64, account: u64) -> bool
    ensures { result ≡ (r.kind is kind && r.account is account) }
{
    (r.kind == kind) & (r.account == account)
}

// What remains of a row: 0 where more is settled than its amount, which no sound book has.
pub fn remaining_of(r: Row) -> u64
    ensures { result ≡ remaining r }
{
    r.amount.saturating_sub(r.settled)
}

// A payment or a credit, by its kind alone.
pub fn is_source_kind(kind: u64) -> bool
    ensures { (r : Row) → r.kind ≡ kind → result ≡ source r }
{
    (kind == KIND_PAYMENT) | (kind == KIND_CREDIT)
}

// A payment or a credit.
pub fn is_source(r: Row) -> bool
    ensures { result ≡ source r }
{
    is_source_kind(r.kind)
}

// A toll, a fee, a reversal or a refund.
pub fn is_debit(r: Row) -> bool
    ensures { result ≡ debit r }
{
    (r.kind == KIND_TOLL)
        | (r.kind == KIND_FEE)
        | (r.kind == KIND_REVERSAL)
        | (r.kind == KIND_REFUND)
}

// A toll in dispute.
pub fn held_toll(r: Row) -> bool
    ensures { result ≡ held_toll r }
{
    (r.kind == KIND_TOLL) & (r.dispute == DISPUTE_HELD)
}

// A toll in dispute, or a fee whose toll is: a fee is held while its toll is held.
pub fn is_held(rows: &Rows, r: Row) -> bool
    ensures { result ≡ held (rows_in rows.now) r }
{
    if r.kind == KIND_FEE {
        return held_toll(rows.numbered(r.reference));
    }
    held_toll(r)
}
