// A row by itself: each clause of rules' Soundness that looks at one row and the day. Each test returns at once, so that a sound
// row costs one well-predicted branch a test; a caller parts tolls from other rows, since they share few tests.
ghost use Rattle.std.specs.Prelude.{◌≡◌, ◌&&◌, ℕ};
ghost use Rattle.rules.specs.Rows.{kind_toll};
ghost use Rattle.rules.specs.Soundness.{kind_fits, most_of, amount_fits, settled_fits, mark_fits, toll_words_fit, no_reference};
ghost use Rattle.sound_header.specs.Clauses.{own_words, row_alone};
ghost use Rattle.records.specs.Codes.{kind_toll};

use records::Row;
use records::codes::{
    KIND_CREDIT, KIND_FEE, KIND_PAYMENT, KIND_REFUND, KIND_REVERSAL, KIND_TOLL, METHOD_CARD,
    METHOD_CHECK_RETURNED,
};
use records::limits::{HIGHEST_CREDIT, HIGHEST_FEE, HIGHEST_PAYMENT, HIGHEST_RATE, HIGHEST_REFUND};
use sound_header::tests::between;
use sound_tolls::{Term, row_day_fits};

// ---- every row

fn kind_fits(r: Row) -> bool
    ensures { result ≡ kind_fits r }
{
    between(KIND_TOLL, r.kind, KIND_REFUND)
}

fn most_of(kind: u64) -> u64
    ensures { result ≡ most_of kind }
{
    // Kept: a switch over the kinds, a number each, as the rules have it.
    match kind {
        KIND_TOLL => HIGHEST_RATE,
        KIND_FEE => HIGHEST_FEE,
        KIND_REVERSAL => HIGHEST_PAYMENT,
        KIND_PAYMENT => HIGHEST_PAYMENT,
        KIND_CREDIT => HIGHEST_CREDIT,
        KIND_REFUND => HIGHEST_REFUND,
        _ => 0,
    }
}

fn amount_fits(r: Row) -> bool
    ensures { result ≡ amount_fits r }
{
    between(1, r.amount, most_of(r.kind))
}

fn settled_fits(r: Row) -> bool
    ensures { result ≡ settled_fits r }
{
    if r.settled > r.amount {
        return false;
    }
    if r.kind != KIND_REFUND {
        return true;
    }
    r.settled == r.amount
}

// ---- another row

fn no_toll_words(r: Row) -> bool
    requires { r.kind ≡ kind_toll → ⊥ }
    ensures { result ≡ toll_words_fit r }
{
    (r.due == 0) & (r.dispute == 0) & (r.hold == 0)
}

// Its method, where it is a payment, and no mark otherwise; no reference, where it is a payment or a refund.
fn method_and_reference_fit(r: Row) -> bool
    requires { r.kind ≡ kind_toll → ⊥ }
    ensures { result ≡ (mark_fits r && no_reference r) }
{
    if r.kind == KIND_PAYMENT {
        return between(METHOD_CARD, r.mark, METHOD_CHECK_RETURNED) & (r.reference == 0);
    }
    if r.mark != 0 {
        return false;
    }
    if r.kind != KIND_REFUND {
        return true;
    }
    r.reference == 0
}

fn other_fits(today: u64, r: Row) -> bool
    requires { r.kind ≡ kind_toll → ⊥ }
    ensures { (L : ℕ) → result ≡ own_words today L r }
{
    if !no_toll_words(r) {
        return false;
    }
    if !row_day_fits(today, r) {
        return false;
    }
    method_and_reference_fit(r)
}

// ---- all that a row is tested for by itself

pub fn toll_alone(term: Term, r: Row) -> bool
    requires { r.kind ≡ kind_toll }
    ensures { result ≡ row_alone term.today term.stage r }
{
    if !between(1, r.amount, HIGHEST_RATE) {
        return false;
    }
    if !settled_fits(r) {
        return false;
    }
    term.toll_fits(r)
}

pub fn other_alone(today: u64, r: Row) -> bool
    requires { r.kind ≡ kind_toll → ⊥ }
    ensures { (L : ℕ) → result ≡ row_alone today L r }
{
    if !kind_fits(r) {
        return false;
    }
    if !amount_fits(r) {
        return false;
    }
    if !settled_fits(r) {
        return false;
    }
    other_fits(today, r)
}
