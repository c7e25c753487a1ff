// The form of each event: which words it may have (document 01, "words not named are 0, else the event is malformed").
#![tactic(auto)]

ghost use Rattle.std.specs.Prelude.{◌≡◌};
ghost use Rattle.rules.specs.Refusals.{zero_from-f, zero_from-c, zero_from-b, open_form, toll_form, payment_form, return_form, dispute_form};
ghost use Rattle.rules.specs.Refusals.{decision_form, result_form, request_form, tick_form, list_form, reserve_form, successor_form, well_formed};
ghost use Rattle.rules.specs.Schedule.{rates_fit};
ghost use Rattle.rules.specs.RateLists.{list_of};

use records::Instruction;
use records::codes::{
    CODE_YES, EVENT_CLOSE_REQUEST, EVENT_DECISION, EVENT_DISPUTE, EVENT_OPEN, EVENT_PAYMENT,
    EVENT_RATE_LIST, EVENT_RESERVE, EVENT_RETURNED_CHECK, EVENT_SUCCESSOR, EVENT_TICK, EVENT_TOLL,
    EVENT_TOPUP_RESULT, METHOD_CARD, METHOD_CHECK, MODE_PLATE, MODE_TAG,
};
use records::limits::{
    FINAL_DAY, HIGHEST_CHARGE, HIGHEST_HEIGHT, HIGHEST_PASSAGE, HIGHEST_PAYMENT, HIGHEST_RATE,
    HIGHEST_TOPUP, MOST_AXLES,
};

fn zero_from_f(e: Instruction) -> bool
    ensures { result ≡ zero_from-f e }
{
    (e.f == 0) & (e.g == 0)
}

fn zero_from_c(e: Instruction) -> bool
    ensures { result ≡ zero_from-c e }
{
    (e.c == 0) & (e.d == 0) & (e.e == 0) & zero_from_f(e)
}

fn zero_from_b(e: Instruction) -> bool
    ensures { result ≡ zero_from-b e }
{
    (e.b == 0) & zero_from_c(e)
}

// Kept, here and below: a range is two comparisons; a library's range would take the number by reference and say no more.
fn open_form(e: Instruction) -> bool
    ensures { result ≡ open_form e }
{
    (e.a <= HIGHEST_TOPUP) & (e.b <= HIGHEST_TOPUP) & ((e.b != 0) | (e.a == 0)) & zero_from_c(e)
}

fn toll_form(e: Instruction) -> bool
    ensures { result ≡ toll_form e }
{
    ((1 <= e.a) & (e.a <= HIGHEST_PASSAGE))
        & ((1 <= e.b) & (e.b <= FINAL_DAY))
        & ((1 <= e.c) & (e.c <= MOST_AXLES))
        & (e.d <= HIGHEST_HEIGHT)
        & ((MODE_TAG <= e.e) & (e.e <= MODE_PLATE))
        & zero_from_f(e)
}

fn payment_form(e: Instruction) -> bool
    ensures { result ≡ payment_form e }
{
    ((1 <= e.a) & (e.a <= HIGHEST_PAYMENT))
        & ((METHOD_CARD <= e.b) & (e.b <= METHOD_CHECK))
        & zero_from_c(e)
}

fn return_form(e: Instruction) -> bool
    ensures { result ≡ return_form e }
{
    (e.b <= HIGHEST_CHARGE) & zero_from_c(e)
}

fn dispute_form(e: Instruction) -> bool
    ensures { result ≡ dispute_form e }
{
    zero_from_b(e)
}

fn decision_form(e: Instruction) -> bool
    ensures { result ≡ decision_form e }
{
    (e.b <= CODE_YES) & zero_from_c(e)
}

fn result_form(e: Instruction) -> bool
    ensures { result ≡ result_form e }
{
    (e.a == 0) & (e.b <= CODE_YES) & zero_from_c(e)
}

fn request_form(e: Instruction) -> bool
    ensures { result ≡ request_form e }
{
    (e.a == 0) & zero_from_b(e)
}

fn tick_form(e: Instruction) -> bool
    ensures { result ≡ tick_form e }
{
    (e.account == 0) & ((e.a == 0) & zero_from_b(e))
}

// The six rates of a list, words b to g.
fn rates_form(e: Instruction) -> bool
    ensures { result ≡ rates_fit (list_of e).rates }
{
    ((1 <= e.b) & (e.b <= HIGHEST_RATE))
        & ((1 <= e.c) & (e.c <= HIGHEST_RATE))
        & ((1 <= e.d) & (e.d <= HIGHEST_RATE))
        & ((1 <= e.e) & (e.e <= HIGHEST_RATE))
        & ((1 <= e.f) & (e.f <= HIGHEST_RATE))
        & ((1 <= e.g) & (e.g <= HIGHEST_RATE))
}

fn list_form(e: Instruction) -> bool
    ensures { result ≡ list_form e }
{
    (e.account == 0) & (((1 <= e.a) & (e.a <= FINAL_DAY)) & rates_form(e))
}

fn reserve_form(e: Instruction) -> bool
    ensures { result ≡ reserve_form e }
{
    (e.a <= CODE_YES) & zero_from_b(e)
}

fn successor_form(e: Instruction) -> bool
    ensures { result ≡ successor_form e }
{
    zero_from_b(e)
}

// The event has the words of its kind; a kind that is none of these has no form.
pub fn well_formed(e: Instruction) -> bool
    ensures { result ≡ well_formed e }
{
    let kind = e.kind;
    // Kept: a switch, since the forms are tests of different words; a closure for each would be no plainer.
    match kind {
        EVENT_OPEN => open_form(e),
        EVENT_TOLL => toll_form(e),
        EVENT_PAYMENT => payment_form(e),
        EVENT_RETURNED_CHECK => return_form(e),
        EVENT_DISPUTE => dispute_form(e),
        EVENT_DECISION => decision_form(e),
        EVENT_TOPUP_RESULT => result_form(e),
        EVENT_CLOSE_REQUEST => request_form(e),
        EVENT_TICK => tick_form(e),
        EVENT_RATE_LIST => list_form(e),
        EVENT_RESERVE => reserve_form(e),
        EVENT_SUCCESSOR => successor_form(e),
        _ => false,
    }
}
