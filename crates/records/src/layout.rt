// The layout of the lent tables (document 01, "The book"; document 02), under the names of records' Layout.

// ---- the header

pub const HEADER_WIDTH: usize = 62;

pub const DAY_PLACE: usize = 0;

pub const USED_PLACE: usize = 1;

pub const HEADER_SCHEDULE: usize = 2;

pub const HEADER_RATES: usize = 6;

pub const HEADER_FIRST_DAY: usize = 12;

pub const HEADER_LISTS: usize = 13;

pub const LATER_LISTS: usize = 7;

// ---- the opening's arguments

pub const OPENING_WIDTH: usize = 11;

pub const FIRST_DAY_PLACE: usize = 0;

pub const OPENING_SCHEDULE: usize = 1;

pub const OPENING_RATES: usize = 5;

// ---- the schedule's words, from its first

pub const STAGE_PLACE: usize = 0;

pub const FEE2_PLACE: usize = 1;

pub const FEE3_PLACE: usize = 2;

pub const FEE4_PLACE: usize = 3;

// ---- six rates, from their first

pub const TAG1_PLACE: usize = 0;

pub const PLATE1_PLACE: usize = 1;

pub const TAG2_PLACE: usize = 2;

pub const PLATE2_PLACE: usize = 3;

pub const TAG3_PLACE: usize = 4;

pub const PLATE3_PLACE: usize = 5;

// ---- a list after the first

pub const LIST_WIDTH: usize = 7;

pub const LIST_DAY_PLACE: usize = 0;

pub const LIST_RATES_PLACE: usize = 1;

// ---- an account

pub const ACCOUNT_WIDTH: usize = 9;

pub const STATE_PLACE: usize = 0;

pub const REQUEST_PLACE: usize = 1;

pub const RETURNED_PLACE: usize = 2;

pub const THRESHOLD_PLACE: usize = 3;

pub const TOPUP_PLACE: usize = 4;

pub const DECLINES_PLACE: usize = 5;

pub const DECLINED_PLACE: usize = 6;

pub const RESERVE_PLACE: usize = 7;

pub const SUCCESSOR_PLACE: usize = 8;

// ---- a row of the journal

pub const ROW_WIDTH: usize = 10;

pub const KIND_PLACE: usize = 0;

pub const ACCOUNT_PLACE: usize = 1;

pub const ROW_DAY_PLACE: usize = 2;

pub const AMOUNT_PLACE: usize = 3;

pub const SETTLED_PLACE: usize = 4;

pub const MARK_PLACE: usize = 5;

pub const DUE_PLACE: usize = 6;

pub const DISPUTE_PLACE: usize = 7;

pub const HOLD_PLACE: usize = 8;

pub const REFERENCE_PLACE: usize = 9;

// ---- an event and an answer

pub const EVENT_WIDTH: usize = 9;

pub const EVENT_KIND_PLACE: usize = 0;

pub const EVENT_ACCOUNT_PLACE: usize = 1;

pub const A_PLACE: usize = 2;

pub const B_PLACE: usize = 3;

pub const C_PLACE: usize = 4;

pub const D_PLACE: usize = 5;

pub const E_PLACE: usize = 6;

pub const F_PLACE: usize = 7;

pub const G_PLACE: usize = 8;

pub const ANSWER_WIDTH: usize = 5;
