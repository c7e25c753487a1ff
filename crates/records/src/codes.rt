// The numbers of kinds, states, methods, disputes, modes and events (documents 01 and 02), under the names of records' Codes.
// Kept: they are words of the lent tables and of events, where a host may put any number, which the check of soundness and an event's form
// have to judge.

// ---- kinds of rows

pub const KIND_TOLL: u64 = 1;

pub const KIND_FEE: u64 = 2;

pub const KIND_REVERSAL: u64 = 3;

pub const KIND_PAYMENT: u64 = 4;

pub const KIND_CREDIT: u64 = 5;

pub const KIND_REFUND: u64 = 6;

// ---- states of accounts

pub const STATE_UNUSED: u64 = 0;

pub const STATE_OPEN: u64 = 1;

pub const STATE_PENDING: u64 = 2;

pub const STATE_CLOSED: u64 = 3;

// ---- methods of payment

pub const METHOD_CARD: u64 = 1;

pub const METHOD_CHECK: u64 = 3;

pub const METHOD_CHECK_RETURNED: u64 = 4;

// ---- a toll's stage and dispute

pub const LAST_STAGE: u64 = 4;

pub const DISPUTE_NEVER: u64 = 0;

pub const DISPUTE_HELD: u64 = 1;

pub const DISPUTE_ENDED: u64 = 2;

pub const DISPUTE_UPHELD: u64 = 3;

// ---- a verdict, a top-up's result, a reserve: yes

pub const CODE_YES: u64 = 1;

// ---- modes of a passage

pub const MODE_TAG: u64 = 1;

pub const MODE_PLATE: u64 = 2;

// ---- kinds of events

pub const EVENT_OPEN: u64 = 1;

pub const EVENT_TOLL: u64 = 2;

pub const EVENT_PAYMENT: u64 = 3;

pub const EVENT_RETURNED_CHECK: u64 = 4;

pub const EVENT_DISPUTE: u64 = 5;

pub const EVENT_DECISION: u64 = 6;

pub const EVENT_TOPUP_RESULT: u64 = 7;

pub const EVENT_CLOSE_REQUEST: u64 = 8;

pub const EVENT_TICK: u64 = 9;

pub const EVENT_RATE_LIST: u64 = 10;

pub const EVENT_RESERVE: u64 = 11;

pub const EVENT_SUCCESSOR: u64 = 12;
