// The limits that documents 01 and 02 set, under the names of records' Limits.

pub const FINAL_DAY: u64 = 36525;

pub const MOST_ACCOUNTS: usize = 256;

pub const MOST_ROWS: usize = 8192;

pub const MOST_EVENTS: usize = 4096;

pub const LONGEST_STAGE: u64 = 365;

pub const HIGHEST_FEE: u64 = 100000;

pub const HIGHEST_RATE: u64 = 1000000;

pub const HIGHEST_PAYMENT: u64 = 1000000;

pub const HIGHEST_TOPUP: u64 = 1000000;

pub const HIGHEST_CREDIT: u64 = 1300000;

pub const HIGHEST_REFUND: u64 = 10649600000;

pub const MOST_LISTS: usize = 8;

pub const HIGHEST_PASSAGE: u64 = 1000000000;

pub const MOST_AXLES: u64 = 99;

pub const HIGHEST_HEIGHT: u64 = 999;

pub const HIGHEST_CHARGE: u64 = 99500;

pub const RETURN_FEE: u64 = 500;

pub const MOST_DECLINES: u64 = 2;

pub const BARRING_RETURNS: u64 = 3;

pub const LATEST_DAYS: u64 = 60;

pub const HOLD_DAYS: u64 = 30;

pub const CLOSING_DAYS: u64 = 15;

pub const MOST_HELD_DAYS: u64 = 29;

pub const LOW_HEIGHT: u64 = 90;

pub const HEAVY_DEBT: u64 = 25000;

pub const WEEK_DAYS: u64 = 7;

pub const MOST_HOLIDAYS: usize = 400;

pub const SLOT_COUNT: usize = MOST_ACCOUNTS + 1;
