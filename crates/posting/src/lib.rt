// What the events share: what each did, rows added and released; and what a reader of sound tables knows.
#![tactic(auto)]

pub mod answers; // answers.rt: what an accepted event did
pub mod rows; // rows.rt: a row added to the journal, a row released
