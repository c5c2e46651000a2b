// The engine for Rust and C: the caller keeps a register as 5,406 words, at the front of a state that may be longer, and every call takes numbers and
// slices. The calls stand by subject: edits.rt, questions.rt, reading.rt (links, totals and marks), by_rows.rt, trees.rt, previews.rt, drafts.rt, closing.rt,
// numbering.rt (generations), sole_support.rt, printing.rt (pages) and ties.rt (offsets); told.rt has how a chain is told as one number.
#![tactic(auto)]

mod by_rows;
mod closing;
mod drafts;
mod edits;
mod numbering;
mod previews;
mod printing;
mod questions;
mod reading;
mod sole_support;
mod ties;
mod told;
mod trees;
