// The search for a chain: levels of states backward from its end, then a walk forward.
// A level is the list of its records, each with a word of its states. The next one comes from the arcs into those records alone, found by an
// index, and a step of the walk from the arcs out of its record: so the cost goes with the states that are reached and the arcs at them.
// This file has what a caller sees, and passes the rest on: states.rt sets of states, levels.rt the levels, walk.rt the walk, chain.rt both.
#![tactic(auto)]

mod chain;
mod levels;
mod reach;
mod states;
mod walk;

pub use chain::first_chain;
pub use reach::reached;

// The units of an arc's word, and how many letters there may be.
const RECORD_UNIT: usize = arcs::RECORD_UNIT as usize;

const LETTER_UNIT: usize = arcs::LETTER_UNIT as usize;

const LETTERS: usize = 64;

// How many records there are, the two that a chain joins, and the states in which it may end.
#[derive(Clone, Copy)]
pub struct Ends {
    pub n: usize,
    pub from: usize,
    pub to: usize,
    pub accepting: u64,
}

#[derive(Clone, Copy)]
pub enum Found {
    Steps(usize),
    Nowhere,
    Short,
}

// States at a record; how many records there are, and how many of them are on the list of the next level.
#[derive(Clone, Copy)]
struct Entry {
    at: usize,
    states: u64,
    n: usize,
    queued: usize,
}

// Of n records the one where a walk begins, and how many steps it has.
#[derive(Clone, Copy)]
struct Route {
    n: usize,
    from: usize,
    steps: usize,
}

// A step that is looked for: from a record, one of n, to one of the states that may follow, whose number there is the distance.
#[derive(Clone, Copy)]
struct Aim {
    n: usize,
    at: usize,
    follows: u64,
    distance: u64,
}

// A step word, and the states that it leads to.
#[derive(Clone, Copy)]
struct Choice {
    word: u32,
    states: u64,
}
