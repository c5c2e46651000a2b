// The answer of a pair question as printed pages (printing.rt), and the pairs read back from them (reading.rt). What pages are is defined in specs/Pages.antt,
// what the two calls promise in specs/PageCalls.antt. Both go line by line, by the same functions that lay a line.
#![tactic(auto)]

mod printing;
mod reading;

pub use printing::print;
pub use reading::read_pages;

// The bytes of a line with its line feed; those of the expression, of a line's pairs, of a pair and of a page's number.
const LINE: usize = 73;

const TEXT_WIDTH: usize = 60;

const CELLS_WIDTH: usize = 72;

const CELL_WIDTH: usize = 12;

const RECORD_WIDTH: usize = 5;

const NUMBER_WIDTH: usize = 12;

// The lines of a page with its head; the pairs of a line and of a page.
const PAGE_LINES: usize = 60;

const LINE_PAIRS: usize = 6;

const PAGE_PAIRS: usize = 354;

// A pair word is from times this, and to.
const PAIR_UNIT: u32 = book::MAX_RECORDS as u32;

// The number after every pair word, and the lines of that many pairs.
const PAIR_WORDS: usize = book::MAX_RECORDS * book::MAX_RECORDS;

const PAST_PAIRS: u32 = PAIR_UNIT * PAIR_UNIT;

const MOST_LINES: usize = 177726;
