// Generations: the call gives the length of the longest run of links of some labels that ends at each record. If some record can return to itself over such
// links, it gives the first loop of the smallest that can. What it promises is stated in specs/Generating.antt.
// This file has what a caller sees. labels.rt has the labels and their links, depths.rt the depth of each record.
#![tactic(auto)]

mod depths;
mod labels;

ghost use Rattle.std.specs.Prelude.{◌≡◌, ℕ, ◌≤◌, List, length};
ghost use Rattle.book.specs.Causes.{max_records};
ghost use Rattle.k2.specs.PairSets.{IsSet};
ghost use Rattle.rows.specs.RowSets.{crossed_words};
ghost use Rattle.answers.specs.Written.{Wrote};
ghost use Rattle.generations.specs.Inner.{chosen, Smallest, Joined, Closed, Numbering};
ghost use Rattle.generations.specs.Generating.{Generates};
ghost use Rattle.generations.specs.Inner.{Looped};

use chains::ChainAnswer;
use depths::visit_all;
use labels::{TEXT_BYTES, any_above, keep, put_text, set_of};
use register::{Register, WITHDRAWN_MARK};

// How many numbers the list has; the steps of the loop that the list has; or the number of a cause.
#[derive(Clone, Copy)]
pub enum GenerationsAnswer {
    Numbers(usize),
    Loop(usize),
    Refused(u32),
}

// How many of the records below n are in use, by their marks.
fn count_in_use(marks: &[u32], n: usize) -> usize
    requires { (n ≤ max_records) × (length marks.now ≡ max_records) }
    ensures { (ds : List ℕ) → result ≡ length (chosen marks.now ds n) }
{
    let mut count = 0;
    for y in 0..n {
        if marks[y] != WITHDRAWN_MARK {
            count += 1;
        }
    }
    count
}

// The number of each record below n that is in use, by its depth. How many are they?
fn write_numbers(marks: &[u32], depths: &[u32], n: usize, list: &mut [u32]) -> usize
    requires { Numbering marks.now depths.now n list.old }
    ensures { Wrote 0 (chosen marks.now depths.now n) list.old list.new result }
{
    let mut count = 0;
    for y in 0..n {
        if marks[y] != WITHDRAWN_MARK {
            list[count] = depths[y] - 2;
            count += 1;
        }
    }
    count
}

// The smallest record below n that is joined to itself; n if none is.
fn first_joined(rows: &[u64], n: usize) -> usize
    requires { n ≤ max_records }
    ensures { Smallest (Joined rows.now) n result }
{
    for x in 0..n {
        if bits::bit(rows, x * book::MAX_RECORDS + x) == 1 {
            return x;
        }
    }
    n
}

// The smallest record below n that one or more links whose label is in the set lead back to; n if there is none.
fn first_returning(words: &[u32], set: u32, n: usize) -> usize
    requires { n ≤ max_records }
    ensures { (result ≤ n) × (IsSet n (crossed_words words.now set 0) → Smallest (Closed n (crossed_words words.now set 0)) n result) }
{
    let mut rows = [0u64; k2::ROWS_WORDS];
    rows::put_letters(words, set, 0, &mut rows);
    grid::close_rows(&mut rows, n);
    first_joined(&rows, n)
}

// The first loop of a record, over links whose label is in the set.
fn first_loop(
    register: Register,
    set: u32,
    record: usize,
    work: &mut [u64],
    list: &mut [u32],
) -> GenerationsAnswer
    requires { «record» ≤ max_records }
    ensures { Looped register set «record» (length work.old) list.old list.new result }
{
    let mut text = [0u8; TEXT_BYTES];
    let bytes = put_text(set, &mut text);
    let answer = chains::chain(
        register,
        record as u16,
        record as u16,
        &text[0..bytes],
        work,
        list,
    );
    match answer {
        ChainAnswer::Chain(steps) => GenerationsAnswer::Loop(steps),
        ChainAnswer::NoChain => GenerationsAnswer::Refused(book::NOT_OPEN),
        ChainAnswer::Refused(number) => GenerationsAnswer::Refused(number),
    }
}

// The numbers of the records in use, or the first loop, of the links that have one of the labels.
pub fn generations(
    register: Register,
    labels: &[u8],
    work: &mut [u64],
    list: &mut [u32],
) -> GenerationsAnswer
    ensures { Generates register labels.now (length work.old) list.old list.new result }
{
    if any_above(labels) {
        return GenerationsAnswer::Refused(book::BAD_LABEL);
    }
    let n = register.size();
    if work.len() < n * 64 {
        return GenerationsAnswer::Refused(book::SHORT_WORK);
    }
    let set = set_of(labels);
    let links = register.links();
    let words = links.words;
    let count = links.count;
    let mut kept = [0u32; book::MAX_LINKS];
    let few = keep(&words[0..count], set, &mut kept);
    let mut depths = [0u32; book::MAX_RECORDS];
    if visit_all(&kept[0..few], n, &mut depths) {
        let marks = register.marks();
        if list.len() < count_in_use(&marks, n) {
            return GenerationsAnswer::Refused(book::SHORT_LIST);
        }
        return GenerationsAnswer::Numbers(write_numbers(&marks, &depths, n, list));
    }
    let first = first_returning(&words[0..count], set, n);
    first_loop(register, set, first, work, list)
}
