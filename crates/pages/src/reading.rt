// The reader: it lays each line beside the lent pages.
ghost use Rattle.std.specs.Prelude.{◌≡◌, true, ◌+◌, ◌*◌, ◌≤◌, ◌<◌, length, take, drop};
ghost use Rattle.paths.specs.Expressions.{Expr};
ghost use Rattle.paths.specs.Grammar.{accepted};
ghost use Rattle.paths.specs.Verdicts.{verdict};
ghost use Rattle.paths.specs.Questions.{over};
ghost use Rattle.answers.specs.Written.{Wrote};
ghost use Rattle.pages.specs.Pages.{pair_line, head_line};
ghost use Rattle.pages.specs.PageCalls.{ReadsPages};
ghost use Rattle.pages.specs.Lines.{line_bytes, pair_words, most_lines, value, cell_word, cell_words, words_at, words_before, PairLine, Checking};
ghost use Rattle.pages.specs.Lines.{Rising, Line, Judged};

use crate::printing::{lines_of, put_head_line, put_pair_line};
use crate::{
    CELL_WIDTH, LINE, LINE_PAIRS, MOST_LINES, PAGE_LINES, PAIR_UNIT, PAST_PAIRS, RECORD_WIDTH,
};
use answers::Counted;

// The number in the five bytes of a record, blanks as 0.
fn record_at(pages: &[u8], at: usize) -> u32
    requires { at + 5 ≤ length pages.now }
    ensures { (result ≡ value (take 5 (drop at pages.now))) × (result < 200000) }
{
    let mut v: u32 = 0;
    for i in 0..RECORD_WIDTH {
        v = 10 * v + (pages[at + i] % 16) as u32;
    }
    v
}

// The pair word in a cell.
fn cell_at(pages: &[u8], at: usize) -> u32
    requires { at + 12 ≤ length pages.now }
    ensures { result ≡ cell_word (drop at pages.now) }
{
    record_at(pages, at) * PAIR_UNIT + record_at(pages, at + RECORD_WIDTH + 1)
}

// The pair words of a line's cells, up to a blank one; how many.
fn cells_at(pages: &[u8], at: usize, words: &mut [u32]) -> usize
    requires { (at + line_bytes ≤ length pages.now) × (length words.old ≡ 6) }
    ensures { (result ≤ 6) × (take result words.new ≡ cell_words 6 (drop at pages.now)) }
{
    let mut k = 0;
    while k < LINE_PAIRS {
        let cell = at + CELL_WIDTH * k;
        if pages[cell + RECORD_WIDTH - 1] == b' ' {
            return k;
        }
        words[k] = cell_at(pages, cell);
        k += 1;
    }
    k
}

// Is this the line of the pages?
fn same_line(line: &[u8], pages: &[u8], at: usize) -> bool
    requires { (length line.now ≡ 73) × (at + line_bytes ≤ length pages.now) }
    ensures { (result ≡ true → take 73 (drop at pages.now) ≡ line.now)
        × (take 73 (drop at pages.now) ≡ line.now → result ≡ true) }
{
    for i in 0..LINE {
        if pages[at + i] != line[i] {
            return false;
        }
    }
    true
}

// The number after the last of the first `count` words, if they ascend from `low` on and are pair words; otherwise one past all those.
fn rising(words: &[u32], count: usize, low: u32) -> u32
    requires { (count ≤ length words.now) × (low ≤ pair_words) }
    ensures { Rising low (take count words.now) result }
{
    let mut next = low;
    for i in 0..count {
        let w = words[i];
        if w < next {
            return PAST_PAIRS + 1;
        }
        if PAST_PAIRS <= w {
            return PAST_PAIRS + 1;
        }
        next = w + 1;
    }
    next
}

// Is the line of the pages the head of this page?
fn is_head(text: &[u8], page: usize, pages: &[u8], at: usize) -> bool
    requires { (page ≤ most_lines) × (at + line_bytes ≤ length pages.now) }
    ensures { (result ≡ true → take 73 (drop at pages.now) ≡ head_line text.now page)
        × (take 73 (drop at pages.now) ≡ head_line text.now page → result ≡ true) }
{
    let mut line: [u8; 73] = [0; 73];
    put_head_line(text, page, &mut line, 0);
    same_line(&line, pages, at)
}

// Is it the line of the first `count` words?
fn is_pair_line(words: &[u32], count: usize, pages: &[u8], at: usize) -> bool
    requires { PairLine words.now count at pages.now }
    ensures { (result ≡ true → take 73 (drop at pages.now) ≡ pair_line (take count words.now))
        × (take 73 (drop at pages.now) ≡ pair_line (take count words.now) → result ≡ true) }
{
    let mut line: [u8; 73] = [0; 73];
    put_pair_line(words, count, &mut line, 0);
    same_line(&line, pages, at)
}

// What a line was found to be: how many pairs are on it, and the number after them; a number past all pair words if the line does not stand.
#[derive(Clone, Copy)]
struct Checked {
    count: usize,
    next: u32,
}

// How many pairs pair line i of so many lines has at least: six if it is not the last.
fn least_pairs(i: usize, lines: usize) -> usize
    requires { i < lines }
    ensures { ((i + 1 < lines) → result ≡ 6) × (result ≤ 6) × ((0 < result) → (i + 1 < lines)) }
{
    if i + 1 < lines {
        return LINE_PAIRS;
    }
    0
}

// Line i of so many, where the pairs before it are below `low`.
fn check_line(text: &[u8], pages: &[u8], i: usize, lines: usize, low: u32) -> Checked
    requires { Checking pages.now i lines low }
    ensures { Line text.now pages.now i lines low result.count result.next }
{
    let fallen = Checked {
        count: 0,
        next: PAST_PAIRS + 1,
    };
    if i % PAGE_LINES == 0 {
        if is_head(text, i / PAGE_LINES, pages, LINE * i) {
            return Checked {
                count: 0,
                next: low,
            };
        }
        return fallen;
    }
    let mut words: [u32; LINE_PAIRS] = [0; LINE_PAIRS];
    let count = cells_at(pages, LINE * i, &mut words);
    if count < least_pairs(i, lines) {
        return fallen;
    }
    let next = rising(&words, count, low);
    if PAST_PAIRS < next {
        return fallen;
    }
    if is_pair_line(&words, count, pages, LINE * i) {
        return Checked { count, next };
    }
    fallen
}

// What lent pages were found to be: the pages of the text and so many pairs, or of no list.
#[derive(Clone, Copy)]
enum Judgement {
    Listing(usize),
    Broken,
}

// Are these the pages of the text and some ascending list of different pairs?
fn judge(text: &[u8], pages: &[u8]) -> Judgement
    ensures { Judged text.now pages.now result }
{
    let lines = pages.len() / LINE;
    if LINE * lines != pages.len() {
        return Judgement::Broken;
    }
    if MOST_LINES < lines {
        return Judgement::Broken;
    }
    let mut count = 0;
    let mut low: u32 = 0;
    for i in 0..lines {
        let line = check_line(text, pages, i, lines, low);
        if PAST_PAIRS < line.next {
            return Judgement::Broken;
        }
        count += line.count;
        low = line.next;
    }
    if lines_of(count) != lines {
        return Judgement::Broken;
    }
    Judgement::Listing(count)
}

// The pair words on line i.
fn list_line(pages: &[u8], i: usize, list: &mut [u32], at: usize) -> usize
    requires { (73 * i + 73 ≤ length pages.now) × (at + length (words_at pages.now i) ≤ length list.old) }
    ensures { Wrote at (words_at pages.now i) list.old list.new result }
{
    if i % PAGE_LINES == 0 {
        return at;
    }
    let mut words: [u32; LINE_PAIRS] = [0; LINE_PAIRS];
    let count = cells_at(pages, LINE * i, &mut words);
    answers::copy_u32(&words[..count], list, at)
}

// The pair words on all lines.
fn list_lines(pages: &[u8], lines: usize, list: &mut [u32])
    requires { (line_bytes * lines ≤ length pages.now) × (length (words_before pages.now lines) ≤ length list.old) }
    ensures { list.new ≡ over (words_before pages.now lines) list.old }
{
    let mut end = 0;
    for i in 0..lines {
        end = list_line(pages, i, list, end);
    }
}

// The pairs of pages, the expression being accepted.
fn read_accepted(text: &[u8], pages: &[u8], list: &mut [u32]) -> Counted
    ensures { (e : Expr) → verdict text.now ≡ accepted e
        → ReadsPages text.now pages.now list.old list.new result }
{
    let judgement = judge(text, pages);
    match judgement {
        Judgement::Broken => Counted::Refused(book::BROKEN_FRAME),
        Judgement::Listing(count) => {
            if list.len() < count {
                return Counted::Refused(book::SHORT_LIST);
            }
            list_lines(pages, pages.len() / LINE, list);
            Counted::Count(count)
        }
    }
}

// The pairs that pages show, ascending, if they are the pages of the expression and some list. The first pass judges, the second writes.
pub fn read_pages(text: &[u8], pages: &[u8], list: &mut [u32]) -> Counted
    ensures { ReadsPages text.now pages.now list.old list.new result }
{
    let reading = reader::read(text);
    let answer = reading.answer;
    match answer {
        reader::Answer::Refused(k) => Counted::Refused(k as u32),
        reader::Answer::Accepted(_) => read_accepted(text, pages, list),
    }
}
