// The printer: it lays each line into the lent space.
ghost use Rattle.std.specs.Prelude.{◌≡◌, ◌+◌, ◌≤◌, ◌<◌, min, length, take};
ghost use Rattle.book.specs.Causes.{max_records};
ghost use Rattle.answers.specs.Answers.{Whole};
ghost use Rattle.paths.specs.Questions.{over};
ghost use Rattle.rowpairs.specs.Evaluation.{Held};
ghost use Rattle.report.specs.Report.{decimal};
ghost use Rattle.answers.specs.Written.{Wrote};
ghost use Rattle.pages.specs.Pages.{blanks, right_aligned, record_cell, pair_cell, pair_line, head_line, pages};
ghost use Rattle.pages.specs.PageCalls.{Prints};
ghost use Rattle.pages.specs.Lines.{line_bytes, pair_words, most_lines, held, pairs_held, lines_of, PairLine, Gathering, Laying, Paging};
ghost use Rattle.pages.specs.Lines.{Gathered, Laid};

use crate::{
    CELL_WIDTH, CELLS_WIDTH, LINE, LINE_PAIRS, NUMBER_WIDTH, PAGE_LINES, PAGE_PAIRS, PAIR_UNIT,
    PAIR_WORDS, RECORD_WIDTH, TEXT_WIDTH,
};
use answers::Counted;
use register::Register;

fn put_blanks(count: usize, out: &mut [u8], at: usize) -> usize
    requires { at + count ≤ length out.old }
    ensures { Wrote at (blanks count) out.old out.new result }
{
    let mut i = 0;
    while i < count {
        out[at + i] = b' ';
        i += 1;
    }
    at + i
}

// How many figures a number has.
fn figures(k: u64) -> usize
    ensures { result ≡ length (decimal k) }
{
    let mut rest = k;
    let mut count = 1;
    while 10 <= rest {
        rest = rest / 10;
        count += 1;
    }
    count
}

// A number's figures, right-aligned.
fn put_right(width: usize, k: u64, out: &mut [u8], at: usize) -> usize
    requires { (length (decimal k) ≤ width) × (at + width ≤ length out.old) }
    ensures { Wrote at (right_aligned width k) out.old out.new result }
{
    let next = put_blanks(width - figures(k), out, at);
    report::put_decimal(k, out, next)
}

// A record's number and a blank.
fn put_record(x: u32, out: &mut [u8], at: usize) -> usize
    requires { (x < max_records) × (at + 6 ≤ length out.old) }
    ensures { Wrote at (record_cell x) out.old out.new result }
{
    let next = put_right(RECORD_WIDTH, x as u64, out, at);
    report::put_byte(b' ', out, next)
}

// A pair.
fn put_cell(w: u32, out: &mut [u8], at: usize) -> usize
    requires { (w < pair_words) × (at + 12 ≤ length out.old) }
    ensures { Wrote at (pair_cell w) out.old out.new result }
{
    let next = put_record(w / PAIR_UNIT, out, at);
    put_record(w % PAIR_UNIT, out, next)
}

// The line of the first `count` words.
pub(crate) fn put_pair_line(words: &[u32], count: usize, out: &mut [u8], at: usize) -> usize
    requires { PairLine words.now count at out.old }
    ensures { Wrote at (pair_line (take count words.now)) out.old out.new result }
{
    let mut end = at;
    for i in 0..count {
        end = put_cell(words[i], out, end);
    }
    end = put_blanks(CELLS_WIDTH - CELL_WIDTH * count, out, end);
    report::put_byte(b'\n', out, end)
}

// How many bytes of so long a text a head shows.
fn shown_bytes(len: usize) -> usize
    ensures { result ≡ min 60 len }
{
    if TEXT_WIDTH < len {
        return TEXT_WIDTH;
    }
    len
}

// The head of a page, the first being 0.
pub(crate) fn put_head_line(text: &[u8], page: usize, out: &mut [u8], at: usize) -> usize
    requires { (page ≤ most_lines) × (at + line_bytes ≤ length out.old) }
    ensures { Wrote at (head_line text.now page) out.old out.new result }
{
    let shown = shown_bytes(text.len());
    let mut end = report::put_text(&text[..shown], out, at);
    end = put_blanks(TEXT_WIDTH - shown, out, end);
    end = put_right(NUMBER_WIDTH, (page + 1) as u64, out, end);
    report::put_byte(b'\n', out, end)
}

// How many lines so many pairs take.
pub(crate) fn lines_of(pairs: usize) -> usize
    requires { pairs ≤ pair_words }
    ensures { result ≡ lines_of pairs }
{
    if pairs == 0 {
        return 1;
    }
    (pairs + (PAGE_PAIRS - 1)) / PAGE_PAIRS + (pairs + (LINE_PAIRS - 1)) / LINE_PAIRS
}

// Where a search for the pairs of a line ended, and how many it found.
#[derive(Clone, Copy)]
struct LineEnd {
    place: usize,
    count: usize,
}

// The next six pairs of a relation of n records from `from` on, or those that are left.
fn gather(cells: &[u64], masks: &[u16], n: usize, from: usize, words: &mut [u32]) -> LineEnd
    requires { Gathering from words.old n masks.now }
    ensures { Gathered (held cells.now masks.now n) from words.new result.place result.count }
{
    let mut count = 0;
    let mut place = from;
    while count < LINE_PAIRS {
        let next = rowpairs::next_pair(cells, masks, n, place);
        if next == PAIR_WORDS {
            return LineEnd { place: next, count };
        }
        words[count] = next as u32;
        count += 1;
        place = next + 1;
    }
    LineEnd { place, count }
}

// Line i, and where the pairs of the next lines begin in the relation.
fn put_line(
    text: &[u8],
    i: usize,
    cells: &[u64],
    masks: &[u16],
    n: usize,
    place: usize,
    out: &mut [u8],
) -> usize
    requires { Laying i place out.old n masks.now }
    ensures { Laid (held cells.now masks.now n) text.now i place out.old out.new result }
{
    if i % PAGE_LINES == 0 {
        put_head_line(text, i / PAGE_LINES, out, LINE * i);
        return place;
    }
    let mut words: [u32; LINE_PAIRS] = [0; LINE_PAIRS];
    let found = gather(cells, masks, n, place, &mut words);
    let count = found.count;
    put_pair_line(&words, count, out, LINE * i);
    found.place
}

// The pages of a relation's pairs, so many lines.
fn put_pages(text: &[u8], cells: &[u64], masks: &[u16], n: usize, lines: usize, out: &mut [u8])
    requires { Paging cells.now masks.now n lines out.old }
    ensures { out.new
        ≡ over (pages text.now (pairs_held (held cells.now masks.now n))) out.old }
{
    let mut place = 0;
    for i in 0..lines {
        place = put_line(text, i, cells, masks, n, place, out);
    }
}

// The same if the space can hold every page.
fn lay_out(text: &[u8], cells: &[u64], masks: &[u16], n: usize, out: &mut [u8]) -> Counted
    requires { Held n (length cells.now) × (n ≤ length masks.now) }
    ensures { Whole (pages text.now (pairs_held (held cells.now masks.now n))) out.old out.new result }
{
    let lines = lines_of(rowpairs::count_pairs(cells, masks, n));
    if out.len() < LINE * lines {
        return Counted::Refused(book::SHORT_LIST);
    }
    put_pages(text, cells, masks, n, lines, out);
    Counted::Count(LINE * lines)
}

// The pages of a pair question's answer, written into the space. No list of pairs is lent: they go from the relation where it
// was made straight to bytes.
pub fn print(register: Register, text: &[u8], work: &mut [u64], pages: &mut [u8]) -> Counted
    ensures { Prints register text.now (length work.old) pages.old pages.new result }
{
    let related = rowpairs::relate(register, text, work);
    let answer = related.answer;
    let masks = related.masks;
    match answer {
        Counted::Refused(k) => Counted::Refused(k),
        Counted::Count(n) => lay_out(text, work, &masks, n, pages),
    }
}
