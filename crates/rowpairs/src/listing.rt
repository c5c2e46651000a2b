// The pairs of an expression, listed.
ghost use Rattle.std.specs.Prelude.{◌≡◌, map, ◌++◌, ◌^◌, ◌<◌, ◌≤◌, length, take, drop};
ghost use Rattle.book.specs.Causes.{max_records, max_links};
ghost use Rattle.paths.specs.Questions.{Engine, work_for};
ghost use Rattle.paths.specs.Verdicts.{verdict};
ghost use Rattle.links.specs.Parts.{link_pair};
ghost use Rattle.query.specs.Asking.{AsksFor, AsksPairs, AsksRows};
ghost use Rattle.rowpairs.specs.Labels.{Alone, LetterListed};
ghost use Rattle.register.specs.declared.Register.{Register};
ghost use Rattle.register.specs.Reads.{ReadOf};
ghost use Rattle.rowpairs.specs.Evaluation.{Runnable, Enough, ValueListed, KnownOf, Answering};

use crate::LABELS;
use crate::running::{leave_value, lesser};
use answers::Counted;
use reader::Item;
use register::Register;

// A link's word is label * LABEL_UNIT + its pair word.
const LABEL_UNIT: u32 = 1048576;

// The label of which the two sets have the plain letter alone; LABELS if they have others.
fn only_label(forward: u32, against: u32) -> u8
    ensures { result < 26 → (forward ≡ 2 ^ result) × (against ≡ 0) }
{
    if against != 0 {
        return LABELS;
    }
    let label = u32::trailing_zeros(forward);
    if LABELS as u32 <= label {
        return LABELS;
    }
    if forward != 1 << label {
        return LABELS;
    }
    label as u8
}

// The label of a code that is a plain letter alone; LABELS of any other.
fn letter_alone(code: &[u64]) -> u8
    ensures { result < 26 → Alone result code.now }
{
    if code.len() != 1 {
        return LABELS;
    }
    let item = reader::item_of(code[0]);
    match item {
        Item::Letters(forward, against) => only_label(forward, against),
        _ => LABELS,
    }
}

// The pairs of links' words written to the list, as many as it takes; the words past them are left.
fn write_links(words: &[u32], list: &mut [u32])
    ensures { list.new ≡ take (length list.old) (map link_pair words.now)
        ++ drop (length (map link_pair words.now)) list.old }
{
    let count = lesser(words.len(), list.len());
    for i in 0..count {
        list[i] = words[i] % LABEL_UNIT;
    }
}

// A letter alone: the pairs of its links, ascending as the register's words are.
fn list_letter(links: &[u32], label: u8, list: &mut [u32]) -> usize
    ensures { LetterListed links.now label list.old list.new result }
{
    let part = register::label_part(links, label);
    write_links(part, list);
    part.len()
}

// The pairs of the code's value listed; how many they are. A letter alone needs no relation.
fn list_value(
    n: usize,
    links: &[u32],
    marks: &[u32],
    code: &[u64],
    work: &mut [u64],
    list: &mut [u32],
) -> usize
    requires { Runnable n marks.now code.now × Enough n (length work.old) × (length links.now ≤ max_links) }
    ensures { ValueListed n links.now marks.now code.now list.old list.new result }
{
    let label = letter_alone(code);
    if label < LABELS {
        return list_letter(links, label, list);
    }
    let mut masks: [u16; book::MAX_RECORDS] = [0; book::MAX_RECORDS];
    leave_value(n, links, marks, code, work, &mut masks);
    grid::list(work, &masks, n, query::row_width(n), list)
}

// The answer to a text, of what was read of a register, where so many words of work are needed.
fn answer(
    n: usize,
    links: &[u32],
    marks: &[u32],
    text: &[u8],
    need: usize,
    work: &mut [u64],
    list: &mut [u32],
) -> Counted
    requires { Answering n links.now marks.now need }
    ensures { (d : Engine) → need ≡ work_for d n → (r : Register) → KnownOf r n links.now marks.now
        → AsksFor d r (verdict text.now) (length work.old) list.old list.new result }
{
    let reading = reader::read(text);
    let read = reading.answer;
    let code = reading.code;
    match read {
        reader::Answer::Refused(k) => Counted::Refused(k as u32),
        reader::Answer::Accepted(len) => {
            if work.len() < need {
                return Counted::Refused(book::SHORT_WORK);
            }
            Counted::Count(list_value(n, links, marks, &code[..len], work, list))
        }
    }
}

// The pairs that have a chain, ascending, each once, as many as the list takes; how many they are in all: of what was read of a register, its marks and links.
// Work of its own is needed: 32 relations of n rows.
pub fn pairs_over(
    marks: &[u32],
    links: &[u32],
    text: &[u8],
    work: &mut [u64],
    list: &mut [u32],
) -> Counted
    requires { (length marks.now ≤ max_records) × (length links.now ≤ max_links) }
    ensures { (self : Register) → ReadOf self marks.now links.now
        → AsksRows self text.now (length work.old) list.old list.new result }
{
    let n = marks.len();
    answer(n, links, marks, text, query::rows_work(n), work, list)
}

// The same answer with the promise of trees, and so with their work.
pub fn pairs_over_as_trees(
    marks: &[u32],
    links: &[u32],
    text: &[u8],
    work: &mut [u64],
    list: &mut [u32],
) -> Counted
    requires { (length marks.now ≤ max_records) × (length links.now ≤ max_links) }
    ensures { (self : Register) → ReadOf self marks.now links.now
        → AsksPairs self text.now (length work.old) list.old list.new result }
{
    let n = marks.len();
    answer(n, links, marks, text, query::pairs_work(n), work, list)
}

// The pairs of a register, with the work of rows.
pub fn pairs_by_rows(register: Register, text: &[u8], work: &mut [u64], list: &mut [u32]) -> Counted
    ensures { AsksRows register text.now (length work.old) list.old list.new result }
{
    let n = register.size();
    let marks = register.marks();
    let links = register.links();
    let words = links.words;
    let count = links.count;
    pairs_over(&marks[0..n], &words[0..count], text, work, list)
}

// The same with the promise of trees, and so with their work.
pub fn pairs(register: Register, text: &[u8], work: &mut [u64], list: &mut [u32]) -> Counted
    ensures { AsksPairs register text.now (length work.old) list.old list.new result }
{
    let n = register.size();
    let marks = register.marks();
    let links = register.links();
    let words = links.words;
    let count = links.count;
    pairs_over_as_trees(&marks[0..n], &words[0..count], text, work, list)
}
