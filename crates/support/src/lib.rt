// Sole support: which records would lose every chain to the anchors if one core did. A product above the engine: the relation behind its questions is asked
// of the register's marks and links, and of what is left of them without the core's links; its proofs rest on what is promised there.
#![tactic(auto)]

ghost use Rattle.std.specs.Prelude.{◌≡◌, false, not, ◌&&◌, ℕ, ◌<◌, ◌≤◌, min, leb, length, take, get_or};
ghost use Rattle.book.specs.Causes.{max_records, max_links};
ghost use Rattle.paths.specs.Questions.{chain_work};
ghost use Rattle.paths.specs.Verdicts.{verdict};
ghost use Rattle.answers.specs.Answers.{Whole};
ghost use Rattle.rowpairs.specs.Evaluation.{Known, KnownOf, Held, relation_in};
ghost use Rattle.support.specs.Support.{some, chosen, reaches, orderly, Supports};
ghost use Rattle.support.specs.Inner.{lost as Lost, Marked, Compares, Comparing};

use answers::Counted;
use register::Register;

// The words of work for each record beside those of a pair question.
const RECORD_WORDS: usize = 64;

// Of each record, whether it has a chain to some anchor; the number of a refusal, or 0.
#[derive(Clone, Copy)]
struct Marks {
    records: [bool; book::MAX_RECORDS],
    number: u32,
}

// The records that fall, ascending, as the first count of words.
#[derive(Clone, Copy)]
struct FallenList {
    words: [u32; book::MAX_RECORDS],
    count: usize,
}

// Whether some record of a list is not below n.
fn beyond(records: &[u16], n: usize) -> bool
    ensures { result ≡ some (leb n) records.now }
{
    for i in 0..records.len() {
        if n <= records[i] as usize {
            return true;
        }
    }
    false
}

// Whether the records of a list ascend, each once.
fn ascending(records: &[u16]) -> bool
    ensures { result ≡ orderly 0 records.now }
{
    let mut least: usize = 0;
    for i in 0..records.len() {
        let x = records[i] as usize;
        if x < least {
            return false;
        }
        least = x + 1;
    }
    true
}

// Of each record, whether a relation of n records joins it to some anchor.
fn joined_records(
    cells: &[u64],
    masks: &[u16],
    n: usize,
    anchors: &[u16],
) -> [bool; book::MAX_RECORDS]
    requires { Held n (length cells.now) × (n ≤ length masks.now) × (some (leb n) anchors.now ≡ false) }
    ensures { (length result ≡ max_records)
        × ((x : ℕ) → x < n → get_or result x false ≡ reaches (relation_in cells.now masks.now n) anchors.now x) }
{
    let row = rowpairs::record_row(anchors);
    let mut records: [bool; book::MAX_RECORDS] = [false; book::MAX_RECORDS];
    for x in 0..n {
        records[x] = rowpairs::joins_some(cells, masks, n, x, &row);
    }
    records
}

// Of each record, by the marks and links of a register, whether it has a chain to some anchor.
fn mark_records(
    marks: &[u32],
    links: &[u32],
    text: &[u8],
    anchors: &[u16],
    work: &mut [u64],
) -> Marks
    requires { (length marks.now ≤ max_records) × (some (leb (length marks.now)) anchors.now ≡ false) }
    ensures { Marked (λ b. Known b (length marks.now) links.now marks.now)
        (verdict text.now) anchors.now (length work.old) (length marks.now) result }
{
    let related = rowpairs::relate_over(marks, links, text, work);
    let answer = related.answer;
    let masks = related.masks;
    match answer {
        Counted::Refused(number) => Marks {
            records: [false; book::MAX_RECORDS],
            number,
        },
        Counted::Count(n) => Marks {
            records: joined_records(work, &masks, n, anchors),
            number: 0,
        },
    }
}

// Whether a record is lost that was marked, or not, and is marked, or not: never the core.
fn loses(had: bool, has: bool, core: bool) -> bool
    ensures { result ≡ (not core && (had && not has)) }
{
    if core {
        return false;
    }
    if !had {
        return false;
    }
    !has
}

// The records but the core that the first marks have and the second have not.
fn fallen(
    before: [bool; book::MAX_RECORDS],
    after: [bool; book::MAX_RECORDS],
    core: usize,
    n: usize,
) -> FallenList
    requires { (n ≤ max_records) × (length before ≡ max_records) × (length after ≡ max_records) }
    ensures { (result.count ≤ max_records) × (length result.words ≡ max_records) × (take result.count result.words ≡ chosen (Lost before after core) n) }
{
    let mut words: [u32; book::MAX_RECORDS] = [0; book::MAX_RECORDS];
    let mut count = 0;
    for x in 0..n {
        let had = before[x];
        let has = after[x];
        if loses(had, has, x == core) {
            words[count] = x as u32;
            count += 1;
        }
    }
    FallenList { words, count }
}

// The records that fall handed over, if the list takes them all.
fn list_fallen(
    before: [bool; book::MAX_RECORDS],
    after: [bool; book::MAX_RECORDS],
    core: usize,
    n: usize,
    list: &mut [u32],
) -> Counted
    requires { (n ≤ max_records) × (length before ≡ max_records) × (length after ≡ max_records) }
    ensures { Whole (chosen (Lost before after core) n) list.old list.new result }
{
    let found = fallen(before, after, core, n);
    let count = found.count;
    let words = found.words;
    if list.len() < count {
        return Counted::Refused(book::SHORT_LIST);
    }
    answers::copy_u32(&words[..count], list, 0);
    Counted::Count(count)
}

// With a core and anchors that are not refused: the records of the register marked, and those of what is left of it without the core's links.
fn compared(
    marks: &[u32],
    links: &[u32],
    core: u16,
    text: &[u8],
    anchors: &[u16],
    work: &mut [u64],
    list: &mut [u32],
) -> Counted
    requires { Comparing marks.now links.now core anchors.now }
    ensures { Compares (λ b. Known b (length marks.now) links.now marks.now)
        core (length marks.now) (verdict text.now) anchors.now
        (length work.old) list.old list.new result }
{
    let before = mark_records(marks, links, text, anchors, work);
    if before.number != 0 {
        return Counted::Refused(before.number);
    }
    let mut rest: [u32; book::MAX_LINKS] = [0; book::MAX_LINKS];
    let left = register::links_apart(links, core, &mut rest);
    let after = mark_records(marks, &rest[..left], text, anchors, work);
    if after.number != 0 {
        return Counted::Refused(after.number);
    }
    let had = before.records;
    let has = after.records;
    list_fallen(had, has, core as usize, marks.len(), list)
}

// Where the part of work begins that is lent on: past 64 words for each record, or at its end if there are not so many.
fn spared(len: usize, n: usize) -> usize
    requires { n ≤ max_records }
    ensures { result ≡ min len (chain_work n) }
{
    if len < RECORD_WORDS * n {
        return len;
    }
    RECORD_WORDS * n
}

// The same with a core and anchors that may be refused. The work of a pair question is lent on from word RECORD_WORDS * n, so that it is refused exactly when
// the whole is short.
fn supported(
    marks: &[u32],
    links: &[u32],
    core: u16,
    text: &[u8],
    anchors: &[u16],
    work: &mut [u64],
    list: &mut [u32],
) -> Counted
    requires { (length marks.now ≤ max_records) × (length links.now ≤ max_links) }
    ensures { (r : Register) → KnownOf r (length marks.now) links.now marks.now
        → Supports r core text.now anchors.now (length work.old) list.old list.new result }
{
    let n = marks.len();
    if n <= core as usize {
        return Counted::Refused(book::NO_RECORD);
    }
    if beyond(anchors, n) {
        return Counted::Refused(book::NO_RECORD);
    }
    if !ascending(anchors) {
        return Counted::Refused(book::UNORDERED_ANCHORS);
    }
    let start = spared(work.len(), n);
    compared(marks, links, core, text, anchors, &mut work[start..], list)
}

// The records that lose every chain to the anchors when the links of the core are gone, ascending; how many they are.
pub fn sole_support(
    register: Register,
    core: u16,
    text: &[u8],
    anchors: &[u16],
    work: &mut [u64],
    list: &mut [u32],
) -> Counted
    ensures { Supports register core text.now anchors.now (length work.old) list.old list.new result }
{
    let n = engine::size(register);
    let links = engine::links(register);
    let count = links.count;
    let array = links.words;
    let marks = engine::marks(register);
    supported(
        &marks[..n],
        &array[..count],
        core,
        text,
        anchors,
        work,
        list,
    )
}
