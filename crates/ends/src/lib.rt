// The ends of one record, every record that a chain leads to from it, and its starts, from which one leads to it.
#![tactic(auto)]

ghost use Rattle.std.specs.Prelude.{◌≡◌, List, ℕ, ◌≤◌, length};
ghost use Rattle.book.specs.Causes.{max_records, max_links};
ghost use Rattle.book.specs.Book.{Book};
ghost use Rattle.k2.specs.PairSets.{if_set};
ghost use Rattle.paths.specs.Expressions.{Expr};
ghost use Rattle.paths.specs.Chains.{asked};
ghost use Rattle.paths.specs.Verdicts.{InLimits};
ghost use Rattle.reader.specs.Code.{code};
ghost use Rattle.register.specs.Representation.{Represents};
ghost use Rattle.register.specs.Reads.{ReadOf};
ghost use Rattle.rows.specs.Rows.{places};
ghost use Rattle.ends.specs.Ends.{joined_by};
ghost use Rattle.answers.specs.Listing.{Shown, Grown};
ghost use Rattle.ends.specs.Asking.{AsksJoined, AsksEnds, AsksStarts};
ghost use Rattle.ends.specs.Listing.{meets, Searching};

use answers::Counted;
use reader::Answer;
use register::Register;

// The record y written at place t, if the states are not none and the list is that long. The place after it.
fn write(out: &mut [u32], t: usize, states: u64, y: u32) -> usize
    requires { t ≤ max_records }
    ensures { Grown t result (if_set states y) out.old out.new }
{
    if states == 0 {
        return t;
    }
    answers::put_u32(out, t, y);
    t + 1
}

// How many of n records have one of the states; they are written to the list, ascending, as far as it takes them, and the words past them are left.
fn list(seen: &[u64], states: u64, n: usize, out: &mut [u32]) -> usize
    requires { (n ≤ length seen.now) × (n ≤ max_records) }
    ensures { (result ≡ length (places (meets seen.now states) n))
        × Shown (places (meets seen.now states) n) out.old out.new }
{
    let mut t = 0;
    for y in 0..n {
        t = write(out, t, seen[y] & states, y as u32);
    }
    t
}

// The ends of a record over the links, for the expression whose code is given; against the sense, its starts. A withdrawn record has none.
fn sought(
    marks: &[u32],
    links: &[u32],
    numbers: &[u64],
    against: bool,
    x: usize,
    out: &mut [u32],
) -> usize
    requires { Searching marks.now links.now numbers.now x }
    ensures { (l : List ℕ) × (result ≡ length l) × (result ≤ max_records) × Shown l out.old out.new
        × ((text : List ℕ) (e : Expr) → InLimits text e → numbers.now ≡ code e → (self : Register) (b : Book) → Represents self b
        → ReadOf self marks.now links.now → l ≡ joined_by against (asked b) e x) }
{
    if marks[x] == register::WITHDRAWN_MARK {
        return 0;
    }
    let n = marks.len();
    let tables = tables::tables_of(numbers, against);
    let follow = tables.follow;
    let enter = tables.enter;
    let seen = search::reached(links, &follow, &enter, n, x);
    list(&seen, tables.accepting, n, out)
}

// The records that a chain joins to the one, in either sense, over the marks and links that are lent of a register.
pub fn joined_over(
    marks: &[u32],
    links: &[u32],
    to: u16,
    text: &[u8],
    against: bool,
    out: &mut [u32],
) -> Counted
    requires { (length marks.now ≤ max_records) × (length links.now ≤ max_links) }
    ensures { (self : Register) → ReadOf self marks.now links.now
        → AsksJoined against self to text.now out.old out.new result }
{
    let x = to as usize;
    if marks.len() <= x {
        return Counted::Refused(book::NO_RECORD);
    }
    let reading = reader::read(text);
    let code = reading.code;
    let answer = reading.answer;
    match answer {
        Answer::Refused(number) => Counted::Refused(number as u32),
        Answer::Accepted(k) => Counted::Count(sought(marks, links, &code[0..k], against, x, out)),
    }
}

// The same of a register.
fn list_joined(register: Register, to: u16, text: &[u8], against: bool, out: &mut [u32]) -> Counted
    ensures { AsksJoined against register to text.now out.old out.new result }
{
    let n = register.size();
    let marks = register.marks();
    let links = register.links();
    let words = links.words;
    let count = links.count;
    joined_over(&marks[0..n], &words[0..count], to, text, against, out)
}

// Every record that a chain leads to from the one, spelling a word of the expression: ascending, as many as the list takes.
pub fn ends(register: Register, from: u16, text: &[u8], out: &mut [u32]) -> Counted
    ensures { AsksEnds register from text.now out.old out.new result }
{
    list_joined(register, from, text, false, out)
}

// Every record from which a chain leads to the one, likewise.
pub fn starts(register: Register, to: u16, text: &[u8], out: &mut [u32]) -> Counted
    ensures { AsksStarts register to text.now out.old out.new result }
{
    list_joined(register, to, text, true, out)
}
