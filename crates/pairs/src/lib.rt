// Pair questions by trees: the code of an expression is run on a stack of operands, whose k2-trees lie one after another in the lent work. The value of its
// last number is left in rows of bits, whose pairs are counted and listed. What a question promises is stated in crate query (specs/Asking.antt).
#![tactic(auto)]

ghost use Rattle.std.specs.Prelude.{◌≡◌, List, ℕ, ◌-◌, ◌<◌, ◌≤◌, length, take};
ghost use Rattle.book.specs.Book.{Book};
ghost use Rattle.book.specs.Causes.{max_records};
ghost use Rattle.k2.specs.Bits.{bit_at};
ghost use Rattle.k2.specs.Trees.{tree_unit};
ghost use Rattle.paths.specs.Expressions.{Expr};
ghost use Rattle.paths.specs.Grammar.{accepted};
ghost use Rattle.paths.specs.Chains.{asked};
ghost use Rattle.paths.specs.Relations.{cells};
ghost use Rattle.paths.specs.Questions.{by_trees};
ghost use Rattle.rows.specs.Rows.{flat};
ghost use Rattle.query.specs.Evaluation.{Ready, Coded, Lettered};
ghost use Rattle.query.specs.Asking.{AsksFor, AsksPairs};
ghost use Rattle.pairs.specs.Evaluation.{Holding, letters_operand, on_top, below_top, taken_one, taken_two, pushed, turned, Placed, Space};
ghost use Rattle.pairs.specs.Steps.{Takes, Goes, Going, Ends};

use answers::Counted;
use reader::Item;

// The operands that wait, the first put on in front; how many they are, and where their trees end in the work.
#[derive(Clone, Copy)]
struct Stack {
    operands: [tree::Operand; 19],
    count: usize,
    end: usize,
}

// An item of the code with the operands that it takes off the stack, as a term; where their trees begin in the work, and how many operands stay.
#[derive(Clone, Copy)]
struct Taken {
    term: tree::Term,
    start: usize,
    below: usize,
}

// A size, cut off at D. Of a register's own links no tree is longer.
fn bounded(size: usize, n: usize) -> usize
    requires { n ≤ max_records }
    ensures { (result ≤ tree_unit n) × (size ≤ tree_unit n → result ≡ size) }
{
    let most = tree::tree_unit(n);
    if most < size {
        return most;
    }
    size
}

// The operand of a symbol: the links of its letters, and no tree.
fn letters(forward: u32, against: u32) -> tree::Operand
    ensures { result ≡ letters_operand forward against }
{
    tree::Operand {
        size: 0,
        sense: tree::Sense::Plain,
        forward,
        against,
    }
}

// One operand more.
fn push(stack: Stack, operand: tree::Operand) -> Stack
    requires { (stack.count < 19) × (length stack.operands ≡ 19) }
    ensures { result ≡ pushed operand stack.count stack.end stack }
{
    let mut next = stack;
    let count = next.count;
    next.operands[count] = operand;
    next.count = count + 1;
    next
}

// `^`: the operand on top is read with the other sense, and nothing is written.
fn inverse(stack: Stack) -> Stack
    requires { (1 ≤ stack.count) × (stack.count ≤ 19) × (length stack.operands ≡ 19) }
    ensures { result ≡ turned stack }
{
    let mut next = stack;
    let top = next.count - 1;
    let operand = tree::inverted(next.operands[top]);
    next.operands[top] = operand;
    next
}

// The operand on top, with an operation on it.
fn on_one(stack: Stack, operation: tree::Operation) -> Taken
    requires { Holding 1 stack }
    ensures { result ≡ taken_one operation stack }
{
    let top = stack.count - 1;
    let second = stack.operands[top];
    let start = stack.end - second.size;
    let term = tree::Term {
        operation,
        first: tree::no_operand(),
        second,
    };
    Taken {
        term,
        start,
        below: top,
    }
}

// The two operands on top, with an operation on them.
fn on_two(stack: Stack, operation: tree::Operation) -> Taken
    requires { Holding 2 stack × ((below_top stack).size ≤ stack.end - (on_top stack).size) }
    ensures { result ≡ taken_two operation stack }
{
    let top = stack.count - 1;
    let second = stack.operands[top];
    let start = stack.end - second.size;
    let below = top - 1;
    let first = stack.operands[below];
    let term = tree::Term {
        operation,
        first,
        second,
    };
    Taken {
        term,
        start: start - first.size,
        below,
    }
}

// An item with the operands that it takes off the stack. Letters take none, and are a union with nothing; so is `^`, its operand being read with the other
// sense.
fn take_off(stack: Stack, item: Item) -> Taken
    requires { Ready item stack.count × ((d : ℕ) × Placed d stack) }
    ensures { (d : ℕ) → Placed d stack → Takes d item stack result }
{
    match item {
        Item::Letters(forward, against) => {
            let term = tree::Term {
                operation: tree::Operation::Union,
                first: tree::no_operand(),
                second: letters(forward, against),
            };
            Taken {
                term,
                start: stack.end,
                below: stack.count,
            }
        }
        Item::Inverse => on_one(inverse(stack), tree::Operation::Union),
        Item::Star => on_one(stack, tree::Operation::Star),
        Item::Plus => on_one(stack, tree::Operation::Closure),
        Item::Optional => on_one(stack, tree::Operation::Optional),
        Item::Alternative => on_two(stack, tree::Operation::Union),
        Item::Sequence => on_two(stack, tree::Operation::Product),
    }
}

// An operator; the part of work from its operands on is lent to the operation, whose outcome takes their place.
fn operator(
    work: &mut [u64],
    n: usize,
    links: &[u32],
    used: &[u64],
    rows: &mut [u64],
    stack: Stack,
    item: Item,
) -> Stack
    requires { Space n work.old used.now rows.old × Ready item stack.count × Placed (tree_unit n) stack }
    ensures { Goes n links.now used.now item work.old work.new stack result }
{
    let taken = take_off(stack, item);
    let term = taken.term;
    let start = taken.start;
    let below = taken.below;
    let made = tree::operate(term, &mut work[start..], n, links, used, rows);
    let size = bounded(made, n);
    let mut next = stack;
    let operand = tree::Operand {
        size,
        sense: tree::Sense::Plain,
        forward: 0,
        against: 0,
    };
    next.operands[below] = operand;
    next.count = below + 1;
    next.end = start + size;
    next
}

// One number of the code. Letters are put on the stack, and `^` turns what is on top: neither writes a tree.
fn step(
    work: &mut [u64],
    n: usize,
    links: &[u32],
    used: &[u64],
    rows: &mut [u64],
    stack: Stack,
    item: Item,
) -> Stack
    requires { Space n work.old used.now rows.old × Ready item stack.count × Placed (tree_unit n) stack }
    ensures { Goes n links.now used.now item work.old work.new stack result }
{
    match item {
        Item::Letters(forward, against) => push(stack, letters(forward, against)),
        Item::Inverse => inverse(stack),
        _ => operator(work, n, links, used, rows, stack, item),
    }
}

// All numbers of the code but the last; the operands that wait for that.
fn evaluate(
    work: &mut [u64],
    n: usize,
    links: &[u32],
    used: &[u64],
    rows: &mut [u64],
    code: &[u64],
) -> Stack
    requires { Space n work.old used.now rows.old × ((s : List ℕ) × (e : Expr) × Coded s e code.now) }
    ensures { Going n links.now used.now code.now work.new result (length code.now - 1) }
{
    let mut stack = Stack {
        operands: [tree::no_operand(); 19],
        count: 0,
        end: 0,
    };
    let mut i = 0;
    while i + 1 < code.len() {
        let item = reader::item_of(code[i]);
        stack = step(work, n, links, used, rows, stack, item);
        i += 1;
    }
    stack
}

// The last number of the code: its value is left in rows, and no tree is made of it.
fn last(
    work: &[u64],
    n: usize,
    links: &[u32],
    used: &[u64],
    rows: &mut [u64],
    stack: Stack,
    item: Item,
)
    requires { Space n work.now used.now rows.old × Ready item stack.count × Placed (tree_unit n) stack }
    ensures { Ends n links.now used.now item work.now stack rows.new }
{
    let taken = take_off(stack, item);
    let term = taken.term;
    let start = taken.start;
    tree::outcome_rows(term, &work[start..], n, links, used, rows);
}

// The whole code: its value is left in rows.
fn run(work: &mut [u64], n: usize, links: &[u32], used: &[u64], rows: &mut [u64], code: &[u64])
    requires { Space n work.old used.now rows.old × ((s : List ℕ) × (e : Expr) × Coded s e code.now) }
    ensures { (b : Book) → Lettered b n links.now (bit_at used.now) → (s : List ℕ) (e : Expr) → Coded s e code.now
        → bit_at rows.new ≡ flat (cells (asked b) e) }
{
    let stack = evaluate(work, n, links, used, rows, code);
    let item = reader::item_of(code[code.len() - 1]);
    last(work, n, links, used, rows, stack, item);
}

// The answer by the code of an expression: the first len numbers of the array.
fn of_code(
    register: register::Register,
    code: [u64; book::MAX_BYTES],
    len: usize,
    work: &mut [u64],
    list: &mut [u32],
) -> Counted
    requires { (len ≤ length code) × ((s : List ℕ) × (e : Expr) × Coded s e (take len code)) }
    ensures { (s : List ℕ) (e : Expr) → Coded s e (take len code)
        → AsksFor by_trees register (accepted e) (length work.old) list.old list.new result }
{
    let n = register.size();
    if work.len() < query::pairs_work(n) {
        return Counted::Refused(book::SHORT_WORK);
    }
    let links = register.links();
    let count = links.count;
    let array = links.words;
    let marks = register.marks();
    let used = query::in_use(&marks, n);
    let mut rows: [u64; k2::ROWS_WORDS] = [0; k2::ROWS_WORDS];
    run(work, n, &array[..count], &used, &mut rows, &code[..len]);
    let total = rows::count_pairs(&rows, n);
    rows::write_pairs(&rows, n, list);
    Counted::Count(total)
}

// The pairs that have a chain, ascending, each once, as many as the list takes; how many they are in all.
pub fn pairs(
    register: register::Register,
    text: &[u8],
    work: &mut [u64],
    list: &mut [u32],
) -> Counted
    ensures { AsksPairs register text.now (length work.old) list.old list.new result }
{
    let reading = reader::read(text);
    let answer = reading.answer;
    let code = reading.code;
    match answer {
        reader::Answer::Refused(k) => Counted::Refused(k as u32),
        reader::Answer::Accepted(len) => of_code(register, code, len, work, list),
    }
}
