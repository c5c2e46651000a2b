// What stands where a letter may: a letter, or a negated set with its members. Each is read from a place of the text on, as the letters that it stands for.
ghost use Rattle.std.specs.Prelude.{◌≡◌, List, [], ◌+◌, ◌<◌, ◌≤◌, length, drop};
ghost use Rattle.paths.specs.Expressions.{Letter};
ghost use Rattle.paths.specs.Grammar.{open_group};
ghost use Rattle.paths.specs.Descent.{first_byte, members_in, read_negated, read_atom};
ghost use Rattle.reader.specs.Code.{label_sets};
ghost use Rattle.reader.specs.Progress.{Stands, label_at, Marked, MemberAt, others_of};

// The set of all labels.
const ALL_LABELS: u32 = 67108863;

// The letters of a symbol that was read, as two sets of labels, and where it ends in the text.
#[derive(Clone, Copy)]
pub struct Letters {
    pub at: usize,
    pub forward: u32,
    pub against: u32,
}

// What is read where a symbol may stand.
#[derive(Clone, Copy)]
pub enum Symbol {
    Read(Letters),
    Missing,
}

// The byte at a place, or 0 at the end.
pub fn peek(s: &[u8], at: usize) -> u8
    ensures { result ≡ first_byte (drop at s.now) }
{
    if at < s.len() { s[at] } else { 0 }
}

// A letter or a negated set, where no group begins.
pub fn symbol_at(s: &[u8], at: usize) -> Symbol
    requires { at ≤ length s.now }
    ensures { (first_byte (drop at s.now) ≡ open_group → ⊥) → Stands s.now at (read_atom (drop at s.now)) result }
{
    if peek(s, at) == b'!' {
        return negated(s, at + 1);
    }
    let label = label_at(s, at);
    if label == 0 {
        return Symbol::Missing;
    }
    Symbol::Read(Letters {
        at: at + 1,
        forward: label,
        against: 0,
    })
}

// A letter's label as a set, or the empty set if no letter stands there.
fn label_at(s: &[u8], at: usize) -> u32
    ensures { result ≡ label_at (first_byte (drop at s.now)) }
{
    let c = peek(s, at);
    if c < b'a' {
        return 0;
    }
    if b'z' < c {
        return 0;
    }
    1 << (c - b'a')
}

// A negated set, after its !: one member, or members in parentheses, which are no group.
fn negated(s: &[u8], at: usize) -> Symbol
    requires { at ≤ length s.now }
    ensures { Stands s.now at (read_negated (drop at s.now)) result }
{
    if peek(s, at) == b'(' {
        return set(s, at + 1);
    }
    let r = member(
        s,
        Letters {
            at,
            forward: 0,
            against: 0,
        },
    );
    let Symbol::Read(q) = r else {
        return Symbol::Missing;
    };
    Symbol::Read(Letters {
        at: q.at,
        forward: others(q.forward),
        against: others(q.against),
    })
}

// The members of a set up to its ), after the (.
fn set(s: &[u8], at: usize) -> Symbol
    requires { at ≤ length s.now }
    ensures { Stands s.now at (members_in (length (drop at s.now) + 1) [] (drop at s.now)) result }
{
    let mut before = Letters {
        at,
        forward: 0,
        against: 0,
    };
    loop {
        let r = member(s, before);
        let Symbol::Read(q) = r else {
            return Symbol::Missing;
        };
        let c = peek(s, q.at);
        if c == b')' {
            return Symbol::Read(Letters {
                at: q.at + 1,
                forward: others(q.forward),
                against: others(q.against),
            });
        }
        if c != b'|' {
            return Symbol::Missing;
        }
        before = Letters {
            at: q.at + 1,
            forward: q.forward,
            against: q.against,
        };
    }
}

// The member of a set that stands after `before`, a letter or ^ and a letter, with those before it.
fn member(s: &[u8], before: Letters) -> Symbol
    requires { before.at ≤ length s.now }
    ensures { (w : List Letter) → Marked w before → MemberAt s.now before.at w result }
{
    if peek(s, before.at) == b'^' {
        let label = label_at(s, before.at + 1);
        if label == 0 {
            return Symbol::Missing;
        }
        return Symbol::Read(Letters {
            at: before.at + 2,
            forward: before.forward,
            against: before.against | label,
        });
    }
    let label = label_at(s, before.at);
    if label == 0 {
        return Symbol::Missing;
    }
    Symbol::Read(Letters {
        at: before.at + 1,
        forward: before.forward | label,
        against: before.against,
    })
}

// The labels that a negated set stands for, in a sense where its members have these.
fn others(labels: u32) -> u32
    requires { labels < label_sets }
    ensures { result ≡ others_of labels }
{
    if labels == 0 {
        return 0;
    }
    ALL_LABELS - labels
}
