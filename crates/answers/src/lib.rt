// What a call that counts answers, and how it is told as one number; words written into a list that is lent, one copy for each width.
#![tactic(auto)]

ghost use Rattle.std.specs.Prelude.{◌≡◌, [], ◌∷◌, ◌+◌, ◌≤◌, length};
ghost use Rattle.answers.specs.Answers.{refusal, told_counted};
ghost use Rattle.answers.specs.Listing.{Grown};
ghost use Rattle.answers.specs.Written.{Wrote};

// The answer of a call that counts: how many there are, or refused with the number of the cause.
#[derive(Clone, Copy)]
pub enum Counted {
    Count(usize),
    Refused(u32),
}

// More than any count, and told in place of one.
pub const PAST_COUNTS: u64 = 0x1_0000_0000;

// A refusal is told as this and its number.
const REFUSAL: u64 = 2 * PAST_COUNTS;

// A refusal told as 64 bits.
pub fn told_refusal(number: u32) -> u64
    ensures { result ≡ refusal number }
{
    REFUSAL + number as u64
}

// A count or a refusal told as 64 bits.
pub fn told(answer: Counted) -> u64
    ensures { result ≡ told_counted answer }
{
    match answer {
        Counted::Count(count) => count as u64,
        Counted::Refused(number) => told_refusal(number),
    }
}

// Bytes written into a list from a place on; the place after them.
pub fn copy_u8(from: &[u8], to: &mut [u8], at: usize) -> usize
    requires { at + length from.now ≤ length to.old }
    ensures { Wrote at from.now to.old to.new result }
{
    let mut i = 0;
    while i < from.len() {
        to[at + i] = from[i];
        i += 1;
    }
    at + i
}

// Words of 64 bits, likewise.
pub fn copy_u64(from: &[u64], to: &mut [u64], at: usize) -> usize
    requires { at + length from.now ≤ length to.old }
    ensures { Wrote at from.now to.old to.new result }
{
    let mut i = 0;
    while i < from.len() {
        to[at + i] = from[i];
        i += 1;
    }
    at + i
}

// Words of 32 bits, likewise.
pub fn copy_u32(from: &[u32], to: &mut [u32], at: usize) -> usize
    requires { at + length from.now ≤ length to.old }
    ensures { Wrote at from.now to.old to.new result }
{
    let mut i = 0;
    while i < from.len() {
        to[at + i] = from[i];
        i += 1;
    }
    at + i
}

// A word written at place t, if the list is that long.
pub fn put_u32(out: &mut [u32], t: usize, v: u32)
    ensures { Grown t (t + 1) (v ∷ []) out.old out.new }
{
    if t < out.len() {
        out[t] = v;
    }
}
