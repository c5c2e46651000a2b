// The words of a line. What each function finds is defined in specs/Typed.antt.
ghost use Rattle.std.specs.Prelude.{◌≡◌, length};
ghost use Rattle.lines.specs.Typed.{blank, skip, trim, word, rest, same_bytes, is_number, number_of, is_label, label_of, text};
ghost use Rattle.lines.specs.Read.{read};

// The most bytes of a question's text that are sent.
const MOST_TEXT: usize = 1018;

// The greatest number.
const MOST_NUMBER: u32 = 65535;

// What stands for a word that is no number, or no label.
pub const NONE: u32 = MOST_NUMBER + 1;

fn is_blank(c: u8) -> bool
    ensures { result ≡ blank c }
{
    if c == b' ' {
        return true;
    }
    if c == b'\t' {
        return true;
    }
    c == b'\r'
}

// The bytes without the blanks in front.
pub fn skip<'a>(s: &'a [u8]) -> &'a [u8]
    ensures { result.now ≡ skip s.now }
{
    let mut t = s;
    while t.len() > 0 {
        if !is_blank(t[0]) {
            return t;
        }
        t = &t[1..];
    }
    t
}

fn word_len(s: &[u8]) -> usize
    ensures { result ≡ length (word s.now) }
{
    let mut i = 0;
    while i < s.len() {
        if is_blank(s[i]) {
            return i;
        }
        i += 1;
    }
    i
}

// The first word.
pub fn word<'a>(s: &'a [u8]) -> &'a [u8]
    ensures { result.now ≡ word s.now }
{
    let n = word_len(s);
    &s[..n]
}

// What follows the first word, from the next one on.
pub fn rest<'a>(s: &'a [u8]) -> &'a [u8]
    ensures { result.now ≡ rest s.now }
{
    let n = word_len(s);
    skip(&s[n..])
}

// The bytes without the blanks at their end.
fn trim<'a>(s: &'a [u8]) -> &'a [u8]
    ensures { result.now ≡ trim s.now }
{
    let mut n = s.len();
    while n > 0 {
        if !is_blank(s[n - 1]) {
            return &s[..n];
        }
        n -= 1;
    }
    &s[..n]
}

// What is sent of a question's text.
pub fn text<'a>(s: &'a [u8]) -> &'a [u8]
    ensures { result.now ≡ text s.now }
{
    let t = trim(s);
    if t.len() > MOST_TEXT {
        return &t[..MOST_TEXT];
    }
    t
}

pub fn same(a: &[u8], b: &[u8]) -> bool
    ensures { result ≡ same_bytes a.now b.now }
{
    if a.len() != b.len() {
        return false;
    }
    for i in 0..a.len() {
        if a[i] != b[i] {
            return false;
        }
    }
    true
}

fn as_number(w: &[u8]) -> u32
    ensures { result ≡ read (is_number w.now) (number_of w.now) }
{
    if w.len() == 0 {
        return NONE;
    }
    let mut value: u32 = 0;
    for i in 0..w.len() {
        let c = w[i];
        if c < b'0' {
            return NONE;
        }
        if c > b'9' {
            return NONE;
        }
        value = value * 10 + (c - b'0') as u32;
        if value > MOST_NUMBER {
            return NONE;
        }
    }
    value
}

// The first word as a number.
pub fn number(s: &[u8]) -> u32
    ensures { result ≡ read (is_number (word s.now)) (number_of (word s.now)) }
{
    as_number(word(s))
}

fn as_label(w: &[u8]) -> u32
    ensures { result ≡ read (is_label w.now) (label_of w.now) }
{
    if w.len() != 1 {
        return NONE;
    }
    let c = w[0];
    if c < b'a' {
        return NONE;
    }
    if c > b'z' {
        return NONE;
    }
    (c - b'a') as u32
}

// The first word as a label.
pub fn label(s: &[u8]) -> u32
    ensures { result ≡ read (is_label (word s.now)) (label_of (word s.now)) }
{
    as_label(word(s))
}
