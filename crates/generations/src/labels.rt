// These functions work on labels: they tell whether one is out of range, and give their set as the bits of a number, the links that have one of them, and the
// text of the loops over those links.
ghost use Rattle.std.specs.Prelude.{◌≡◌, false, ◌≤◌, length, take};
ghost use Rattle.book.specs.Causes.{max_links};
ghost use Rattle.k2.specs.Bits.{digit};
ghost use Rattle.paths.specs.Grammar.{open_group};
ghost use Rattle.rows.specs.Rows.{places};
ghost use Rattle.rows.specs.RowSets.{labelled};
ghost use Rattle.generations.specs.Generations.{above};
ghost use Rattle.generations.specs.Inner.{Contains, separator_at, letters_after, loop_text};

// Labels are below this.
const LABELS: u32 = book::LABELS as u32;

// The most bytes of the text of a loop: a letter and the byte before it for each label, and two more.
pub const TEXT_BYTES: usize = 2 * book::LABELS + 2;

// Is a label above 25?
pub fn any_above(labels: &[u8]) -> bool
    ensures { result ≡ above labels.now }
{
    for i in 0..labels.len() {
        if book::LABELS <= labels[i] as usize {
            return true;
        }
    }
    false
}

// The labels as a set.
pub fn set_of(labels: &[u8]) -> u32
    requires { above labels.now ≡ false }
    ensures { Contains result labels.now }
{
    let mut set: u32 = 0;
    for i in 0..labels.len() {
        set = set | (1 << labels[i]);
    }
    set
}

// The words of the links whose label is in the set, into `kept`. How many are they?
pub fn keep(words: &[u32], set: u32, kept: &mut [u32]) -> usize
    requires { (length words.now ≤ max_links) × (length kept.old ≡ max_links) }
    ensures { (result ≤ max_links) × (take result kept.new ≡ labelled set words.now) }
{
    let mut count = 0;
    for i in 0..words.len() {
        let word = words[i];
        if rows::has_label(set, links::label_of(word)) {
            kept[count] = word;
            count += 1;
        }
    }
    count
}

// The letters of the set, each after a byte: ( before the first, | before every other. How many bytes are they?
fn spell_labels(set: u32, text: &mut [u8]) -> usize
    requires { length text.old ≡ 54 }
    ensures { (result ≤ 52) × (take result text.new ≡ letters_after open_group (places (digit set) 26)) }
{
    let mut count = 0;
    for label in 0u32..LABELS {
        if rows::has_label(set, label) {
            text[count] = separator(count);
            text[count + 1] = b'a' + label as u8;
            count += 2;
        }
    }
    count
}

// The byte before a letter at a place of the text.
fn separator(place: usize) -> u8
    ensures { result ≡ separator_at place }
{
    if place == 0 {
        return b'(';
    }
    b'|'
}

// The text of the loops over links whose label is in the set. How many bytes are they?
pub fn put_text(set: u32, text: &mut [u8]) -> usize
    requires { length text.old ≡ 54 }
    ensures { (result ≤ 54) × (take result text.new ≡ loop_text (places (digit set) 26)) }
{
    let count = spell_labels(set, text);
    text[count] = b')';
    text[count + 1] = b'+';
    count + 2
}
