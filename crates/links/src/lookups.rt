// What is looked up among the words of links: those of one label, and whether one touches a record. See specs/Lookups.antt.
ghost use Rattle.std.specs.Prelude.{◌≡◌, map, ◌≤◌, length, take};
ghost use Rattle.book.specs.Book.{touched as Book·touched};
ghost use Rattle.links.specs.Parts.{link_of};
ghost use Rattle.links.specs.Lookups.{LabelPart};

use crate::sorted::lower_bound;
use crate::{LABEL_UNIT, from_of, to_of};

// The part of the words of links that have one label: of ascending words exactly those, in order; of others some part of them.
pub fn label_part<'a>(words: &'a [u32], label: u8) -> &'a [u32]
    ensures { LabelPart words.now label result.now }
{
    let first = label as u32 * LABEL_UNIT;
    let from = lower_bound(words, words.len(), first);
    let rest = &words[from..];
    let count = lower_bound(rest, rest.len(), first + LABEL_UNIT);
    &rest[..count]
}

// Whether a link of the first count words has the record at either side.
pub fn touched(words: &[u32], count: usize, record: u16) -> bool
    requires { count ≤ length words.now }
    ensures { result ≡ Book·touched «record» (map link_of (take count words.now)) }
{
    let record = record as u32;
    words[..count]
        .iter()
        .any(|word| from_of(*word) == record || to_of(*word) == record)
}
