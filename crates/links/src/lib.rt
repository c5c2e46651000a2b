// A link as one word, label, from and to, each times its unit: made, and taken apart here alone. A pair word is the word of a link of label 0. Of many words:
// sorted.rt ascending words, totals.rt how many are of each label, lookups.rt those of one label and of one record.
#![tactic(auto)]

mod lookups;
mod sorted;
mod totals;

ghost use Rattle.std.specs.Prelude.{◌≡◌, ◌<◌};
ghost use Rattle.book.specs.Causes.{max_records, labels};
ghost use Rattle.links.specs.Links.{link_word};
ghost use Rattle.links.specs.Parts.{link_of, link_pair};

pub use lookups::{label_part, touched};
pub use sorted::{cut, lower_bound, put, stands};
pub use totals::{lower_total, raise_total};

pub const FROM_UNIT: u32 = book::MAX_RECORDS as u32;

pub const LABEL_UNIT: u32 = FROM_UNIT * FROM_UNIT;

// The word of a link.
pub fn link_word(from: u16, label: u8, to: u16) -> u32
    requires { (from < max_records) × (label < labels) × (to < max_records) }
    ensures { result ≡ link_word (record { from = from; label = label; to = to }) }
{
    (label as u32 * FROM_UNIT + from as u32) * FROM_UNIT + to as u32
}

pub fn label_of(word: u32) -> u32
    ensures { result ≡ (link_of «word»).label }
{
    word / LABEL_UNIT
}

pub fn from_of(word: u32) -> u32
    ensures { result ≡ (link_of «word»).from }
{
    word / FROM_UNIT % FROM_UNIT
}

pub fn to_of(word: u32) -> u32
    ensures { result ≡ (link_of «word»).to }
{
    word % FROM_UNIT
}

// The pair word of a link's word.
pub fn pair_of(word: u32) -> u32
    ensures { result ≡ link_pair «word» }
{
    word % LABEL_UNIT
}
