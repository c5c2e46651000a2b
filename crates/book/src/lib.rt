// The numbers of the causes of a refusal, and the limits, have their names here, for the code of every crate above.
// The contracts of `numbers` and `limits` say that each is the one that specs/Causes.antt has.
ghost use Rattle.std.specs.Prelude.{◌≡◌, map, [], ◌∷◌};
ghost use Rattle.book.specs.Causes.{number, max_records, labels, max_links, max_held, max_bytes, max_letters, max_depth};
ghost use Rattle.book.specs.CauseOrders.{all_causes};

pub const BAD_SIZE: u32 = 1;

pub const NO_RECORD: u32 = 2;

pub const BAD_LABEL: u32 = 3;

pub const LOCKED_END: u32 = 4;

pub const ALREADY: u32 = 5;

pub const MISSING: u32 = 6;

pub const FULL: u32 = 7;

pub const NONE_HELD: u32 = 8;

pub const NO_EXPRESSION: u32 = 9;

pub const TOO_MANY_BYTES: u32 = 10;

pub const TOO_LARGE: u32 = 10;

pub const BAD_TREE: u32 = 11;

pub const SHORT_WORK: u32 = 12;

pub const SHORT_LIST: u32 = 13;

pub const BROKEN_FRAME: u32 = 14;

pub const UNKNOWN_KIND: u32 = 15;

pub const NOT_OPEN: u32 = 16;

pub const TOUCHED_RECORD: u32 = 17;

pub const WITHDRAWN_RECORD: u32 = 18;

pub const BAD_TIE: u32 = 19;

pub const UNORDERED_ANCHORS: u32 = 20;

pub const NONE_IN_USE: u32 = 21;

pub const MAX_RECORDS: usize = 1024;

pub const LABELS: usize = 26;

pub const MAX_LINKS: usize = 4096;

pub const MAX_HELD: usize = 256;

pub const MAX_BYTES: usize = 256;

pub const MAX_LETTERS: usize = 63;

pub const MAX_DEPTH: usize = 8;

// The numbers of all causes, in the order of their definition.
pub fn numbers() -> [u32; 22]
    ensures { result ≡ map number all_causes }
{
    [
        BAD_SIZE,
        NO_RECORD,
        BAD_LABEL,
        LOCKED_END,
        ALREADY,
        MISSING,
        FULL,
        NONE_HELD,
        NO_EXPRESSION,
        TOO_MANY_BYTES,
        TOO_LARGE,
        BAD_TREE,
        SHORT_WORK,
        SHORT_LIST,
        BROKEN_FRAME,
        UNKNOWN_KIND,
        NOT_OPEN,
        TOUCHED_RECORD,
        WITHDRAWN_RECORD,
        BAD_TIE,
        UNORDERED_ANCHORS,
        NONE_IN_USE,
    ]
}

// The limits, in the order of their definition.
pub fn limits() -> [usize; 7]
    ensures { result ≡ max_records ∷ labels ∷ max_links ∷ max_held ∷ max_bytes ∷ max_letters ∷ max_depth ∷ [] }
{
    [
        MAX_RECORDS,
        LABELS,
        MAX_LINKS,
        MAX_HELD,
        MAX_BYTES,
        MAX_LETTERS,
        MAX_DEPTH,
    ]
}
