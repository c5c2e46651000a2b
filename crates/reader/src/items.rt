// The numbers of a code, and what each is: an operator, or a symbol with the letters that it stands for.
ghost use Rattle.std.specs.Prelude.{◌≡◌};
ghost use Rattle.reader.specs.Code.{letters_number, item_of};

// The numbers of a code: the operators, those on one operand first, then the symbols. `item_of` says what a number is.
pub const INVERSE: u64 = 0;

pub const STAR: u64 = 1;

pub const PLUS: u64 = 2;

pub const OPTIONAL: u64 = 3;

pub const ALTERNATIVE: u64 = 4;

pub const SEQUENCE: u64 = 5;

// A number that no code has.
pub const NO_MARK: u64 = 6;

// The first number of a symbol, which stands for no letter; and how many sets of labels there are.
const FIRST_LETTERS: u64 = 8;

const LABEL_SETS: u64 = 67108864;

// What a number of a code is: the letters that a symbol stands for, or an operator. The letters are two sets of labels, of 26 bits: bit l of the
// first is set if the letter l is one of them plain, so that links of the label l are crossed forward; bit l of the second if it is inverted, so that
// they are crossed against their sense.
#[derive(Clone, Copy)]
pub enum Item {
    Letters(u32, u32),
    Inverse,
    Star,
    Plus,
    Optional,
    Alternative,
    Sequence,
}

pub fn item_of(number: u64) -> Item
    ensures { result ≡ item_of number }
{
    if number == INVERSE {
        return Item::Inverse;
    }
    if number == STAR {
        return Item::Star;
    }
    if number == PLUS {
        return Item::Plus;
    }
    if number == OPTIONAL {
        return Item::Optional;
    }
    if number == ALTERNATIVE {
        return Item::Alternative;
    }
    if number < FIRST_LETTERS {
        return Item::Sequence;
    }
    let letters = number - FIRST_LETTERS;
    Item::Letters(
        (letters % LABEL_SETS) as u32,
        (letters / LABEL_SETS % LABEL_SETS) as u32,
    )
}

// The number of a symbol that stands for these letters.
pub fn letters_number(forward: u32, against: u32) -> u64
    ensures { result ≡ letters_number forward against }
{
    FIRST_LETTERS + forward as u64 + against as u64 * LABEL_SETS
}
