// A row that is not empty, of those that a search goes over.
ghost use Rattle.std.specs.Prelude.{◌<◌};
ghost use Rattle.book.specs.Causes.{max_records};

// Its squares that are not empty, as bits, and its number.
#[derive(Clone, Copy)]
pub struct Entry {
    pub squares: u16,
    pub row: u16,
    ghost inside: { row < max_records },
}
