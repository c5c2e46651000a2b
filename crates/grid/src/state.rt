// What the closure of a relation works on: its rows and their masks, the marks of its records, and the stack of the search in depth.
ghost use Rattle.grid.specs.Steps.{Stacked};

#[derive(Drop)]
pub struct Closing<'a> {
    pub cells: &'a mut [u64],
    pub masks: &'a mut [u16],
    pub n: usize,
    pub w: usize,
    pub marks: &'a mut [u64],
    pub stack: &'a mut [u16],
    ghost stacked: { Stacked n w cells.now masks.now marks.now stack.now },
}
