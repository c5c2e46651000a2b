// This crate has no code. Its definitions under specs/ say what the Glushkov automaton of an expression is, and what a search over records and states knows.
// Its laws say that the automaton reads exactly the words of the expression (AutomatonLaws), and that the search finds the first chain (WalkLaws).
