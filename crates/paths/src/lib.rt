// This crate has no code. Its definitions under specs/ say what expressions, words, chains and relations are, and what the two questions answer.
