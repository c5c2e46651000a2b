// This crate has no code. The worked cases K1 to K12 stand in one table (specs/Tables.antt), and one theorem says that they hold (specs/Cases.antt).
