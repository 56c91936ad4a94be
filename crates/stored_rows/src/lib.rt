// Reads the rows of stored answers for the program `replay` and compares them with results of this library.
// It reads rows byte by byte, builds up their lists, decodes their words, computes digests, counts the rows that agree, and has the functions for
// rows about what no entry point returns by itself.

#![tactic(auto)]

pub mod answers;
mod layout;
pub mod lines;
pub mod lists;
pub mod numbers;
pub mod parts;
pub mod tally;
