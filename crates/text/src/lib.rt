// What the programs that take text share: the lines of a text, the bytes and the numbers written in a line, the reading of a text and the printing of answers.
#![tactic(auto)]

pub mod hex;
pub mod lines;
pub mod number;
pub mod print;
pub mod read;
