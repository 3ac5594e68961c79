// What every program shares with the world: input that is waited for, text of a bounded length, pages of it for output, and the program's arguments.
#![tactic(auto)]

pub mod arguments;
pub mod failure;
pub mod input;
pub mod nap;
pub mod output;
pub mod text;
pub mod wait;
