//! The command words and the texts of the program.
//!
//! The words do not include the program's own name. Each command has exactly the words of this table:
//!
//! | Words | Ranges |
//! |---|---|
//! | `serve ROWS CAPACITY UNITS WORKERS BUILDERS` | 0..255, 0..65535, 0..255, 1..8, 0..4 |
//! | `replay ROWS CAPACITY UNITS` | as above |
//! | `params ROWS CAPACITY UNITS` | as above |
//! | `ask ROWS CAPACITY UNITS SEED SESSION NUMBER` | SEED is 64 hexadecimal digits of either case; 0..65535; 0..4294967295 |
//! | `open ROWS CAPACITY UNITS SEED FILE` | FILE is any word that is not empty |
//! | `demo NUMBER WORKERS` | 0..18446744073709551615; 1..8 |
//! | `help` | |
//!
//! A number word is `0`, or decimal digits that do not begin with 0. Before `serve`, `replay`, `params`, `ask` and `open`
//! may stand the two words `form2 DROP`, with DROP from 0 to 255, and then the word `counted`; either part may be left
//! out. No word stands before `demo` or `help`. Nothing else is a command. The grammar is this project's own.
#![tactic(auto)]

mod command;
mod fault;
mod forms;
mod lead;
mod name;
mod reading;
mod texts;

pub use command::Command;
pub use fault::WordFault;
pub use name::Name;
pub use reading::read_words;
pub use texts::{help_text, status_line};

#[cfg(test)]
mod tests;
