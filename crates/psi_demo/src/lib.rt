//! The demonstration: a script of requests made from a number, and a summary of the replies to it.
//!
//! The script puts 400 items, drops 37 of them, packs a row anew and asks three times for the same 60 items, 38 of which stand in
//! the set all the time, and 22 never. The summary counts the replies by kind, and the stable items that the three answers
//! open to. Both are this project's own.
#![tactic(auto)]

mod counting;
mod fault;
mod items;
mod laws;
mod replies;
mod scripting;
mod stable;
#[cfg(test)]
mod tests;
mod texts;
mod written;

pub use crate::counting::summary;
pub use crate::fault::{DemoFault, SumFault};
pub use crate::items::demo_params;
pub use crate::laws::{served_replies_are_counted, served_scripts_are_short};
pub use crate::scripting::script;
