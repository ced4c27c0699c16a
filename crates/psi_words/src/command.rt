//! The commands of the program.
use crate::name::Name;

/// A command with the values of its words.
///
/// `drop` is the value of DROP, where the words `form2 DROP` stand before the command word; `counted` says whether the
/// word `counted` stands before it. The other fields are the values of the words behind it, in their order.
#[derive(Drop)]
pub enum Command {
    /// Reads request frames and writes reply frames, with lanes.
    Serve {
        /// The rows of bins.
        rows: u8,
        /// The members that one bin of a bundle holds at most.
        capacity: u16,
        /// The label units of a member.
        units: u8,
        /// DROP, if it is there.
        drop: Option<u8>,
        /// Whether `counted` is there.
        counted: bool,
        /// The lanes, 1 to 8.
        workers: u8,
        /// The builders of caches, 0 to 4.
        builders: u8,
    },
    /// Reads request frames and writes reply frames, on one lane.
    Replay {
        /// The rows of bins.
        rows: u8,
        /// The members that one bin of a bundle holds at most.
        capacity: u16,
        /// The label units of a member.
        units: u8,
        /// DROP, if it is there.
        drop: Option<u8>,
        /// Whether `counted` is there.
        counted: bool,
    },
    /// Tells whether parameters pass, and their figures.
    Params {
        /// The rows of bins.
        rows: u8,
        /// The members that one bin of a bundle holds at most.
        capacity: u16,
        /// The label units of a member.
        units: u8,
        /// DROP, if it is there.
        drop: Option<u8>,
        /// Whether `counted` is there.
        counted: bool,
    },
    /// Reads items and writes one request frame with their query.
    Ask {
        /// The rows of bins.
        rows: u8,
        /// The members that one bin of a bundle holds at most.
        capacity: u16,
        /// The label units of a member.
        units: u8,
        /// DROP, if it is there.
        drop: Option<u8>,
        /// Whether `counted` is there.
        counted: bool,
        /// The receiver's seed.
        seed: [u8; 32],
        /// The session of the frame.
        session: u16,
        /// The number of the frame.
        number: u32,
    },
    /// Reads items and a file with one reply frame, and writes the found items.
    Open {
        /// The rows of bins.
        rows: u8,
        /// The members that one bin of a bundle holds at most.
        capacity: u16,
        /// The label units of a member.
        units: u8,
        /// DROP, if it is there.
        drop: Option<u8>,
        /// Whether `counted` is there.
        counted: bool,
        /// The receiver's seed.
        seed: [u8; 32],
        /// The name of the file.
        file: Name,
    },
    /// Makes a script, serves it, opens its answers, and writes a summary.
    Demo {
        /// The number from which the script is made.
        number: u64,
        /// The lanes, 1 to 8.
        workers: u8,
    },
    /// Writes the words of each command.
    Help,
}
