//! What a command comes to.
use crate::status::Status;

/// A text that a command writes, and the status that its run ends with once it is written.
#[derive(Drop)]
pub struct Outcome {
    /// The status.
    pub status: Status,
    /// The text.
    pub text: Vec<u8>,
}
