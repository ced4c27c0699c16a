//! Frames.
use crate::body::Body;

/// The kind of a frame that puts an item.
pub const PUT: u8 = 1;

/// The kind of a frame that drops an item.
pub const DROP: u8 = 2;

/// The kind of a frame that asks.
pub const ASK: u8 = 3;

/// The kind of a frame that packs a row anew.
pub const REPACK: u8 = 4;

/// The kind of a frame that ends its round.
pub const GO: u8 = 5;

/// The bytes that a frame's length word counts before the body: the kind, the session and the number.
pub const HEAD_BYTES: usize = 7;

/// The greatest length word of a frame.
pub const GREATEST_LENGTH: usize = 196608015;

/// A frame: its kind, the session and the number that its sender gave it, and its body.
#[derive(Drop)]
pub struct Frame {
    /// What it asks: 1 Put, 2 Drop, 3 Ask, 4 Repack, 5 Go.
    pub kind: u8,
    /// The session that it belongs to.
    pub session: u16,
    /// The number that its reply repeats. Numbers need not differ.
    pub number: u32,
    /// The bytes behind these.
    pub body: Body,
}
