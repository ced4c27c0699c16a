//! The text of replies.
ghost use Rattle.std.specs.Prelude.{◌≡◌, length, map, IfOk};
ghost use Rattle.std.specs.List.{All};
ghost use Rattle.psi_frames.specs.Frames.{answer_fits};
ghost use Rattle.psi_frames.specs.Served.{text_of};
ghost use Rattle.psi_frames.specs.Texts.{address_of, room_of, sent_to};

use crate::reply::Reply;
use crate::request::Request;
use crate::writing::{append_answer, reply_length};
use std::alloc::{AllocError, Global};

/// The session and the number that a request and its reply have in common.
#[derive(Clone, Copy)]
pub struct Address {
    /// The session of both.
    pub session: u16,
    /// The number of both.
    pub number: u32,
}

/// The addresses of some requests, in their order. The only error is memory that runs out.
pub fn addresses_of(alloc: Global, requests: &[Request]) -> Result<Vec<Address>, AllocError>
    ensures { IfOk result (λ addresses. addresses.items ≡ map address_of requests.now) }
{
    requests.iter().map(address_of).collect(alloc)
}

// The address of a request.
fn address_of(request: &Request) -> Address
    ensures { result ≡ address_of request.now }
{
    match request {
        Request::Put {
            session,
            number,
            ..
        }
        | Request::Drop {
            session,
            number,
            ..
        }
        | Request::Ask {
            session,
            number,
            ..
        }
        | Request::Repack {
            session,
            number,
            ..
        }
        | Request::Bad {
            session,
            number,
            ..
        } => Address {
            session: *session,
            number: *number,
        },
    }
}

/// The text of replies with these addresses, one after another: as many addresses as replies, each of which fits in a frame.
/// Its room is taken once, before the first reply is written. The only error is memory that runs out.
pub fn text_of(
    alloc: Global,
    addresses: &[Address],
    replies: &[Reply],
) -> Result<Vec<u8>, AllocError>
    requires fits { All answer_fits replies.now }
    requires one_each { length replies.now ≡ length addresses.now }
    ensures { IfOk result (λ text. text.items ≡ text_of (sent_to addresses.now replies.now)) }
{
    let mut text = Vec::with_capacity(alloc, room_of(replies))?;
    for (i, reply) in replies.iter().enumerate() {
        let address = &addresses[i];
        append_answer(&mut text, address.session, address.number, reply)?;
    }
    Ok(text)
}

// The bytes of the replies' frames, as far as they can be counted.
fn room_of(replies: &[Reply]) -> usize
    requires fits { All answer_fits replies.now }
    ensures { result ≡ room_of replies.now }
{
    let mut room: usize = 0;
    for reply in replies {
        room = room.saturating_add(reply_length(reply));
    }
    room
}
