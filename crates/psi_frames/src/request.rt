//! Requests: what a frame of the request table asks.
ghost use Rattle.std.specs.Prelude.{◌≡◌, ◌<◌, ◌≤◌, IfOk, IfSome, IsNone, Some, length, IsTrue};
ghost use Rattle.psi_bundle.specs.Versions.{HasLabelLength};
ghost use Rattle.item_slots.specs.Tags.{tag_of};
ghost use Rattle.noise_ledger.specs.Verdicts.{ArePassed, parameters_of};
ghost use Rattle.psi_frames.specs.Frames.{put_kind, repack_kind};
ghost use Rattle.psi_frames.specs.Requests.{ask_request, code_of_fault, drop_code, drop_request, has_item, item_of, put_label, put_code, put_request, repack_code, repack_request, request_of};

use crate::frame::{ASK, DROP, Frame, PUT};
use item_slots::{Tag, tag_of};
use noise_ledger::Params;
use psi_bundle::Label;
use query_codec::{Ciphertexts, CodecFault, read_query};
use std::alloc::{AllocError, Global};

// The codes of refusals that a request's bytes decide.
const WRONG_LENGTH: u8 = 1;

const WRONG_RESIDUE: u8 = 2;

const WRONG_PARAMETERS: u8 = 3;

const WRONG_LABEL: u8 = 4;

const WRONG_ROW: u8 = 5;

/// A request of a session, with the number that its reply repeats.
#[derive(Drop)]
pub enum Request {
    /// Put the item with this tag, and with this label.
    Put {
        session: u16,
        number: u32,
        tag: Tag,
        label: Label,
    },
    /// Take the item with this tag out.
    Drop {
        session: u16,
        number: u32,
        tag: Tag,
    },
    /// Answer a query: one ciphertext for each row and power.
    Ask {
        session: u16,
        number: u32,
        query: Ciphertexts,
    },
    /// Pack a row anew.
    Repack {
        session: u16,
        number: u32,
        row: u8,
    },
    /// A request that is refused, with the code of its refusal.
    Bad {
        session: u16,
        number: u32,
        code: u8,
    },
}

/// The request of a frame of kind 1 to 4, under parameters that pass the check.
///
/// It is `Bad` exactly where the frame's body decides a code: 1 where its length is wrong, 3 where a query is of other
/// parameters, 2 where a residue of a query is not below its modulus, 4 where a label has another length than the set's,
/// and 5 where a row is none; the first of these in this order. It fails only for want of memory.
#[tactic(auto, unfolding(crate::specs::Requests::request_of))]
pub fn read_request(alloc: Global, params: &Params, frame: &Frame) -> Result<Request, AllocError>
    requires passed { ArePassed (parameters_of params.now) }
    requires first { put_kind ≤ frame.now.kind }
    requires last { frame.now.kind ≤ repack_kind }
    ensures request { IfOk result (λ request.
        request ≡ request_of (parameters_of params.now) frame.now) }
{
    if frame.kind == PUT {
        Ok(put_request(params, frame))
    } else if frame.kind == DROP {
        Ok(drop_request(frame))
    } else if frame.kind == ASK {
        ask_request(alloc, params, frame)
    } else {
        Ok(repack_request(params, frame))
    }
}

// What a Put asks.
fn put_request(params: &Params, frame: &Frame) -> Request
    requires few_units { (parameters_of params.now).units < 5 }
    ensures { result ≡ put_request (parameters_of params.now) frame.now }
{
    let session = frame.session;
    let number = frame.number;
    let body = frame.body.items();
    match put_code(params, body) {
        Some(code) => Request::Bad {
            session,
            number,
            code,
        },
        None => Request::Put {
            session,
            number,
            tag: tag_of(item(body)),
            label: short_label(label(body)),
        },
    }
}

// What a Drop asks.
fn drop_request(frame: &Frame) -> Request
    ensures { result ≡ drop_request frame.now }
{
    let session = frame.session;
    let number = frame.number;
    let body = frame.body.items();
    match drop_code(body) {
        Some(code) => Request::Bad {
            session,
            number,
            code,
        },
        None => Request::Drop {
            session,
            number,
            tag: tag_of(item(body)),
        },
    }
}

// What an Ask asks.
fn ask_request(alloc: Global, params: &Params, frame: &Frame) -> Result<Request, AllocError>
    requires passed { ArePassed (parameters_of params.now) }
    ensures { IfOk result (λ request. request ≡ ask_request (parameters_of params.now) frame.now) }
{
    let session = frame.session;
    let number = frame.number;
    match read_query(alloc, params, frame.body.items()) {
        Ok(query) => Ok(Request::Ask {
            session,
            number,
            query: Ciphertexts::of(query),
        }),
        Err(fault) => match code_of_fault(fault) {
            Some(code) => Ok(Request::Bad {
                session,
                number,
                code,
            }),
            None => Err(AllocError),
        },
    }
}

// What a Repack asks.
fn repack_request(params: &Params, frame: &Frame) -> Request
    ensures { result ≡ repack_request (parameters_of params.now) frame.now }
{
    let session = frame.session;
    let number = frame.number;
    let body = frame.body.items();
    match repack_code(params, body) {
        Some(code) => Request::Bad {
            session,
            number,
            code,
        },
        None => Request::Repack {
            session,
            number,
            row: body[0],
        },
    }
}

// The code of a Put, by its body, if it has one.
fn put_code(params: &Params, body: &[u8]) -> Option<u8>
    ensures code { result ≡ put_code (parameters_of params.now) body.now }
    ensures item { IsNone result → IsTrue (has_item body.now) }
    ensures label { IsNone result → HasLabelLength (parameters_of params.now) (put_label body.now) }
{
    if !has_item(body) {
        Some(WRONG_LENGTH)
    } else if label(body).len() == 10 * usize::from(params.units) {
        None
    } else {
        Some(WRONG_LABEL)
    }
}

// The code of a Drop, by its body, if it has one.
fn drop_code(body: &[u8]) -> Option<u8>
    ensures code { result ≡ drop_code body.now }
    ensures item { IsNone result → IsTrue (has_item body.now) }
{
    if has_item(body) && label(body).is_empty() {
        None
    } else {
        Some(WRONG_LENGTH)
    }
}

// The code of a query's fault; none where memory ran out.
fn code_of_fault(fault: CodecFault) -> Option<u8>
    ensures { result ≡ code_of_fault (Some fault) }
{
    match fault {
        CodecFault::Length { .. } => Some(WRONG_LENGTH),
        CodecFault::WrongParams => Some(WRONG_PARAMETERS),
        CodecFault::Residue { .. } => Some(WRONG_RESIDUE),
        CodecFault::NoMemory => None,
    }
}

// The code of a Repack, by its body, if it has one.
fn repack_code(params: &Params, body: &[u8]) -> Option<u8>
    ensures code { result ≡ repack_code (parameters_of params.now) body.now }
    ensures row { IsNone result → length body.now ≡ 1 }
{
    if body.len() != 1 {
        Some(WRONG_LENGTH)
    } else if body[0] < params.rows {
        None
    } else {
        Some(WRONG_ROW)
    }
}

// Whether a body begins with an item: a byte m, then m bytes.
fn has_item(body: &[u8]) -> bool
    ensures { result ≡ has_item body.now }
{
    !body.is_empty() && 1 + usize::from(body[0]) <= body.len()
}

// The item of a Put or a Drop, from its body.
fn item(body: &[u8]) -> &[u8]
    requires { IsTrue (has_item body.now) }
    ensures { result.now ≡ item_of body.now }
{
    &body[1..][..usize::from(body[0])]
}

// The label of a Put, from its body.
fn label(body: &[u8]) -> &[u8]
    requires { IsTrue (has_item body.now) }
    ensures { result.now ≡ put_label body.now }
{
    &body[1 + usize::from(body[0])..]
}

// The label with these bytes, which are 40 at most.
fn short_label(bytes: &[u8]) -> Label
    requires { length bytes.now < 41 }
    ensures { result ≡ bytes.now }
{
    match Label::of(bytes) {
        Some(label) => label,
        None => unreachable!(),
    }
}

#[cfg(test)]
mod tests {
    use super::*;
    use crate::body::Body;
    use noise_ledger::check;
    use std::test::Fail;

    // The parameters, where they pass the check.
    fn passed(units: u8) -> Option<Params>
        ensures { IfSome result (λ p. ArePassed (parameters_of p)) }
    {
        let params = Params::of(1, 1, units);
        match check(&params) {
            Ok(_) => Some(params),
            Err(_) => None,
        }
    }

    // The code of a request with this kind and body, or 0 where it has none.
    fn code(alloc: Global, params: &Params, kind: u8, body: &[u8]) -> Result<u8, AllocError>
        requires passed { ArePassed (parameters_of params.now) }
        requires first { put_kind ≤ kind }
        requires last { kind ≤ repack_kind }
    {
        let frame = Frame {
            kind,
            session: 1,
            number: 1,
            body: Body::of(Vec::from_slice(alloc, body)?),
        };
        match read_request(alloc, params, &frame)? {
            Request::Bad { code, .. } => Ok(code),
            _ => Ok(0),
        }
    }

    #[test]
    fn requests_have_their_codes(rt: HostRuntime) -> Result<(), Fail> {
        let params = passed(0).expect(&rt, "passed parameters");
        // The kind and the body of a request, and its code.
        let rows: [(u8, &[u8], u8); 13] = [
            (1, b"\x03abc", 0),
            (1, b"\x00", 0),
            (1, b"", 1),
            (1, b"\x03ab", 1),
            (1, b"\x03abclabel", 4),
            (2, b"\x03abc", 0),
            (2, b"", 1),
            (2, b"\x03ab", 1),
            (2, b"\x03abcd", 1),
            (3, b"\x01\x01\x00\x01\x00\x00\x00\x00", 1),
            (4, b"\x00", 0),
            (4, b"\x01", 5),
            (4, b"\x00\x00", 1),
        ];
        for (kind, body, want) in rows {
            let found = code(rt.alloc(), &params, kind, body)?;
            assert_eq!(rt; found, want, "{kind}");
        }
        Ok(())
    }
}
