//! A script, as far as it is written.
ghost use Rattle.std.specs.Prelude.{◌≡◌, ◌≤◌, ◌<◌, ◌+◌, ◌*◌, ◌^◌, [], ◌∷◌, ◌++◌, length, IfOk, OnOk};
ghost use Rattle.psi_frames.specs.Frames.{frame_bytes};
ghost use Rattle.psi_demo.specs.Items.{demo_item, demo_label, run};
ghost use Rattle.psi_demo.specs.Scripts.{asking, drop, go_frame, packing, put, session_of_item};
ghost use Rattle.psi_demo.specs.Writing.{Writes};

use crate::items::{item, label};
use psi_frames::{ASK, Body, DROP, Frame, GO, PUT, REPACK, write_request};
use std::alloc::{AllocError, Global};

// The bytes of an item.
const ITEM_BYTES: u8 = 12;

// The sessions that put and drop items.
const SESSIONS: u32 = 4;

// The session of the Repack.
const PACKING_SESSION: u16 = 6;

/// The text of the requests so far, and how many they are.
#[derive(Drop)]
pub(crate) struct Written {
    /// Their frames, and the Go frames between them.
    pub(crate) text: Vec<u8>,
    /// The number of the next request.
    pub(crate) requests: u32,
}

impl Written {
    /// Nothing.
    pub(crate) fn new(alloc: Global) -> Written
        ensures text { result.text.items ≡ [] }
        ensures requests { result.requests ≡ 0 }
    {
        Written {
            text: Vec::new(alloc),
            requests: 0,
        }
    }

    // Appends a request.
    fn add(
        &mut self,
        alloc: Global,
        kind: u8,
        session: u16,
        body: Vec<u8>,
    ) -> Result<(), AllocError>
        requires some { 1 ≤ kind }
        requires kind { kind ≤ 4 }
        requires small { length body.items < 2 ^ 20 }
        requires few { self.old.requests < 2 ^ 20 }
        ensures { OnOk result (Writes self.old self.new
            (record { kind = kind; session = session; body = body.items } ∷ [])) }
    {
        let frame = Frame {
            kind,
            session,
            number: self.requests,
            body: Body::of(body),
        };
        let text = write_request(alloc, &frame)?;
        self.text.extend_from_slice(&text)?;
        self.requests += 1;
        Ok(())
    }

    /// Appends the frame that ends a round.
    pub(crate) fn go(&mut self, alloc: Global) -> Result<(), AllocError>
        ensures text { OnOk result (self.new.text.items ≡ self.old.text.items
            ++ frame_bytes go_frame) }
        ensures requests { OnOk result (self.new.requests ≡ self.old.requests) }
    {
        let frame = Frame {
            kind: GO,
            session: 0,
            number: 0,
            body: Body::of(Vec::new(alloc)),
        };
        let text = write_request(alloc, &frame)?;
        self.text.extend_from_slice(&text)
    }

    // Appends the Put of an item.
    fn put(&mut self, alloc: Global, number: u64, i: u32) -> Result<(), AllocError>
        requires { self.old.requests < 2 ^ 20 }
        ensures { OnOk result (Writes self.old self.new (put number i ∷ [])) }
    {
        let body = put_body(alloc, number, i)?;
        self.add(alloc, PUT, session_of_item(i), body)
    }

    // Appends the Drop of an item.
    fn drop(&mut self, alloc: Global, number: u64, i: u32) -> Result<(), AllocError>
        requires { self.old.requests < 2 ^ 20 }
        ensures { OnOk result (Writes self.old self.new (drop number i ∷ [])) }
    {
        let body = drop_body(alloc, number, i)?;
        self.add(alloc, DROP, session_of_item(i), body)
    }

    /// Appends the Puts of so many items, from the first one on.
    pub(crate) fn puts(
        &mut self,
        alloc: Global,
        number: u64,
        first: u32,
        count: u32,
    ) -> Result<(), AllocError>
        requires few { self.old.requests + count < 2 ^ 20 }
        requires numbered { first < 2 ^ 20 }
        ensures { OnOk result (Writes self.old self.new (run (put number) first 1 count)) }
    {
        for k in 0..count {
            self.put(alloc, number, first + k)?;
        }
        Ok(())
    }

    /// Appends the Drops of so many items, from the first one on, each of which is eight behind the one before.
    pub(crate) fn drops(
        &mut self,
        alloc: Global,
        number: u64,
        first: u32,
        count: u32,
    ) -> Result<(), AllocError>
        requires few { self.old.requests + count < 2 ^ 20 }
        requires numbered { first < 2 ^ 20 }
        ensures { OnOk result (Writes self.old self.new (run (drop number) first 8 count)) }
    {
        for k in 0..count {
            self.drop(alloc, number, first + 8 * k)?;
        }
        Ok(())
    }

    /// Appends an Ask with a query.
    pub(crate) fn ask(
        &mut self,
        alloc: Global,
        session: u16,
        query: Vec<u8>,
    ) -> Result<(), AllocError>
        requires few { self.old.requests < 2 ^ 20 }
        requires small { length query.items < 2 ^ 20 }
        ensures { OnOk result (Writes self.old self.new (asking session query.items ∷ [])) }
    {
        self.add(alloc, ASK, session, query)
    }

    /// Appends the Repack of row 0.
    pub(crate) fn pack(&mut self, alloc: Global) -> Result<(), AllocError>
        requires { self.old.requests < 2 ^ 20 }
        ensures { OnOk result (Writes self.old self.new (packing ∷ [])) }
    {
        let body = Vec::from_slice(alloc, &[0])?;
        self.add(alloc, REPACK, PACKING_SESSION, body)
    }
}

// The session that puts and drops item `i`.
fn session_of_item(i: u32) -> u16
    ensures { result ≡ session_of_item i }
{
    1 + (i % SESSIONS) as u16
}

// The body of the Put of an item: its length, itself, and its label.
fn put_body(alloc: Global, number: u64, i: u32) -> Result<Vec<u8>, AllocError>
    ensures { IfOk result (λ body. body.items ≡ 12 ∷ demo_item number i ++ demo_label number i) }
{
    let mut body = drop_body(alloc, number, i)?;
    body.extend_from_slice(&label(number, i))?;
    Ok(body)
}

// The body of its Drop: its length, and itself.
fn drop_body(alloc: Global, number: u64, i: u32) -> Result<Vec<u8>, AllocError>
    ensures { IfOk result (λ body. body.items ≡ 12 ∷ demo_item number i) }
{
    let mut body = Vec::from_slice(alloc, &[ITEM_BYTES])?;
    body.extend_from_slice(&item(number, i))?;
    Ok(body)
}
