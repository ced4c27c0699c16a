//! The script of a number.
ghost use Rattle.std.specs.Prelude.{◌≡◌, ◌<◌, ◌^◌, length, IfOk, OnOk, IfErr};
ghost use Rattle.std.specs.List.{All};
ghost use Rattle.query_codec.specs.Queries.{query_length};
ghost use Rattle.psi_frames.specs.Frames.{IsFrame, frames_bytes, request_table};
ghost use Rattle.psi_demo.specs.Items.{asked_tags, demo_parameters};
ghost use Rattle.psi_demo.specs.Faults.{IsDemoFault};
ghost use Rattle.psi_demo.specs.Scripts.{IsAsked, IsScriptText, script_frames, second_round};
ghost use Rattle.psi_demo.specs.Writing.{Writes};

use crate::fault::DemoFault;
use crate::items::{asked_tags, demo_params, seed};
use crate::written::Written;
use item_slots::Tag;
use psi_receiver::{AskFault, ask_tags};
use std::alloc::{AllocError, Global};
use std::thread::Threads;

// The sessions of the three asks.
const FIRST_SESSION: u16 = 5;

const SECOND_SESSION: u16 = 7;

const LAST_SESSION: u16 = 5;

/// The script of a number: the frames of 441 requests in three rounds, each of which ends with a Go frame.
///
/// Items 0 to 299 are put. Then all is asked, items 300 to 399 are put, items 4, 12, 20, .., 292 dropped, row 0 is packed
/// anew, and all is asked again. Then it is asked a third time. `Crowded` comes exactly where the asked items have no
/// placement, with items whose positions together are fewer than they; the only other error is memory that runs out.
pub fn script<R: Threads + Sync>(rt: &R, alloc: Global, number: u64) -> Result<Vec<u8>, DemoFault>
    ensures script { IfOk result (λ text. IsScriptText number text.items) }
    ensures fault { IfErr result (IsDemoFault (asked_tags number)) }
{
    let tags = asked_tags(alloc, number)?;
    let first = query(rt, alloc, number, 0, &tags)?;
    let second = query(rt, alloc, number, 1, &tags)?;
    let third = query(rt, alloc, number, 2, &tags)?;
    Ok(write_script(alloc, number, first, second, third)?)
}

// The body of an ask for these tags. `Crowded` comes exactly where they have no placement.
pub(crate) fn query<R: Threads + Sync>(
    rt: &R,
    alloc: Global,
    number: u64,
    ask: u8,
    tags: &[Tag],
) -> Result<Vec<u8>, DemoFault>
    requires { length tags.now < 2 ^ 32 }
    ensures asked { IfOk result (λ body. IsAsked number ask tags.now body.items) }
    ensures size { IfOk result (λ body. length body.items ≡ query_length demo_parameters) }
    ensures fault { IfErr result (IsDemoFault tags.now) }
{
    match ask_tags(rt, alloc, &demo_params(), &seed(number, ask), tags) {
        Ok(body) => Ok(body),
        Err(AskFault::Crowded { items }) => Err(DemoFault::Crowded { items }),
        Err(AskFault::TooLong { .. }) => unreachable!(),
        Err(AskFault::NoMemory) => Err(DemoFault::NoMemory),
    }
}

// The text of the script with the bodies of three queries.
fn write_script(
    alloc: Global,
    number: u64,
    first: Vec<u8>,
    second: Vec<u8>,
    third: Vec<u8>,
) -> Result<Vec<u8>, AllocError>
    requires first { length first.items < 2 ^ 20 }
    requires second { length second.items < 2 ^ 20 }
    requires third { length third.items < 2 ^ 20 }
    ensures text { IfOk result (λ text.
        text.items ≡ frames_bytes (script_frames number first.items second.items third.items)) }
    ensures each { OnOk result (All (IsFrame request_table)
        (script_frames number first.items second.items third.items)) }
{
    let mut script = Written::new(alloc);
    script.puts(alloc, number, 0, 300)?;
    script.go(alloc)?;
    write_second_round(alloc, &mut script, number, first, second)?;
    script.go(alloc)?;
    script.ask(alloc, LAST_SESSION, third)?;
    script.go(alloc)?;
    Ok(script.text)
}

// Appends the second round, without what ends it.
fn write_second_round(
    alloc: Global,
    script: &mut Written,
    number: u64,
    first: Vec<u8>,
    second: Vec<u8>,
) -> Result<(), AllocError>
    requires few { script.old.requests < 1000 }
    requires first { length first.items < 2 ^ 20 }
    requires second { length second.items < 2 ^ 20 }
    ensures { OnOk result (Writes script.old script.new
        (second_round number first.items second.items)) }
{
    script.ask(alloc, FIRST_SESSION, first)?;
    script.puts(alloc, number, 300, 100)?;
    script.drops(alloc, number, 4, 37)?;
    script.pack(alloc)?;
    script.ask(alloc, SECOND_SESSION, second)
}
