//! The text of a summary.
ghost use Rattle.std.specs.Prelude.{◌≡◌, ◌++◌, IfOk, OnOk, string_bytes};
ghost use Rattle.psi_frames.specs.Frames.{reply_kind};
ghost use Rattle.psi_demo.specs.Summaries.{count_kind, tally_of};
ghost use Rattle.psi_demo.specs.Texts.{number_line, spaced, stable_line, summary_text};

use psi_frames::{ABSENT, ADDED, ANSWER, FULL, MOVED, REFUSED, REMOVED, REPACKED, REPLACED, Reply};
use std::alloc::{AllocError, Global};
use std::fmt::Write;

/// The six lines: the number, how many replies there are, how many of them are of each of three kinds, and the numbers of
/// the line `stable`.
pub fn summary_text(
    alloc: Global,
    number: u64,
    replies: &[Reply],
    stable: &[u32],
) -> Result<String, AllocError>
    ensures { IfOk result (λ text.
        string_bytes text ≡ summary_text number (tally_of replies.now) stable.now) }
{
    let mut text = String::new(alloc);
    push_number(&mut text, "demo", number)?;
    push_number(&mut text, "replies", replies.len() as u64)?;
    push_number(&mut text, "added", count_kind(replies, ADDED))?;
    push_number(&mut text, "removed", count_kind(replies, REMOVED))?;
    push_number(&mut text, "asks", count_kind(replies, ANSWER))?;
    push_stable(&mut text, stable)?;
    Ok(text)
}

// Appends a line with a word and a number in decimal.
#[tactic(auto, unfolding(crate::specs::Texts::number_line))]
fn push_number(text: &mut String, name: &str, number: u64) -> Result<(), AllocError>
    ensures { OnOk result (string_bytes text.new ≡ string_bytes text.old
        ++ number_line name.now number) }
{
    writeln!(text, "{name} {number}")
}

// Appends the line `stable`.
#[tactic(auto, unfolding(crate::specs::Texts::stable_line))]
fn push_stable(text: &mut String, stable: &[u32]) -> Result<(), AllocError>
    ensures { OnOk result (string_bytes text.new ≡ string_bytes text.old
        ++ stable_line stable.now) }
{
    text.push_str("stable")?;
    for count in stable {
        push_spaced(text, *count)?;
    }
    text.push_str("\n")
}

// Appends a space and a number.
#[tactic(auto, unfolding(crate::specs::Texts::spaced))]
fn push_spaced(text: &mut String, count: u32) -> Result<(), AllocError>
    ensures { OnOk result (string_bytes text.new ≡ string_bytes text.old ++ spaced count) }
{
    write!(text, " {count}")
}

// How many replies have a kind.
fn count_kind(replies: &[Reply], kind: u8) -> u64
    ensures { result ≡ count_kind kind replies.now }
{
    let mut count = 0;
    for reply in replies {
        if kind_of(reply) == kind {
            count += 1;
        }
    }
    count
}

// The kind of the frame of a reply.
fn kind_of(reply: &Reply) -> u8
    ensures { result ≡ reply_kind reply.now }
{
    match reply {
        Reply::Added { .. } => ADDED,
        Reply::Replaced { .. } => REPLACED,
        Reply::Removed { .. } => REMOVED,
        Reply::Absent { .. } => ABSENT,
        Reply::Full { .. } => FULL,
        Reply::Answer { .. } => ANSWER,
        Reply::Repacked { .. } => REPACKED,
        Reply::Moved { .. } => MOVED,
        Reply::Refused { .. } => REFUSED,
    }
}
