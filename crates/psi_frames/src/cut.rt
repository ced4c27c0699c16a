//! Bytes cut into whole frames.
ghost use Rattle.std.specs.Prelude.{◌≡◌, ◌++◌, [], ◌∷◌, IfOk, OnOk};
ghost use Rattle.psi_frames.specs.Feeds.{IsCut, table_of};
ghost use Rattle.psi_frames.specs.Cuts.{IsFront, fault_met};

use crate::begun::Begun;
use crate::frame::Frame;
use crate::front::{BEFORE_BODY, Front, HeadFault, front_of};
use std::alloc::{AllocError, Global};
use std::collections::VecDeque;

/// Whole frames, and what stands behind them.
#[derive(Drop)]
pub(crate) struct Cut {
    /// The whole frames, the first one in front.
    pub(crate) frames: VecDeque<Frame>,
    /// The bytes of the frame that has begun behind them; none where a fault stands there.
    pub(crate) begun: Begun,
    /// The fault that stands there.
    pub(crate) fault: Option<HeadFault>,
}

/// The whole frames that bytes begin with, and what stands behind them.
pub(crate) fn cut_frames(alloc: Global, replies: bool, bytes: &[u8]) -> Result<Cut, AllocError>
    ensures { IfOk result (λ cut.
        IsCut (table_of replies) bytes.now cut.frames.items cut.begun (fault_met cut.fault)) }
{
    let mut frames = VecDeque::new(alloc);
    let mut rest = bytes;
    loop {
        match front(replies, rest) {
            Front::Whole { end } => {
                let (whole, behind) = rest.split_at(end);
                add_frame(&mut frames, Begun::of(alloc, whole)?.into_frame())?;
                rest = behind;
            }
            Front::Begun => {
                return Ok(Cut {
                    frames,
                    begun: Begun::of(alloc, rest)?,
                    fault: None,
                });
            }
            Front::Faulty { fault } => {
                return Ok(Cut {
                    frames,
                    begun: Begun::new(alloc),
                    fault: Some(fault),
                });
            }
        }
    }
}

// What stands at the front of bytes.
fn front(replies: bool, bytes: &[u8]) -> Front
    ensures { IsFront (table_of replies) bytes.now result }
{
    front_of(replies, &bytes[..BEFORE_BODY.min(bytes.len())], bytes.len())
}

// Appends a frame to a queue.
fn add_frame(frames: &mut VecDeque<Frame>, frame: Frame) -> Result<(), AllocError>
    ensures { OnOk result (frames.new.items ≡ frames.old.items ++ frame ∷ []) }
{
    frames.push_back(frame)?;
    Ok(())
}
