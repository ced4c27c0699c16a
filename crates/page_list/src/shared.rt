//! Handles of values that several lists share.
ghost use Rattle.std.specs.Prelude.{◌≡◌, ◌<◌, length, map, replicate, slice_set, IfOk};
ghost use Rattle.std.specs.Arc.{arc_value};

use std::alloc::{AllocError, Global};
use std::sync::Arc;

// So many handles of one value.
pub(crate) fn repeated<T: Drop>(
    alloc: Global,
    count: usize,
    value: &Arc<T>,
) -> Result<Vec<Arc<T>>, AllocError>
    ensures { IfOk result (λ made. map arc_value made.items ≡ replicate count
        (arc_value value.now)) }
{
    let mut made = Vec::with_capacity(alloc, count)?;
    for _made in 0..count {
        made.push(value.clone()?)?;
    }
    Ok(made)
}

// Handles of the same values, with another one at place `i`.
pub(crate) fn with_one<T: Drop>(
    alloc: Global,
    handles: &[Arc<T>],
    i: usize,
    value: Arc<T>,
) -> Result<Vec<Arc<T>>, AllocError>
    requires { i < length handles.now }
    ensures { IfOk result (λ copy. map arc_value copy.items ≡ slice_set (map arc_value handles.now)
        i (arc_value value)) }
{
    let mut copy = copied(alloc, handles)?;
    copy[i] = value;
    Ok(copy)
}

// Handles of the same values.
fn copied<T: Drop>(alloc: Global, handles: &[Arc<T>]) -> Result<Vec<Arc<T>>, AllocError>
    ensures { IfOk result (λ copy. map arc_value copy.items ≡ map arc_value handles.now) }
{
    let mut copy = Vec::with_capacity(alloc, handles.len())?;
    for handle in handles {
        copy.push(handle.clone()?)?;
    }
    Ok(copy)
}
