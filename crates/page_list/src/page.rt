//! One page of a list.
ghost use Rattle.std.specs.Prelude.{◌≡◌, ◌<◌, Some, length, replicate, slice_get, slice_set, IfOk};
ghost use Rattle.std.specs.Arc.{arc_value};

use crate::shared::{repeated, with_one};
use std::alloc::{AllocError, Global};
use std::marker::Model;
use std::sync::Arc;

// Values, each behind a handle.
#[derive(Drop)]
pub struct Page<V> {
    handles: Vec<Arc<V>>,
}

impl<V> Model for Page<V> {
    ghost use Rattle.std.specs.Prelude.{List, map};
    ghost use Rattle.std.specs.Arc.{arc_value};

    ghost Value = { List V };

    ghost view = { λ p. map arc_value p.handles.items };
}

impl<V: Drop> Page<V> {
    // So many handles of one value.
    pub fn filled(alloc: Global, count: usize, value: &Arc<V>) -> Result<Page<V>, AllocError>
        ensures { IfOk result (λ page. page ≡ replicate count (arc_value value.now)) }
    {
        let handles = repeated(alloc, count, value)?;
        Ok(Page { handles })
    }

    // The value at a place.
    pub fn get(&self, i: usize) -> &V
        requires { i < length self.now }
        ensures { slice_get self.now i ≡ Some result.now }
    {
        &self.handles[i]
    }

    // The page with another value at a place. This page stays as it is.
    pub fn replace(&self, alloc: Global, i: usize, value: Arc<V>) -> Result<Page<V>, AllocError>
        requires { i < length self.now }
        ensures { IfOk result (λ page. page ≡ slice_set self.now i (arc_value value)) }
    {
        let handles = with_one(alloc, &self.handles, i, value)?;
        Ok(Page { handles })
    }
}
