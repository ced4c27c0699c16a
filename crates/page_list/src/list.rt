//! Lists in shared pages.
ghost use Rattle.std.specs.Prelude.{◌≡◌, ◌<◌, ◌≤◌, ◌^◌, Some, length, map, replicate, slice_get, slice_set, IfOk};
ghost use Rattle.std.specs.Arc.{arc_value};
ghost use Rattle.page_list.specs.Pages.{IsPaged, values_of};

use crate::page::Page;
use crate::shared::{repeated, with_one};
use std::alloc::{AllocError, Global};
use std::marker::Model;
use std::sync::Arc;

// The values of a page.
const PAGE: usize = 64;

/// A list of values, each behind an `Arc`, in shared pages of 64.
///
/// Contracts see the list of the values.
#[derive(Drop)]
pub struct PageList<V> {
    // pages of 64 values, the last one of at least one
    pages: Vec<Arc<Page<V>>>,
    len: usize,
}

impl<V> Model for PageList<V> {
    ghost use Rattle.std.specs.Prelude.{List, map};
    ghost use Rattle.std.specs.Arc.{arc_value};
    ghost use Rattle.page_list.specs.Pages.{IsPaged, values_of};

    ghost Value = { List V };

    ghost view = { λ l. values_of (map arc_value l.pages.items) };

    ghost invariant = { λ l. IsPaged l.len (map arc_value l.pages.items) };
}

impl<V: Drop> PageList<V> {
    /// The list that has the value `len` times. `len` is at most 2^20. All places share the one value, and all full
    /// pages are one page.
    pub fn filled(alloc: Global, len: usize, value: Arc<V>) -> Result<PageList<V>, AllocError>
        requires { len ≤ 2 ^ 20 }
        ensures { IfOk result (λ list. list ≡ replicate len (arc_value value)) }
    {
        let pages = filled_pages(alloc, len, &value)?;
        Ok(PageList { pages, len })
    }

    /// The number of its values.
    pub fn len(&self) -> usize
        ensures { result ≡ length self.now }
    {
        self.len
    }

    /// The value at place `i`, which is below the length.
    pub fn get(&self, i: usize) -> &V
        requires { i < length self.now }
        ensures { slice_get self.now i ≡ Some result.now }
    {
        let page: &Page<V> = &self.pages[i / PAGE];
        page.get(i % PAGE)
    }

    /// The list with another value at place `i`, which is below the length. This list stays as it is. One page of
    /// handles and the handles of the pages are copied, and no value.
    pub fn replace(&self, alloc: Global, i: usize, value: Arc<V>) -> Result<PageList<V>, AllocError>
        requires { i < length self.now }
        ensures { IfOk result (λ list. list ≡ slice_set self.now i (arc_value value)) }
    {
        let old: &Page<V> = &self.pages[i / PAGE];
        let page = Arc::new(alloc, old.replace(alloc, i % PAGE, value)?)?;
        let pages = with_one(alloc, &self.pages, i / PAGE, page)?;
        Ok(PageList {
            pages,
            len: self.len,
        })
    }
}

// Pages that have the value `len` times: full ones, all of them the same page, and one with the rest.
fn filled_pages<V: Drop>(
    alloc: Global,
    len: usize,
    value: &Arc<V>,
) -> Result<Vec<Arc<Page<V>>>, AllocError>
    ensures paged { IfOk result (λ pages. IsPaged len (map arc_value pages.items)) }
    ensures values { IfOk result (λ pages.
        values_of (map arc_value pages.items) ≡ replicate len (arc_value value.now)) }
{
    let full = Arc::new(alloc, Page::filled(alloc, PAGE, value)?)?;
    let mut pages = repeated(alloc, len / PAGE, &full)?;
    if len % PAGE > 0 {
        let rest = Page::filled(alloc, len % PAGE, value)?;
        pages.push(Arc::new(alloc, rest)?)?;
    }
    Ok(pages)
}
