// The memory of a block: words side by side in one allocation, of which the first ones are written.
// All raw pointers of this crate are here, in `open`, `push_row`, `row` and the drop, which are proved by hand.
ghost use Rattle.std.specs.Prelude.{◌≡◌, ℕ, ◌+◌, ◌*◌, ◌^◌, ◌<◌, ◌≤◌, List, [], ◌++◌, length, take, drop, IfOk};
ghost use Rattle.row_block.specs.Memory.{words_owned, words_lent};

use std::alloc::{AllocError, Allocator, Global};
use std::marker::Model;
use std::slice;

const WORD_SIZE: usize = 8;

// `written` has the words that were written, from the start on. What lies behind them may hold anything.
pub(crate) struct Words {
    start: *mut u64,
    room: usize,
    alloc: Global,
    ghost written: { List ℕ },
    ghost fits: { length written ≤ room },
    ghost small: { (0 < room) × (room ≤ 2 ^ 25) },
}

impl Model for Words {
    ghost also_owns = { λ w. words_owned w.alloc w.start w.room w.written };

    ghost also_shares = { λ w _ κ. words_lent w.start w.written κ };
}

impl Words {
    // One allocation, of which nothing is written.
    pub(crate) fn open(alloc: Global, room: usize) -> Result<Words, AllocError>
        requires { (0 < room) × (room ≤ 2 ^ 25) }
        ensures { IfOk result (λ w. (w.room ≡ room) × (w.written ≡ [])) }
    {
        match alloc.allocate(room * WORD_SIZE, WORD_SIZE) {
            Ok(block) => Ok(Words {
                start: block as *mut u64,
                room,
                alloc,
            }),
            Err(error) => Err(error),
        }
    }

    // Writes the row's words from the place `from` on. The words below it stay, and those behind the row are let go.
    pub(crate) fn push_row(&mut self, from: usize, row: &[u64])
        requires { (from ≤ length self.old.written) × (from + length row.now ≤ self.old.room) }
        ensures { (self.new.room ≡ self.old.room)
            × (self.new.written ≡ take from self.old.written ++ row.now) }
    {
        let mut k = 0;
        unsafe {
            let end = self.start.add(from);
            while k < row.len() {
                *end.add(k) = row[k];
                k += 1;
            }
        }
    }

    // The `width` words from the place `from` on.
    pub(crate) fn row(&self, from: usize, width: usize) -> &[u64]
        requires { from + width ≤ length self.now.written }
        ensures { result.now ≡ take width (drop from self.now.written) }
    {
        unsafe { slice::from_raw_parts(self.start.add(from), width) }
    }
}

// Gives the allocation back to the heap.
impl Drop for Words {
    fn drop(self) {
        unsafe {
            self.alloc
                .deallocate(self.start as *mut u8, self.room * WORD_SIZE, WORD_SIZE);
        }
        let Words {
            start: _,
            room: _,
            alloc: _,
        } = self;
    }
}

unsafe impl Send for Words {}

unsafe impl Sync for Words {}
