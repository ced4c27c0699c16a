ghost use Rattle.std.specs.Prelude.{◌≡◌, ◌*◌, ◌^◌, ◌<◌, ◌≤◌, [], length, slice_index_or, IfOk};
ghost use Rattle.row_block.specs.Rows.{IsBlock, empty_block, pushed, cleared};

use crate::words::Words;
use std::alloc::{AllocError, Global};
use std::marker::Model;

/// Rows of words of one width, in one allocation that is filled row by row.
///
/// In contracts a block is the list of the rows that it holds, the number of rows that it has room for, and the width
/// of a row in words. The rows are those pushed since `open` or the last `clear`, in that order. Every block keeps what
/// `held` tells: it has room for at least one row of at least one word, for 2^25 words at most, it holds no more rows
/// than it has room for, and each has the width.
///
/// No word is written before a row is pushed. After `open` no call takes memory. A block may be moved to another thread,
/// and many threads may read one.
#[derive(Drop)]
pub struct RowBlock {
    words: Words,
    held: usize,
    rows: usize,
    width: usize,
}

impl Model for RowBlock {
    ghost use Rattle.row_block.specs.Rows.{Block};

    ghost Value = { Block };

    ghost use Rattle.row_block.specs.Layout.{block_of, IsLaidOut};

    ghost view = { block_of };

    ghost invariant = { IsLaidOut };
}

impl RowBlock {
    /// A block that holds no row, with room for `rows` rows of `width` words.
    ///
    /// Conditions: both are at least 1, and their product is at most 2^25. `Err` is want of memory. There is one
    /// allocation, and it is not written.
    pub fn open(alloc: Global, rows: usize, width: usize) -> Result<RowBlock, AllocError>
        requires one_row { 1 ≤ rows }
        requires one_word { 1 ≤ width }
        requires small { rows * width ≤ 2 ^ 25 }
        ensures empty { IfOk result (λ block. block ≡ empty_block rows width) }
    {
        let words = Words::open(alloc, rows * width)?;
        Ok(RowBlock {
            words,
            held: 0,
            rows,
            width,
        })
    }

    /// Appends a row.
    ///
    /// Conditions: fewer than `rows` rows are held, and the row has the width.
    pub fn push_row(&mut self, row: &[u64])
        requires room { length self.old.held < self.old.rows }
        requires width { length row.now ≡ self.old.width }
        ensures pushed { self.new ≡ pushed self.old row.now }
    {
        self.words.push_row(self.held * self.width, row);
        self.held += 1;
    }

    /// The row with the number `k`, counted from 0.
    ///
    /// Condition: `k` is below the number of rows that are held.
    pub fn row(&self, k: usize) -> &[u64]
        requires held { k < length self.now.held }
        ensures row { result.now ≡ slice_index_or self.now.held k [] }
    {
        self.words.row(k * self.width, self.width)
    }

    /// How many rows are held.
    pub fn held(&self) -> usize
        ensures count { result ≡ length self.now.held }
        ensures facts { IsBlock self.now }
    {
        self.held
    }

    /// How many rows there is room for.
    pub fn rows(&self) -> usize
        ensures rows { result ≡ self.now.rows }
    {
        self.rows
    }

    /// How many words a row has.
    pub fn width(&self) -> usize
        ensures width { result ≡ self.now.width }
    {
        self.width
    }

    /// Lets all rows go. The room stays.
    pub fn clear(&mut self)
        ensures cleared { self.new ≡ cleared self.old }
    {
        self.held = 0;
    }
}
