ghost use Rattle.std.specs.Prelude.{◌≡◌, ◌<◌, ◌≤◌, [], ◌∷◌, ◌++◌, length, Some, None, IfNone, IfSome, IsTrue, IsFalse};
ghost use Rattle.row_block.specs.Rows.{cleared};
ghost use Rattle.row_block.specs.Shelves.{shelf_room, IsShelf};

use crate::block::RowBlock;
use std::marker::Model;

/// Blocks of one size that are kept for later, at most eight, as a stack.
///
/// In contracts a shelf is the list of its blocks, the one given last behind. All of them are without rows. No call takes
/// memory. The shelf does not look at the blocks' sizes.
#[derive(Drop)]
pub struct Shelf {
    places: [Option<RowBlock>; 8],
    count: usize,
}

impl Model for Shelf {
    ghost use Rattle.std.specs.Prelude.{List};
    ghost use Rattle.row_block.specs.Rows.{Block};

    ghost Value = { List Block };

    ghost use Rattle.row_block.specs.Places.{kept_in, IsStacked};

    ghost view = { kept_in };

    ghost invariant = { IsStacked };
}

impl Shelf {
    /// A shelf without blocks.
    pub fn open() -> Shelf
        ensures empty { result ≡ [] }
    {
        Shelf {
            places: [None, None, None, None, None, None, None, None],
            count: 0,
        }
    }

    /// The block that was given last, which leaves the shelf. `None` exactly where the shelf has none.
    pub fn take(&mut self) -> Option<RowBlock>
        ensures none { IfNone result ((self.old ≡ []) × (self.new ≡ [])) }
        ensures taken { IfSome result (λ block. self.old ≡ self.new ++ block ∷ []) }
        ensures cleared { IfSome result (λ block. block.held ≡ []) }
        ensures facts { IsShelf self.new }
    {
        if self.count == 0 {
            return None;
        }
        self.count -= 1;
        self.places[self.count].take()
    }

    /// Clears the block and keeps it. A block is handed back, as it was given, exactly where the shelf has eight.
    pub fn give(&mut self, block: RowBlock) -> Option<RowBlock>
        ensures kept { length self.old < shelf_room → (result ≡ None)
            × (self.new ≡ self.old ++ cleared block ∷ []) }
        ensures full { shelf_room ≤ length self.old → (result ≡ Some block)
            × (self.new ≡ self.old) }
        ensures facts { IsShelf self.new }
    {
        if self.is_full() {
            return Some(block);
        }
        let mut block = block;
        block.clear();
        self.places[self.count] = Some(block);
        self.count += 1;
        None
    }

    fn is_full(&self) -> bool
        ensures full { IsTrue result → shelf_room ≤ length self.now }
        ensures room { IsFalse result → length self.now < shelf_room }
    {
        self.count == self.places.len()
    }
}
