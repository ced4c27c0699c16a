use crate::{RowBlock, Shelf};
use std::alloc::{AllocError, Global};
use std::test::Fail;
use std::thread;

// Two rows of four words.
fn two_rows(alloc: Global) -> Result<RowBlock, AllocError> {
    let mut block = RowBlock::open(alloc, 2, 4)?;
    block.push_row(&[1, 2, 3, 4]);
    block.push_row(&[5, 6, 7, 8]);
    Ok(block)
}

// The last word of a row that is held.
fn last_word(block: &RowBlock, k: usize) -> Option<u64> {
    if k < block.held() {
        return block.row(k).last().copied();
    }
    None
}

#[test]
fn rows_come_back(rt: HostRuntime) -> Result<(), Fail> {
    let mut block = RowBlock::open(rt.alloc(), 2, 4)?;
    assert_eq!(rt; (block.held(), block.rows(), block.width()), (0, 2, 4));
    block.push_row(&[1, 2, 3, 4]);
    block.push_row(&[5, 6, 7, 8]);
    assert_eq!(rt; block.row(1), [5, 6, 7, 8].as_slice());
    assert_eq!(rt; block.row(0), [1, 2, 3, 4].as_slice());
    block.clear();
    block.push_row(&[9, 9, 9, 9]);
    assert_eq!(rt; (block.held(), block.rows(), block.width()), (1, 2, 4));
    assert_eq!(rt; block.row(0), [9, 9, 9, 9].as_slice());
    Ok(())
}

#[test]
fn blocks_cross_threads(rt: HostRuntime) -> Result<(), Fail> {
    let block = two_rows(rt.alloc())?;
    let shared = &block;
    let seen = thread::join(
        &rt,
        move || last_word(shared, 0),
        move || last_word(shared, 1),
    );
    assert_eq!(rt; seen, (Some(4), Some(8)));
    let moved = thread::join(&rt, move || last_word(&block, 1), || 0);
    assert_eq!(rt; moved, (Some(8), 0));
    Ok(())
}

#[test]
fn a_shelf_keeps_eight(rt: HostRuntime) -> Result<(), Fail> {
    let mut shelf = Shelf::open();
    assert!(rt; shelf.take().is_none());
    for width in 1..9usize {
        let block = RowBlock::open(rt.alloc(), 1, width)?;
        assert!(rt; shelf.give(block).is_none());
    }
    let ninth = RowBlock::open(rt.alloc(), 1, 9)?;
    let back = shelf.give(ninth);
    assert_eq!(rt; back.map(|block| block.width()), Some(9));
    for width in (1..9usize).rev() {
        assert_eq!(rt; shelf.take().map(|block| block.width()), Some(width));
    }
    assert!(rt; shelf.take().is_none());
    Ok(())
}

#[test]
fn a_shelf_clears(rt: HostRuntime) -> Result<(), Fail> {
    let mut shelf = Shelf::open();
    assert!(rt; shelf.give(two_rows(rt.alloc())?).is_none());
    assert_eq!(rt; shelf.take().map(|block| block.held()), Some(0));
    Ok(())
}
