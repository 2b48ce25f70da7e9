//! A block and the heap that lends it.

use super::Block;
use linked_list_allocator::LocalHeap;
use std::test::Fail;

// A new block is zero and leaves no room for another; what is written into it stands there.
fn is_lent(heap: &LocalHeap) -> Result<bool, Fail> {
    let mut block = Block::new(heap, 600)?;
    let is_new = heap.used() == 608 && block.as_slice() == [0; 600].as_slice();
    let is_alone = Block::new(heap, 600).is_err();
    block.write(597, b"end");
    Ok(is_new && is_alone && &block.as_slice()[596..] == b"\0end".as_slice())
}

#[test]
fn a_block_goes_back_to_its_heap(rt: HostRuntime) -> Result<(), Fail> {
    let heap = LocalHeap::new(rt.alloc(), 1024)?;
    for _ in 0..3 {
        assert_eq!(rt; heap.used(), 0);
        assert!(rt; is_lent(&heap)?);
    }
    assert_eq!(rt; heap.used(), 0);
    Ok(())
}
