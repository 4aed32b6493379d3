use crate::*;
use lists::Seq;
use machine_words::{Shape, Word};
use std::alloc::{AllocError, Global};
use std::test::Fail;

fn item(alloc: Global, v: i32) -> Result<Item<i32>, AllocError> {
    let mut cells = Seq::new(alloc);
    cells.push(Word::num(v, 0))?;
    Ok(Item {
        ty: 1,
        own: 0,
        cells,
    })
}

fn first_cell(item: Option<&Item<i32>>) -> Option<i32> {
    match item {
        Some(item) => match item.cells.get(0) {
            Some(word) => match word.shape {
                Shape::Num(v, _) => Some(v),
                _ => None,
            },
            None => None,
        },
        None => None,
    }
}

fn filled(alloc: Global, count: i32) -> Result<Heap<i32>, AllocError> {
    let mut heap = Heap::new(alloc);
    for v in 0..count {
        let _place = heap.add(item(alloc, v)?)?;
    }
    Ok(heap)
}

#[test]
fn items_of_several_blocks(rt: HostRuntime) -> Result<(), Fail> {
    let heap = filled(rt.alloc(), 3000)?;
    assert_eq!(rt; heap.len(), 3000);
    assert_eq!(rt; first_cell(heap.item(1023)), Some(1023));
    assert_eq!(rt; first_cell(heap.item(1024)), Some(1024));
    assert!(rt; heap.item(3000).is_none());
    Ok(())
}

#[test]
fn an_element_is_written(rt: HostRuntime) -> Result<(), Fail> {
    let mut heap = filled(rt.alloc(), 2000)?;
    if heap.len() < 2000 {
        return Ok(());
    }
    heap.set_cell(1999, 0, Word::num(-9, 0));
    assert_eq!(rt; first_cell(heap.item(1999)), Some(-9));
    Ok(())
}

#[test]
fn a_tag_is_written(rt: HostRuntime) -> Result<(), Fail> {
    let mut heap = filled(rt.alloc(), 2)?;
    if heap.len() == 2 {
        heap.set_own(1, 6);
    }
    assert!(rt; matches!(heap.item(1), Some(item) if item.own == 6));
    Ok(())
}

#[test]
fn the_first_items_are_kept(rt: HostRuntime) -> Result<(), Fail> {
    let mut heap = filled(rt.alloc(), 2500)?;
    if heap.len() >= 1500 {
        heap.shorten(1500);
    }
    assert_eq!(rt; heap.len(), 1500);
    assert_eq!(rt; first_cell(heap.item(1499)), Some(1499));
    Ok(())
}
