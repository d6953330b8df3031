//! Lists in pages.
use keyed_map::Pages;
use std::alloc::{AllocError, Global};
use std::process::Abort;
use std::test::Fail;

fn numbers(alloc: Global, count: u32) -> Result<Vec<u32>, AllocError> {
    let mut made = Vec::new(alloc);
    for number in 0..count {
        made.push(number)?;
    }
    Ok(made)
}

// The parts of the list one after the other, each of which has an item.
fn parts_of(alloc: Global, pages: &Pages<u32>) -> Result<Vec<u32>, AllocError> {
    let mut items = Vec::new(alloc);
    for _ in 0..pages.len() {
        let part = pages.part_from(items.len());
        items.extend_from_slice(part)?;
    }
    Ok(items)
}

// Whether the list has these items, however it is gone through.
fn has(alloc: Global, pages: &Pages<u32>, items: &[u32]) -> Result<bool, AllocError> {
    let flat = pages.to_vec()?;
    let parts = parts_of(alloc, pages)?;
    Ok(pages.len() == items.len() && flat.as_slice() == items && parts.as_slice() == items)
}

// One item after the other at one index, so that pages become two.
fn insert_all(
    rt: &impl Abort,
    pages: &mut Pages<u32>,
    items: &mut Vec<u32>,
    at: usize,
) -> Result<(), Fail> {
    for number in 1000..1300u32 {
        assert!(rt; at <= pages.len());
        assert!(rt; at <= items.len());
        pages.insert(at, number)?;
        items.insert(at, number)?;
    }
    Ok(())
}

fn remove_all(
    rt: &impl Abort,
    pages: &mut Pages<u32>,
    items: &mut Vec<u32>,
    at: usize,
) -> Result<(), Fail> {
    for _ in 0..400 {
        assert!(rt; at < pages.len());
        assert!(rt; at < items.len());
        pages.remove(at)?;
        let _gone = items.remove(at);
    }
    Ok(())
}

#[test]
fn a_list_is_edited_page_by_page(rt: HostRuntime) -> Result<(), Fail> {
    let alloc = rt.alloc();
    for at in [0usize, 3, 255, 256, 257, 600] {
        let mut items = numbers(alloc, 1000)?;
        let mut pages = Pages::from_slice(alloc, &items)?;
        let copy = pages.copy()?;
        insert_all(&rt, &mut pages, &mut items, at)?;
        assert!(rt; has(alloc, &pages, &items)?, "inserted at {at}");
        assert!(rt; at < pages.len());
        assert!(rt; at < items.len());
        pages.replace(at, 7)?;
        items[at] = 7;
        assert!(rt; has(alloc, &pages, &items)?, "replaced at {at}");
        remove_all(&rt, &mut pages, &mut items, at)?;
        assert!(rt; has(alloc, &pages, &items)?, "removed at {at}");
        let before = numbers(alloc, 1000)?;
        assert!(rt; has(alloc, &copy, &before)?, "the copy");
    }
    Ok(())
}

#[test]
fn a_list_becomes_empty_and_is_filled(rt: HostRuntime) -> Result<(), Fail> {
    let alloc = rt.alloc();
    let mut items = numbers(alloc, 400)?;
    let mut pages = Pages::from_slice(alloc, &items)?;
    remove_all(&rt, &mut pages, &mut items, 0)?;
    assert!(rt; has(alloc, &pages, &[])?, "empty");
    assert_eq!(rt; pages.part_from(0).len(), 0);
    insert_all(&rt, &mut pages, &mut items, 0)?;
    assert!(rt; has(alloc, &pages, &items)?, "filled");
    Ok(())
}
