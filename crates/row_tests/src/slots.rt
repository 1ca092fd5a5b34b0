//! One page, byte by byte.

use gx_pages::Page;
use gx_slot::{NoRoom, SlotPage};
use std::test::Fail;

#[test]
fn a_page_by_hand(rt: HostRuntime) -> Result<(), Fail> {
    let mut slots = SlotPage::new(2, 1);
    slots.set_next(258);
    assert_eq!(rt; slots.add(b"one").is_ok(), true);
    assert_eq!(rt; slots.add(b"three").is_ok(), true);
    assert_eq!(rt; slots.free(), 8160);
    assert_eq!(rt; slots.count(), 2);
    assert_eq!(rt; slots.level(), 1);
    let mut page = Page::zero();
    let bytes = page.bytes_mut();
    for (at, byte) in [
        (0, 2),
        (1, 1),
        (2, 2),
        (4, 248),
        (5, 31),
        (8, 2),
        (9, 1),
        (16, 253),
        (17, 31),
        (18, 3),
        (20, 248),
        (21, 31),
        (22, 5),
    ] {
        put(bytes, at, byte);
    }
    for (at, byte) in b"threeone".iter().enumerate() {
        put(bytes, 8184 + at, *byte);
    }
    assert_eq!(rt; slots.page().bytes() == page.bytes(), true);
    let again = SlotPage::read(&page, 7, 2);
    assert_eq!(rt; again.is_ok(), true);
    assert_eq!(rt; SlotPage::read(&page, 7, 3).is_err(), true);
    Ok(())
}

// A page by hand with the items "one" and "three".
fn page_of_two() -> Page {
    let mut page = Page::zero();
    let bytes = page.bytes_mut();
    for (at, byte) in [
        (0, 2),
        (2, 2),
        (4, 248),
        (5, 31),
        (16, 253),
        (17, 31),
        (18, 3),
        (20, 248),
        (21, 31),
        (22, 5),
    ] {
        put(bytes, at, byte);
    }
    for (at, byte) in b"threeone".iter().enumerate() {
        put(bytes, 8184 + at, *byte);
    }
    page
}

#[test]
fn broken_pages(rt: HostRuntime) -> Result<(), Fail> {
    let page = page_of_two();
    assert_eq!(rt; SlotPage::read(&page, 7, 2).is_ok(), true);
    // the kind, 2,050 slots, the start of the items, the zero field; a place and a length of an item; the first and the
    // last byte between slots and items
    for (at, byte) in [
        (0, 3),
        (3, 8),
        (4, 247),
        (6, 1),
        (7, 1),
        (16, 252),
        (18, 4),
        (20, 250),
        (24, 1),
        (8183, 1),
    ] {
        let mut page = page_of_two();
        put(page.bytes_mut(), at, byte);
        assert_eq!(rt; SlotPage::read(&page, 7, 2).is_err(), true, "byte {at}");
    }
    Ok(())
}

// The bytes free are 8,176 less 4 for each slot and the lengths of the items.
#[test]
fn slots_change(rt: HostRuntime) -> Result<(), Fail> {
    let mut slots = SlotPage::new(2, 0);
    for (slot, item) in [b"one".as_slice(), b"two", b"three"].iter().enumerate() {
        assert_eq!(rt; slots.add(item).map(usize::from), Ok(slot));
    }
    assert!(rt; slots.item(1).is_some());
    assert_eq!(rt; slots.replace(1, b"longer"), Ok(()));
    assert_eq!(rt; slots.free(), 8150);
    assert!(rt; slots.item(0).is_some());
    slots.remove(0);
    assert_eq!(rt; slots.count(), 3);
    assert_eq!(rt; slots.free(), 8153);
    assert_eq!(rt; slots.item(0).is_none(), true);
    assert_eq!(rt; slots.item(1) == Some(b"longer".as_slice()), true);
    assert_eq!(rt; slots.item(2) == Some(b"three".as_slice()), true);
    assert_eq!(rt; slots.item(3).is_none(), true);
    let entries = [0, 0, 0, 0, 250, 31, 6, 0, 245, 31, 5, 0, 0, 0];
    assert_eq!(rt; slots.page().bytes()[16..30] == entries[..], true);
    assert_eq!(rt; slots.page().bytes()[8181..] == b"threelonger"[..], true);
    Ok(())
}

#[test]
fn a_full_page(rt: HostRuntime) -> Result<(), Fail> {
    let long = [5; 8173];
    let mut slots = SlotPage::new(2, 0);
    assert_eq!(rt; slots.add(&long), Err(NoRoom { free: 8176 }));
    assert_eq!(rt; slots.add(&long[..1]), Ok(0));
    assert!(rt; slots.item(0).is_some());
    assert_eq!(rt; slots.replace(0, &long), Err(NoRoom { free: 8171 }));
    assert!(rt; slots.item(0).is_some());
    assert_eq!(rt; slots.replace(0, &long[..8172]), Ok(()));
    assert_eq!(rt; slots.free(), 0);
    assert_eq!(rt; slots.add(&[]), Err(NoRoom { free: 0 }));
    slots.set_next(9);
    let again = SlotPage::read(slots.page(), 7, 2)?;
    assert_eq!(rt; again.next(), 9);
    assert_eq!(rt; again.item(0) == Some(&long[..8172]), true);
    Ok(())
}

fn put(bytes: &mut [u8], at: usize, byte: u8) {
    if at < bytes.len() {
        bytes[at] = byte;
    }
}
