//! Items: strings that are put in rising order, each once.

use gx_gin::{Items, Strings};
use std::test::Fail;

fn is_at(items: &Items, at: usize, string: &[u8]) -> bool {
    match items.get(at) {
        Some(item) => item == string,
        None => false,
    }
}

#[test]
fn items_rise_and_stand_once(rt: HostRuntime) -> Result<(), Fail> {
    let alloc = rt.alloc();
    assert_eq!(rt; Items::new(alloc).len(), 0);
    let mut strings = Strings::new(alloc);
    for string in ["b", "", "ab", "b", "a", "ab", "b"] {
        strings.push(string.as_bytes())?;
    }
    assert_eq!(rt; strings.len(), 7);
    let items = Items::of(strings)?;
    assert_eq!(rt; items.len(), 4);
    assert!(rt; is_at(&items, 0, b""));
    assert!(rt; is_at(&items, 1, b"a"));
    assert!(rt; is_at(&items, 2, b"ab"));
    assert!(rt; is_at(&items, 3, b"b"));
    assert!(rt; items.get(4).is_none());
    Ok(())
}
