//! Posting lists.

ghost use Rattle.std.specs.Prelude.{◌<◌, IsTrue, IfSome};

use gx_bytes::Bytes;
use gx_pages::{Bitmap, RowRef};
use gx_posting::{push_posting, read_posting};
use std::test::Fail;

fn row(number: u64, page: u64, slot: u16) -> RowRef {
    RowRef { number, page, slot }
}

fn is_above(before: Option<RowRef>, row: RowRef) -> bool
    ensures { IsTrue result → IfSome before (λ last. last.number < row.number) }
{
    match before {
        Some(last) => last.number < row.number,
        None => true,
    }
}

#[test]
fn rows_are_written_and_read_back(rt: HostRuntime) -> Result<(), Fail> {
    // Two rows, of which the second has the number 286 more; and the greatest numbers.
    let rows = [
        row(7, 2, 0),
        row(293, 2, 1),
        row(u64::MAX, 1 << 49, u16::MAX),
    ];
    let lists: [(usize, usize, &[u8]); 2] = [
        (0, 2, &[7, 2, 0, 0x9e, 2, 2, 1]),
        (
            2,
            3,
            &[
                0xff, 0xff, 0xff, 0xff, 0xff, 0xff, 0xff, 0xff, 0xff, 1, 0x80, 0x80, 0x80, 0x80,
                0x80, 0x80, 0x80, 1, 0xff, 0xff, 3,
            ],
        ),
    ];
    let mut all = Bitmap::new(rt.alloc());
    for (from, to, bytes) in lists {
        let mut written = Bytes::new(rt.alloc());
        let mut before: Option<RowRef> = None;
        for at in from..to {
            if is_above(before, rows[at]) {
                push_posting(&mut written, before, rows[at])?;
            }
            before = Some(rows[at]);
        }
        assert_eq!(rt; written.as_slice(), bytes);
        assert!(rt; read_posting(bytes, &mut all)?);
    }
    assert_eq!(rt; all.as_slice(), rows.as_slice());
    Ok(())
}

#[test]
fn bytes_that_spell_no_list_are_refused(rt: HostRuntime) -> Result<(), Fail> {
    let refused: [(&str, &[u8]); 6] = [
        ("no page", &[7]),
        ("no slot", &[7, 2]),
        ("a varint with a group too many", &[0x87, 0, 2, 0]),
        ("a slot above 65,535", &[7, 2, 0x80, 0x80, 4]),
        ("a number twice", &[7, 2, 0, 0, 2, 1]),
        ("not above the last row", &[5, 2, 0]),
    ];
    for (name, bytes) in refused {
        let mut rows = Bitmap::new(rt.alloc());
        assert!(rt; read_posting(&[5, 1, 0], &mut rows)?, "{name}");
        assert!(rt; !read_posting(bytes, &mut rows)?, "{name}");
        assert_eq!(rt; rows.as_slice(), [row(5, 1, 0)].as_slice(), "{name}");
    }
    Ok(())
}
