//! Worked texts, boundary values, and each call once.

ghost use Rattle.std.specs.Prelude.{IsTrue, IfOk};
ghost use Rattle.gx_inet.specs.Value.{IsInet};

use gx_bytes::{Bytes, NoMemory, ValueError};
use gx_inet::{Inet, InetOp, inet_holds};
use std::alloc::Global;
use std::cmp::Ordering;

/// A text, and the printed text of its address.
const PRINTED: [(&'static str, &'static str); 14] = [
    ("0:0:1:0:0:0:2:0", "0:0:1::2:0"),
    ("1:0:0:2:0:0:3:4", "1::2:0:0:3:4"),
    ("::FFFF:1.2.3.4", "::ffff:102:304"),
    ("1:2:3:4:5:0:7:8", "1:2:3:4:5:0:7:8"),
    ("2001:DB8::1", "2001:db8::1"),
    ("1:2:3:4:5:6:7::", "1:2:3:4:5:6:7:0"),
    ("0001::", "1::"),
    ("::", "::"),
    ("::/0", "::/0"),
    ("::1/128", "::1"),
    ("1.2.3.4/32", "1.2.3.4"),
    ("1.2.3.4", "1.2.3.4"),
    ("192.168.1.5/24", "192.168.1.5/24"),
    ("255.255.255.255/0", "255.255.255.255/0"),
];

fn is_valid(inet: Inet) -> bool
    ensures { IsTrue result → IsInet inet }
{
    if inet.v6 {
        inet.mask <= 128
    } else {
        inet.mask <= 32 && inet.address < 0x1_0000_0000
    }
}

/// The address of a text.
fn inet_of(alloc: Global, text: &str) -> Result<Inet, ValueError>
    ensures { IfOk result (λ inet. IsInet inet) }
{
    let inet = Inet::read(alloc, text)?;
    if is_valid(inet) {
        Ok(inet)
    } else {
        Err(ValueError::TooDeep)
    }
}

/// The printed text of the address, and the bytes.
fn written(alloc: Global, inet: Inet) -> Result<(Bytes, Bytes), NoMemory>
    requires { IsInet inet }
{
    let mut text = Bytes::new(alloc);
    inet.print(&mut text)?;
    let mut bytes = Bytes::new(alloc);
    inet.encode(&mut bytes)?;
    Ok((text, bytes))
}

/// The printed text of the address of a text, and its bytes.
fn read(alloc: Global, text: &str) -> Result<(Bytes, Bytes), ValueError> {
    let inet = inet_of(alloc, text)?;
    match written(alloc, inet) {
        Ok(written) => Ok(written),
        Err(_) => Err(ValueError::Memory),
    }
}

fn is_printed_so(alloc: Global, text: &str, want: &str) -> bool {
    match read(alloc, text) {
        Ok((text, _)) => text.as_slice() == want.as_bytes(),
        Err(_) => false,
    }
}

#[test]
fn texts_and_what_is_printed(rt: HostRuntime) {
    for (text, want) in &PRINTED {
        assert!(rt; is_printed_so(rt.alloc(), text, want), "at {text}");
    }
}

/// Texts of no address.
const REFUSED: [&'static str; 23] = [
    "",
    "1.2.3",
    "1.2.3.4.5",
    "01.2.3.4",
    "256.0.0.0",
    "1.2.3.4/33",
    "1.2.3.4/",
    "1.2.3.4/08",
    "1.2.3.4/+8",
    "1.2.3.4/8/8",
    " 1.2.3.4",
    "1.2.3.4 ",
    "::/129",
    "::/256",
    "1::2::3",
    "12345::",
    "1:2:3:4:5:6:7",
    "1:2:3:4:5:6:7:8:9",
    "1:2:3:4:5:6:7:8::",
    ":",
    "g::",
    "::1.2.3",
    "::%1",
];

#[test]
fn texts_that_are_refused(rt: HostRuntime) {
    for text in &REFUSED {
        assert!(rt;
            Inet::read(rt.alloc(), text) == Err(ValueError::NoValue),
            "at {text}"
        );
    }
}

/// An address, and its bytes.
const ENCODED: [(&'static str, &'static [u8]); 2] = [
    ("1.2.3.4/24", &[4, 24, 1, 2, 3, 4]),
    (
        "102:304::f/127",
        &[6, 127, 1, 2, 3, 4, 0, 0, 0, 0, 0, 0, 0, 0, 0, 0, 0, 15],
    ),
];

/// Bytes of no address.
const NO_BYTES: [&'static [u8]; 6] = [
    &[],
    &[4, 33, 1, 2, 3, 4],
    &[4, 32, 1, 2, 3],
    &[5, 0, 1, 2, 3, 4],
    &[4, 0, 1, 2, 3, 4, 5],
    &[6, 0, 1, 2, 3, 4],
];

/// Whether the address of a text has these bytes, and they are decoded to it.
fn is_encoded_so(alloc: Global, text: &str, want: &[u8]) -> Result<bool, ValueError> {
    let (_, bytes) = read(alloc, text)?;
    let inet = Inet::read(alloc, text)?;
    Ok(bytes.as_slice() == want && Inet::decode(alloc, want) == Ok(Some(inet)))
}

#[test]
fn bytes_in_a_row(rt: HostRuntime) {
    for (text, want) in &ENCODED {
        assert!(rt;
            is_encoded_so(rt.alloc(), text, want) == Ok(true),
            "at {text}"
        );
    }
    for bytes in &NO_BYTES {
        assert!(rt; Inet::decode(rt.alloc(), bytes) == Ok(None), "at {bytes:?}");
    }
}

/// Two addresses, how the left one stands to the right one in order, and whether it is `<<`, `<<=` and `&&` it.
const STAND: [(&'static str, &'static str, Ordering, [bool; 3]); 9] = [
    (
        "10.0.0.1",
        "192.168.1.0/24",
        Ordering::Less,
        [false, false, false],
    ),
    (
        "192.168.1.0/24",
        "192.168.1.5/24",
        Ordering::Less,
        [false, true, true],
    ),
    (
        "192.168.1.5/24",
        "192.168.1.5",
        Ordering::Less,
        [false, false, true],
    ),
    (
        "192.168.1.5",
        "192.168.1.0/24",
        Ordering::Greater,
        [true, true, true],
    ),
    (
        "192.168.1.5",
        "2001:db8::1",
        Ordering::Less,
        [false, false, false],
    ),
    ("0.0.0.0/0", "::/0", Ordering::Less, [false, false, false]),
    (
        "2001:db8::1",
        "2001:db8::1",
        Ordering::Equal,
        [false, true, true],
    ),
    ("2001:db8::1", "::/0", Ordering::Greater, [true, true, true]),
    (
        "10.1.0.0/8",
        "10.0.0.0/16",
        Ordering::Less,
        [false, false, true],
    ),
];

/// How the address of a text stands to that of another, and whether it is within it, and meets it.
fn stand(alloc: Global, left: &str, right: &str) -> Result<(Ordering, [bool; 3]), ValueError> {
    let a = inet_of(alloc, left)?;
    let b = inet_of(alloc, right)?;
    let nets = [a.within(&b, true), a.within(&b, false), a.meets(&b)];
    Ok((a.compare(&b), nets))
}

fn holds(alloc: Global, op: InetOp, left: &str, right: &str) -> Result<bool, ValueError> {
    let a = inet_of(alloc, left)?;
    let b = inet_of(alloc, right)?;
    Ok(inet_holds(op, &a, &b))
}

/// Whether each operator between the addresses holds exactly where the order and the networks say.
fn agree(alloc: Global, left: &str, right: &str, order: Ordering, nets: &[bool; 3]) -> bool {
    let forth = [
        (InetOp::Equal, order == Ordering::Equal),
        (InetOp::NotEqual, order != Ordering::Equal),
        (InetOp::Less, order == Ordering::Less),
        (InetOp::LessEqual, order != Ordering::Greater),
        (InetOp::Greater, order == Ordering::Greater),
        (InetOp::GreaterEqual, order != Ordering::Less),
        (InetOp::Within, nets[0]),
        (InetOp::WithinEqual, nets[1]),
        (InetOp::Meets, nets[2]),
    ];
    for (op, want) in forth {
        if holds(alloc, op, left, right) != Ok(want) {
            return false;
        }
    }
    holds(alloc, InetOp::Holds, right, left) == Ok(nets[0])
        && holds(alloc, InetOp::HoldsEqual, right, left) == Ok(nets[1])
}

#[test]
fn order_and_networks(rt: HostRuntime) {
    for (left, right, order, nets) in &STAND {
        assert!(rt;
            stand(rt.alloc(), left, right) == Ok((*order, *nets)),
            "{left} and {right}"
        );
        assert!(rt;
            agree(rt.alloc(), left, right, *order, nets),
            "{left} and {right}"
        );
    }
}
