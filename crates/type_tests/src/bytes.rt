//! Bytes, fields, days and whole numbers: values of the LEB128 and FNV specifications, and each call once.

use gx_bytes::{
    Bytes, NoMemory, ValueError, behind_byte, cut_at, field, fnv, get_u16, get_u32, get_u64,
    print_day, print_whole, push_field, push_varint, put_u16, put_u32, put_u64, read_day,
    read_whole, text_of, trimmed, varint, without_blanks,
};
use std::alloc::Global;
use std::test::Fail;

#[test]
fn texts_are_cut(rt: HostRuntime) -> Result<(), Fail> {
    assert_eq!(rt; trimmed(b" \ta b\n"), b"a b".as_slice());
    assert_eq!(rt; without_blanks(b" \ta b\n"), b"a b\n".as_slice());
    assert_eq!(rt; without_blanks(b" \t").len(), 0);
    assert_eq!(rt; behind_byte(b"{1}", b'{'), Some(b"1}".as_slice()));
    assert!(rt; behind_byte(b"", b'{').is_none());
    assert!(rt; behind_byte(b"1{", b'{').is_none());
    let (front, rest) = cut_at(b"a,b,c", b',').ok_or("a comma")?;
    assert_eq!(rt; front, b"a".as_slice());
    assert_eq!(rt; rest, b"b,c".as_slice());
    assert!(rt; cut_at(b"abc", b',').is_none());
    assert_eq!(rt; text_of(b"abc"), "abc");
    let bytes = Bytes::from_slice(rt.alloc(), b"abc")?;
    let copy = bytes.copy(rt.alloc())?;
    assert_eq!(rt; copy.as_slice(), b"abc".as_slice());
    Ok(())
}

/// Numbers, and their LEB128 spellings.
const SPELLINGS: [(u64, &'static [u8]); 6] = [
    (0, &[0]),
    (127, &[127]),
    (128, &[128, 1]),
    (624_485, &[0xe5, 0x8e, 0x26]),
    (1 << 63, &[128, 128, 128, 128, 128, 128, 128, 128, 128, 1]),
    (u64::MAX, &[255, 255, 255, 255, 255, 255, 255, 255, 255, 1]),
];

/// Bytes that spell no number.
const NO_SPELLINGS: [&'static [u8]; 6] = [
    &[],
    &[128],
    &[128, 0],
    &[255, 128, 0],
    &[255, 255, 255, 255, 255, 255, 255, 255, 255, 2],
    &[128, 128, 128, 128, 128, 128, 128, 128, 128, 128, 1],
];

/// The spelling of a number, and a byte 7 behind it.
fn spelled(alloc: Global, value: u64) -> Result<Bytes, NoMemory> {
    let mut bytes = Bytes::new(alloc);
    push_varint(&mut bytes, value)?;
    bytes.push(7)?;
    Ok(bytes)
}

/// Whether a number is spelled so, and read again.
fn is_spelled_so(alloc: Global, value: u64, want: &[u8]) -> bool {
    match spelled(alloc, value) {
        Ok(bytes) => {
            bytes.as_slice().starts_with(want)
                && bytes.len() == want.len() + 1
                && varint(bytes.as_slice()) == Some((value, want.len()))
        }
        Err(_) => false,
    }
}

/// A text as a field, and a byte 9 behind it.
fn as_field(alloc: Global, text: &[u8]) -> Result<Bytes, NoMemory> {
    let mut bytes = Bytes::new(alloc);
    push_field(&mut bytes, text)?;
    bytes.push(9)?;
    Ok(bytes)
}

#[test]
fn varints_and_fields(rt: HostRuntime) -> Result<(), Fail> {
    for (value, spelling) in &SPELLINGS {
        assert!(rt;
            is_spelled_so(rt.alloc(), *value, spelling),
            "the spelling of {value}"
        );
    }
    for bytes in &NO_SPELLINGS {
        assert!(rt; varint(bytes) == None, "at {bytes:?}");
    }
    let bytes = as_field(rt.alloc(), b"abc")?;
    assert!(rt; field(bytes.as_slice()) == Some((b"abc".as_slice(), 4)));
    assert!(rt; field(b"\x04abc").is_none());
    Ok(())
}

#[test]
fn fixed_fields_and_hashes(rt: HostRuntime) {
    let mut bytes = [0u8; 16];
    put_u16(&mut bytes, 0, 0x0201);
    put_u32(&mut bytes, 2, 0x0605_0403);
    put_u64(&mut bytes, 6, 0x0e0d_0c0b_0a09_0807);
    let want = [1, 2, 3, 4, 5, 6, 7, 8, 9, 10, 11, 12, 13, 14, 0, 0];
    assert_eq!(rt; bytes.as_slice(), want.as_slice());
    assert_eq!(rt; get_u16(&bytes, 0), Some(0x0201));
    assert_eq!(rt; get_u32(&bytes, 2), Some(0x0605_0403));
    assert_eq!(rt; get_u64(&bytes, 6), Some(0x0e0d_0c0b_0a09_0807));
    assert_eq!(rt; get_u64(&bytes, 8), Some(0x0e0d_0c0b_0a09));
    assert_eq!(rt; get_u64(&bytes, 9), None);
    assert_eq!(rt; get_u16(&bytes, usize::MAX), None);
    let hashes: [(&[u8], u32); 3] = [
        (b"", 0x811c_9dc5),
        (b"a", 0xe40c_292c),
        (b"foobar", 0xbf9c_f968),
    ];
    for (text, hash) in hashes {
        assert_eq!(rt; fnv(2_166_136_261, text), hash);
    }
}

/// A text, and its day or its fault.
const DAYS: [(&'static str, Result<i32, ValueError>); 19] = [
    ("1970-01-01", Ok(0)),
    ("1969-12-31", Ok(-1)),
    (" 2000-01-01\n", Ok(10957)),
    ("2000-02-29", Ok(11016)),
    ("0001-01-01", Ok(-719162)),
    ("9999-12-31", Ok(2932896)),
    ("0000-01-01", Err(ValueError::OutOfRange)),
    ("2023-02-29", Err(ValueError::OutOfRange)),
    ("1900-02-29", Err(ValueError::OutOfRange)),
    ("2023-02-30", Err(ValueError::OutOfRange)),
    ("2023-13-01", Err(ValueError::OutOfRange)),
    ("2023-00-10", Err(ValueError::OutOfRange)),
    ("2023-01-00", Err(ValueError::OutOfRange)),
    ("2023-02-30x", Err(ValueError::NoValue)),
    ("20230230", Err(ValueError::NoValue)),
    ("10000-01-01", Err(ValueError::NoValue)),
    ("2023-1-01", Err(ValueError::NoValue)),
    ("2023/01/01", Err(ValueError::NoValue)),
    ("", Err(ValueError::NoValue)),
];

#[test]
fn reads_days(rt: HostRuntime) {
    for (text, want) in &DAYS {
        assert!(rt; read_day(text) == *want, "at {text:?}");
    }
}

/// A text, and its number or its fault.
const WHOLES: [(&'static str, Result<i64, ValueError>); 17] = [
    ("0", Ok(0)),
    (" \t\n\x0c\r-00012 ", Ok(-12)),
    ("+7", Ok(7)),
    ("2147483647", Ok(2147483647)),
    ("-2147483648", Ok(-2147483648)),
    ("2147483648", Err(ValueError::OutOfRange)),
    ("-2147483649", Err(ValueError::OutOfRange)),
    ("99999999999999999999999999", Err(ValueError::OutOfRange)),
    ("", Err(ValueError::NoValue)),
    ("-", Err(ValueError::NoValue)),
    ("+-1", Err(ValueError::NoValue)),
    ("1 2", Err(ValueError::NoValue)),
    ("0x1F", Err(ValueError::NoValue)),
    ("1_000", Err(ValueError::NoValue)),
    ("- 1", Err(ValueError::NoValue)),
    ("\x0b1", Err(ValueError::NoValue)),
    ("99999999999999999999999999x", Err(ValueError::NoValue)),
];

#[test]
fn reads_whole_numbers(rt: HostRuntime) {
    for (text, want) in &WHOLES {
        assert!(rt;
            read_whole(text, -2147483648, 2147483647) == *want,
            "at {text:?}"
        );
    }
}

/// The whole numbers as they are printed, each with a space behind it.
fn printed(alloc: Global, numbers: &[i64]) -> Result<Bytes, NoMemory> {
    let mut to = Bytes::new(alloc);
    for number in numbers {
        print_whole(*number, &mut to)?;
        to.push(b' ')?;
    }
    Ok(to)
}

#[test]
fn prints_days_and_whole_numbers(rt: HostRuntime) -> Result<(), Fail> {
    let mut to = printed(rt.alloc(), &[0, -1, 42, i64::MAX, i64::MIN])?;
    for day in [0, -1, 11016, -719162, 2932896] {
        print_day(day, &mut to)?;
        to.push(b' ')?;
    }
    let want: &[u8] = b"0 -1 42 9223372036854775807 -9223372036854775808 \
        1970-01-01 1969-12-31 2000-02-29 0001-01-01 9999-12-31 ";
    assert!(rt; to.as_slice() == want);
    Ok(())
}
