//! Worked texts, boundary values, and each call once.

use crate::json::nested;
use gx_bytes::{Bytes, NoMemory, ValueError};
use gx_hstore::Hstore;
use std::alloc::Global;
use std::test::Fail;

/// The printed text of a copy of the map, and the bytes.
fn written(alloc: Global, hstore: &Hstore) -> Result<(Bytes, Bytes), NoMemory> {
    let mut text = Bytes::new(alloc);
    hstore.copy(alloc)?.print(&mut text)?;
    let mut bytes = Bytes::new(alloc);
    hstore.encode(&mut bytes)?;
    Ok((text, bytes))
}

/// The printed text of the map of a text, and its bytes.
fn read(alloc: Global, text: &str) -> Result<(Bytes, Bytes), ValueError> {
    let hstore = Hstore::read(alloc, text)?;
    match written(alloc, &hstore) {
        Ok(written) => Ok(written),
        Err(_) => Err(ValueError::Memory),
    }
}

/// The printed text of the map of these bytes, and its bytes.
fn decoded(alloc: Global, bytes: &[u8]) -> Result<Option<(Bytes, Bytes)>, NoMemory> {
    match Hstore::decode(alloc, bytes)? {
        Some(hstore) => Ok(Some(written(alloc, &hstore)?)),
        None => Ok(None),
    }
}

fn is_printed_so(alloc: Global, text: &str, want: &str) -> bool {
    match read(alloc, text) {
        Ok((printed, _)) => printed.as_slice() == want.as_bytes(),
        Err(_) => false,
    }
}

/// A text, and the printed text of its map.
const PRINTED: [(&'static str, &'static str); 19] = [
    ("", ""),
    ("bb=>1,a=>2, c => 3", r#""a"=>"2", "c"=>"3", "bb"=>"1""#),
    (r#""a b"=>"c,d""#, r#""a b"=>"c,d""#),
    (r#"""=>"""#, r#"""=>"""#),
    (r#"k=>NuLL, l=>"null""#, r#""k"=>NULL, "l"=>"null""#),
    (r"k=>nu\ll", r#""k"=>NULL"#),
    (r"k=>null\ ", r#""k"=>"null ""#),
    ("null=>1", r#""null"=>"1""#),
    (r"a\ b=>c\,d", r#""a b"=>"c,d""#),
    (r#""q\"r"=>"s\\t""#, r#""q\"r"=>"s\\t""#),
    (r#""\é"=>\=\>"#, r#""é"=>"=>""#),
    ("a=>1,a=>2", r#""a"=>"1""#),
    (r#""a"=>1,\a=>null,a=>3"#, r#""a"=>"1""#),
    (
        r#"guest=>"Ada L.", vip=>null, vip=>2,"#,
        r#""vip"=>NULL, "guest"=>"Ada L.""#,
    ),
    ("a=>1,", r#""a"=>"1""#),
    ("\t\r\n\x0c a => 1 , \n", r#""a"=>"1""#),
    ("é=>x,zz=>y", r#""zz"=>"y", "é"=>"x""#),
    ("\x0b=>a\x0b", "\"\x0b\"=>\"a\x0b\""),
    (
        "{=>1,|=>1,}=>1,~=>1,_=>1,@=>1",
        r#""@"=>"1", "_"=>"1", "{"=>"1", "|"=>"1", "}"=>"1", "~"=>"1""#,
    ),
];

#[test]
fn texts_and_their_printed_form(rt: HostRuntime) {
    for (text, want) in &PRINTED {
        assert!(rt; is_printed_so(rt.alloc(), text, want), "at {text}");
        assert!(rt; is_printed_so(rt.alloc(), want, want), "at {text}");
    }
}

/// Texts that are no map.
const REFUSED: [&'static str; 23] = [
    " ",
    ",",
    "a",
    "a=>",
    "=>1",
    "a=1",
    "a= >1",
    "a=>b c",
    "a=>1 b=>2",
    "a=>1,,b=>2",
    "a=>1,,",
    ",a=>1",
    "\"a=>1",
    "a=>1=>2",
    "a=>1\"b\"",
    "a\"b\"=>1",
    "\"a\"b=>1",
    "a=>1\\",
    "a=>\"1\\",
    "a=>\"1\\\"",
    "\\",
    "a>1",
    "a=>>1",
];

#[test]
fn texts_that_are_refused(rt: HostRuntime) {
    for text in &REFUSED {
        assert!(rt;
            Hstore::read(rt.alloc(), text).err() == Some(ValueError::NoValue),
            "at {text}"
        );
    }
}

/// Two maps, and whether the first contains the second.
const CONTAINED: [(&'static str, &'static str, bool); 15] = [
    ("a=>1,b=>NULL", "a=>1", true),
    ("a=>1,b=>NULL", "b=>NULL", true),
    ("a=>1,b=>NULL", "a=>NULL", false),
    ("a=>1,b=>NULL", "a=>2", false),
    ("a=>1,b=>NULL", "", true),
    ("a=>1,b=>NULL", "b=>NULL,a=>1", true),
    ("a=>1,b=>NULL", "a=>1,c=>1", false),
    (r#"a=>"NULL""#, "a=>NULL", false),
    ("a=>NULL", r#"a=>"NULL""#, false),
    ("a=>NULL", r#"a=>"""#, false),
    ("aa=>1,b=>2,c=>3", "aa=>1,c=>3", true),
    ("", "a=>1", false),
    ("", "", true),
    ("k4=>v14", "k4=>v14", true),
    ("k4=>v14", "k4=>v4", false),
];

fn contains(alloc: Global, left: &str, right: &str) -> Result<bool, ValueError> {
    let a = Hstore::read(alloc, left)?;
    let b = Hstore::read(alloc, right)?;
    Ok(a.contains(&b))
}

/// A map.
const THREE: &'static str = "aa=>1,b=>NULL,\"\"=>2";

/// Thirty-two keys.
const LETTERS: &'static str =
    "a=>1,b=>1,c=>1,d=>1,e=>1,f=>1,g=>1,h=>1,i=>1,j=>1,k=>1,l=>1,m=>1,n=>1,o=>1,p=>1,q=>1,r=>1,s=>1,\
    t=>1,u=>1,v=>1,w=>1,x=>1,y=>1,z=>1,{=>1,|=>1,}=>1,~=>1,_=>1,@=>1";

/// A map, more pairs behind it, a key, the number of keys, and whether the key is among them.
const HELD: [(&'static str, &'static str, &'static str, usize, bool); 14] = [
    (THREE, "", "aa", 3, true),
    (THREE, "", "b", 3, true),
    (THREE, "", "", 3, true),
    (THREE, "", "a", 3, false),
    (THREE, "", "bb", 3, false),
    (r#"guest=>"Ada L.", vip=>NULL"#, "", "guest", 2, true),
    (r#"guest=>"Ada L.", vip=>NULL"#, "", "vip", 2, true),
    ("guest=>Bo", "", "guest", 1, true),
    ("guest=>Bo", "", "vip", 1, false),
    ("k3=>v13", "", "k3", 1, true),
    ("k4=>v14", "", "k3", 1, false),
    (LETTERS, "", "zz", 32, false),
    (LETTERS, ",zz=>1", "zz", 33, true),
    (LETTERS, ",q1=>1", "zz", 33, false),
];

/// How many keys the map of both texts has, and whether the key is among them.
fn has(alloc: Global, text: &str, more: &str, key: &str) -> Result<(usize, bool), ValueError> {
    let Ok(whole) = format!(in alloc; "{text}{more}") else {
        return Err(ValueError::Memory);
    };
    let hstore = Hstore::read(alloc, whole.as_str())?;
    Ok((hstore.count(), hstore.has(key.as_bytes())))
}

#[test]
fn keys_and_maps_that_are_contained(rt: HostRuntime) {
    for (left, right, want) in &CONTAINED {
        assert!(rt;
            contains(rt.alloc(), left, right) == Ok(*want),
            "{left} and {right}"
        );
    }
    for (text, more, key, count, want) in &HELD {
        assert!(rt;
            has(rt.alloc(), text, more, key) == Ok((*count, *want)),
            "{key} in {text}"
        );
    }
}

/// Keys, and whether the map has all of them and some.
const KEYS: [(&'static [&'static str], bool, bool); 7] = [
    (&["aa", "b"], true, true),
    (&["aa", "c"], false, true),
    (&["c", "aa"], false, true),
    (&["c", "d"], false, false),
    (&[""], true, true),
    (&["a"], false, false),
    (&[], true, false),
];

pub fn keys_of(alloc: Global, words: &[&str]) -> Result<Vec<Bytes>, NoMemory> {
    let mut keys = Vec::new(alloc);
    for word in words {
        keys.push(Bytes::from_slice(alloc, word.as_bytes())?)?;
    }
    Ok(keys)
}

/// Whether the map of three pairs has all of the keys, and some.
fn keys_held(alloc: Global, words: &[&str]) -> Result<(bool, bool), ValueError> {
    let hstore = Hstore::read(alloc, THREE)?;
    match keys_of(alloc, words) {
        Ok(keys) => Ok((hstore.has_all(&keys), hstore.has_any(&keys))),
        Err(_) => Err(ValueError::Memory),
    }
}

#[test]
fn all_and_some_keys(rt: HostRuntime) {
    for (words, all, some) in &KEYS {
        assert!(rt;
            keys_held(rt.alloc(), words) == Ok((*all, *some)),
            "at {words:?}"
        );
    }
}

#[test]
fn pairs_in_printed_order(rt: HostRuntime) -> Result<(), Fail> {
    let hstore = Hstore::read(rt.alloc(), "bb=>1, z=>NULL, a=>2")?;
    let wants = [
        Some((b"a".as_slice(), Some(b"2".as_slice()))),
        Some((b"z".as_slice(), None)),
        Some((b"bb".as_slice(), Some(b"1".as_slice()))),
        None,
    ];
    for (at, want) in wants.iter().enumerate() {
        assert!(rt; hstore.pair(at) == *want, "at {at}");
    }
    Ok(())
}

/// A map, and its bytes.
const ENCODED: [(&'static str, &'static [u8]); 4] = [
    ("", b""),
    ("a=>NULL", b"\x01a\x00"),
    ("bb=>1,a=>\"\"", b"\x01a\x01\x00\x02bb\x01\x011"),
    ("\"\"=>é", b"\x00\x01\x02\xc3\xa9"),
];

/// Bytes of no map: broken off, no byte of a value, keys that don't rise, no UTF-8, and a longer spelling of a length.
const NO_BYTES: [&'static [u8]; 9] = [
    b"\x01",
    b"\x01a",
    b"\x01a\x02",
    b"\x01a\x01\x02b",
    b"\x01a\x00\x01a\x00",
    b"\x02aa\x00\x01b\x00",
    b"\x01\xff\x00",
    b"\x01a\x01\x01\xc3",
    b"\x81\x00a\x00",
];

/// Whether the map of a text has these bytes, and the bytes are decoded to a map that is printed alike.
fn is_encoded_so(alloc: Global, text: &str, want: &[u8]) -> Result<bool, ValueError> {
    let (printed, bytes) = read(alloc, text)?;
    match decoded(alloc, want) {
        Ok(Some((again, _))) => {
            Ok(bytes.as_slice() == want && again.as_slice() == printed.as_slice())
        }
        Ok(None) => Ok(false),
        Err(_) => Err(ValueError::Memory),
    }
}

/// A word, and a pair of the word with itself as a text and as the bytes of the map.
fn long_pair(alloc: Global) -> Result<(String, Bytes), NoMemory> {
    let word = nested(alloc, 128, "x", "", "")?;
    let text = format!(in alloc; "{word}=>{word}")?;
    let mut bytes = Bytes::from_slice(alloc, b"\x80\x01")?;
    bytes.extend_from_slice(word.as_bytes())?;
    bytes.extend_from_slice(b"\x01\x80\x01")?;
    bytes.extend_from_slice(word.as_bytes())?;
    Ok((text, bytes))
}

#[test]
fn bytes_in_a_row(rt: HostRuntime) -> Result<(), Fail> {
    for (text, want) in &ENCODED {
        assert!(rt;
            is_encoded_so(rt.alloc(), text, want) == Ok(true),
            "at {text}"
        );
    }
    let (text, bytes) = long_pair(rt.alloc())?;
    assert!(rt; is_encoded_so(rt.alloc(), text.as_str(), bytes.as_slice()) == Ok(true));
    for bytes in &NO_BYTES {
        assert!(rt; decoded(rt.alloc(), bytes)?.is_none(), "at {bytes:?}");
    }
    Ok(())
}
