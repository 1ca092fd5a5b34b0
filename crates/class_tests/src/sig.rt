//! Bits of signatures, and each length once.

use gx_sig::Sig;
use std::test::Fail;

#[test]
fn bits_of_hashes(rt: HostRuntime) -> Result<(), Fail> {
    // Hash, byte and value of the one bit that it sets among 32.
    let rows = [
        (0, 0, 1),
        (7, 0, 128),
        (8, 1, 1),
        (31, 3, 128),
        (32, 0, 1),
        (33, 0, 2),
        (4_294_967_295, 3, 128),
    ];
    for (hash, byte, value) in rows {
        let mut sig = Sig::<4>::empty();
        assert!(rt; !sig.has(hash));
        sig.set(hash);
        assert!(rt; sig.has(hash));
        assert_eq!(rt; sig.bytes().get(byte), Some(&value));
        assert_eq!(rt; sig.distance(&Sig::empty()), 1);
    }
    Ok(())
}

#[test]
fn sets_of_two(rt: HostRuntime) -> Result<(), Fail> {
    let a = Sig::<4>::from(&[1, 0, 0, 0x80]).ok_or("four bytes")?;
    let b = Sig::<4>::from(&[3, 0, 0, 0]).ok_or("four bytes")?;
    let both = a.union(&b);
    assert_eq!(rt; both.bytes(), [3, 0, 0, 0x80].as_slice());
    assert!(rt; both.contains(&a));
    assert!(rt; !a.contains(&both));
    assert_eq!(rt; a.distance(&b), 2);
    assert!(rt; Sig::<8>::from(&[1, 2, 3]).is_none());
    Ok(())
}

#[test]
fn each_length(rt: HostRuntime) {
    let mut long = Sig::<252>::empty();
    long.set(2015);
    assert!(rt; long.has(4031));
    assert_eq!(rt; Sig::<128>::empty().bytes().len(), 128);
    assert_eq!(rt; Sig::<64>::empty().bytes().len(), 64);
    assert_eq!(rt; Sig::<32>::empty().bytes().len(), 32);
    assert_eq!(rt; Sig::<28>::empty().bytes().len(), 28);
    assert_eq!(rt; Sig::<16>::empty().bytes().len(), 16);
}
