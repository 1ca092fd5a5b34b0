//! Each answer failing.

use crate::running::{PICKS, empty_database, host_of, image_of, read_again, run_script};
use crate::script::{PIECES, reading, replies, script};
use std::test::Fail;

#[test]
fn each_answer(rt: HostRuntime) -> Result<(), Fail> {
    let alloc = rt.alloc();
    let start = empty_database(alloc)?;
    let mut number = 0u64;
    for (before, (_, reply, _)) in PIECES.iter().enumerate() {
        if reply.is_empty() {
            continue;
        }
        number = number.saturating_add(1);
        let mut host = host_of(alloc, &start, &[], &[number])?;
        assert_eq!(rt; run_script(alloc, &script(alloc)?, &mut host)?, 4);
        assert!(rt;
            host.answered() == replies(alloc, before)?.as_slice(),
            "answer {number}"
        );
        for pick in PICKS {
            let left = image_of(alloc, &host, u64::MAX, pick)?;
            let read = read_again(alloc, &left)?;
            assert!(rt;
                read.as_slice() == reading(before.saturating_add(1)),
                "answer {number} {pick:?}"
            );
        }
    }
    Ok(())
}
