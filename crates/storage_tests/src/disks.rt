//! Each call once, in memory and over files, and the images that a crash may leave.

use gx_disk::{Area, Disk, FilesHost, Host, MemoryHost, Pick};
use gx_io::Failed;
use std::alloc::Global;
use std::test::Fail;
use std::{env, fs};

// A write past the end, a sync, and a write over the first two bytes. Then six bytes are read from the second on.
fn change<H: Host>(host: &mut H, into: &mut [u8]) -> Result<(u64, usize), Failed> {
    let size = host.size(Area::Pages)?;
    host.write_at(Area::Pages, 5, &[9])?;
    host.sync(Area::Pages)?;
    host.write_at(Area::Pages, 0, &[7, 7])?;
    let count = host.read(Area::Pages, 1, into)?;
    Ok((size, count))
}

#[test]
fn a_host_in_memory(rt: HostRuntime) -> Result<(), Fail> {
    let alloc = rt.alloc();
    let mut host = MemoryHost::new(alloc, &[1, 2, 3], &[0], &[6], &[2])?;
    let mut into = [0u8; 6];
    assert_eq!(rt; change(&mut host, &mut into)?, (3, 5));
    assert_eq!(rt; into, [7, 3, 0, 0, 9, 0]);
    assert!(rt; host.write_at(Area::Log, 0, &[1]).is_err());
    assert_eq!(rt; host.calls(), 6);
    assert!(rt; host.answer(b"a").is_ok());
    assert!(rt; host.answer(b"b").is_err());
    assert!(rt; host.answer(b"c").is_ok());
    assert_eq!(rt; host.answered(), b"ac".as_slice());
    assert_eq!(rt; host.refused(), 0);
    let images: [(u64, Pick, &[u8], u8); 9] = [
        (1, Pick::Filled, &[1, 2, 3], 0),
        (2, Pick::Nothing, &[1, 2, 3], 0),
        (2, Pick::All, &[1, 2, 3, 0, 0, 9], 0),
        (2, Pick::Filled, &[1, 2, 3, 255, 255, 255], 0),
        (3, Pick::Nothing, &[1, 2, 3, 0, 0, 9], 0),
        (4, Pick::Nothing, &[1, 2, 3, 0, 0, 9], 0),
        (4, Pick::Filled, &[255, 255, 3, 0, 0, 9], 0),
        (5, Pick::All, &[7, 7, 3, 0, 0, 9], 0),
        (6, Pick::Filled, &[255, 255, 3, 0, 0, 9], 255),
    ];
    for (calls, pick, pages, log) in images {
        assert!(rt; leaves(alloc, &host, calls, pick, pages, log)?);
    }
    Ok(())
}

// Whether the pick after so many calls has these pages and this one byte in the log.
fn leaves(
    alloc: Global,
    host: &MemoryHost,
    calls: u64,
    pick: Pick,
    pages: &[u8],
    log: u8,
) -> Result<bool, Fail> {
    if calls > host.calls() {
        return Ok(false);
    }
    let image = host.image(alloc, calls, pick)?;
    Ok(image.pages.as_slice() == pages && image.log.as_slice() == [log].as_slice())
}

#[test]
fn a_host_over_files(rt: HostRuntime) -> Result<(), Fail> {
    let alloc = rt.alloc();
    let folder = env::temp_dir(&rt)?;
    let id = std::process::id(rt.process());
    let folder = folder.as_path();
    let name = format!(in alloc; "{}/gx_disk_test_{id}", folder.display())?;
    let path = name.as_str();
    let mut host = FilesHost::new(&rt, alloc, path)?;
    let mut into = [0u8; 6];
    assert_eq!(rt; change(&mut host, &mut into)?, (0, 5));
    assert_eq!(rt; into, [7, 0, 0, 0, 9, 0]);
    assert_eq!(rt; host.size(Area::Log)?, 0);
    host.write_at(Area::Log, 0, b"gate")?;
    host.sync(Area::Log)?;
    host.answer(b"")?;
    let log_path = format!(in alloc; "{path}.log")?;
    assert_eq!(rt;
        fs::read(&rt, path)?.as_slice(),
        [7, 7, 0, 0, 0, 9].as_slice()
    );
    assert_eq!(rt;
        fs::read(&rt, log_path.as_str())?.as_slice(),
        b"gate".as_slice()
    );
    fs::remove_file(&rt, path)?;
    fs::remove_file(&rt, log_path.as_str())?;
    Ok(())
}
