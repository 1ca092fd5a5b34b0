//! The real outside: two files, and standard output.

ghost use Rattle.std.specs.Prelude.{◌≡◌, ◌≤◌, [], length, IfOk};

use crate::area::Area;
use crate::disk::{Disk, Host};
use gx_bytes::NoMemory;
use gx_io::Failed;
use std::alloc::Global;
use std::fs::{OpenFile, OpenOptions};
use std::io::{Read, Seek, SeekFrom, Write};
use std::path::Path;
use std::rt::Files;
use std::{fs, io};

/// Two files, for the pages and for the log, and standard output. It opens or makes each file at the first call that
/// needs it. It tells nothing of their content: this is the edge that is trusted.
#[derive(Drop)]
pub struct FilesHost<'r, R: Files> {
    rt: &'r R,
    pages_path: String,
    log_path: String,
    pages: Option<R::File>,
    log: Option<R::File>,
    faults: u64,
    answer_faults: u64,
}

impl<'r, R: Files + Print> FilesHost<'r, R> {
    /// The host over the file at this path, and the one at this path with `.log` behind it.
    pub fn new(rt: &'r R, alloc: Global, path: &str) -> Result<FilesHost<'r, R>, NoMemory> {
        let pages_path = String::from_str(alloc, path)?;
        let mut log_path = String::from_str(alloc, path)?;
        log_path.push_str(".log")?;
        Ok(FilesHost {
            rt,
            pages_path,
            log_path,
            pages: None,
            log: None,
            faults: 0,
            answer_faults: 0,
        })
    }
}

// Opens the file, and makes it where there is none. Then its folder is synced too, so that the file's name is on the
// disk; a file whose folder can't be synced is taken back.
fn open<R: Files>(rt: &R, path: &str) -> io::Result<R::File> {
    let made = !fs::exists(rt, path)?;
    let mut how = OpenOptions::new();
    how.read(true);
    how.write(true);
    how.create(true);
    let file = how.open(rt, path)?;
    if made && let Err(fault) = sync_folder(rt, path) {
        fs::remove_file(rt, path)?;
        return Err(fault);
    }
    Ok(file)
}

// Syncs the folder of a file.
fn sync_folder<R: Files>(rt: &R, path: &str) -> io::Result<()> {
    let folder = match Path::new(path).parent() {
        Some(folder) => folder.as_str(),
        None => "",
    };
    let folder = fs::open(rt, if folder.is_empty() { "." } else { folder })?;
    folder.sync_all()
}

fn size_of_file<R: Files>(rt: &R, path: &str, slot: &mut Option<R::File>) -> io::Result<u64> {
    let mut file = match slot.take() {
        Some(file) => file,
        None => open(rt, path)?,
    };
    let size = file.seek(SeekFrom::End(0));
    *slot = Some(file);
    size
}

fn read_file<R: Files>(
    rt: &R,
    path: &str,
    slot: &mut Option<R::File>,
    at: u64,
    into: &mut [u8],
) -> io::Result<usize>
    ensures { IfOk result (λ n. n ≤ length into.old) }
{
    let mut file = match slot.take() {
        Some(file) => file,
        None => open(rt, path)?,
    };
    let count = read_from(&mut file, at, into);
    *slot = Some(file);
    count
}

fn read_from<F: Read + Seek>(file: &mut F, at: u64, into: &mut [u8]) -> io::Result<usize>
    ensures { IfOk result (λ n. n ≤ length into.old) }
{
    file.seek(SeekFrom::Start(at))?;
    let mut count = 0;
    while count < into.len() {
        let more = file.read(&mut into[count..])?;
        if more == 0 {
            return Ok(count);
        }
        count += more;
    }
    Ok(count)
}

fn write_file<R: Files>(
    rt: &R,
    path: &str,
    slot: &mut Option<R::File>,
    at: u64,
    bytes: &[u8],
) -> io::Result<()> {
    let mut file = match slot.take() {
        Some(file) => file,
        None => open(rt, path)?,
    };
    let written = write_to(&mut file, at, bytes);
    *slot = Some(file);
    written
}

fn write_to<F: Write + Seek>(file: &mut F, at: u64, bytes: &[u8]) -> io::Result<()> {
    file.seek(SeekFrom::Start(at))?;
    file.write_all(bytes)
}

fn sync_file<R: Files>(rt: &R, path: &str, slot: &mut Option<R::File>) -> io::Result<()> {
    let file = match slot.take() {
        Some(file) => file,
        None => open(rt, path)?,
    };
    let synced = file.sync_data();
    *slot = Some(file);
    synced
}

impl<R: Files + Print> Disk for FilesHost<'_, R> {
    ghost tells = { ⊥ };

    ghost told = { λ _. record { pages = []; log = [] } };

    ghost faults = { λ h. h.faults };

    ghost now_may_leave = { λ _ _. ⊥ };

    ghost moment = { λ _. 0 };

    ghost may_have_left_since = { λ _ _ _. ⊥ };

    ghost said = { λ h. record { bytes = []; faults = h.answer_faults } };

    ghost told_may_stay = { λ _ told. absurd told };

    ghost counts_now = { λ _ _ _ _ left. absurd left };

    ghost only_now = { λ _ _ left. absurd left };

    fn size(&mut self, area: Area) -> Result<u64, Failed> {
        let size = match area {
            Area::Pages => size_of_file(self.rt, self.pages_path.as_str(), &mut self.pages),
            Area::Log => size_of_file(self.rt, self.log_path.as_str(), &mut self.log),
        };
        match size {
            Ok(size) if size < u64::MAX => Ok(size),
            _ => {
                self.faults = self.faults.saturating_add(1);
                Err(Failed)
            }
        }
    }

    fn read(&mut self, area: Area, at: u64, into: &mut [u8]) -> Result<usize, Failed> {
        let count = match area {
            Area::Pages => read_file(self.rt, self.pages_path.as_str(), &mut self.pages, at, into),
            Area::Log => read_file(self.rt, self.log_path.as_str(), &mut self.log, at, into),
        };
        match count {
            Ok(count) => Ok(count),
            Err(_) => {
                self.faults = self.faults.saturating_add(1);
                Err(Failed)
            }
        }
    }

    fn write_at(&mut self, area: Area, at: u64, bytes: &[u8]) -> Result<(), Failed> {
        let written = match area {
            Area::Pages => write_file(
                self.rt,
                self.pages_path.as_str(),
                &mut self.pages,
                at,
                bytes,
            ),
            Area::Log => write_file(self.rt, self.log_path.as_str(), &mut self.log, at, bytes),
        };
        match written {
            Ok(()) => Ok(()),
            Err(_) => {
                self.faults = self.faults.saturating_add(1);
                Err(Failed)
            }
        }
    }

    fn sync(&mut self, area: Area) -> Result<(), Failed> {
        let synced = match area {
            Area::Pages => sync_file(self.rt, self.pages_path.as_str(), &mut self.pages),
            Area::Log => sync_file(self.rt, self.log_path.as_str(), &mut self.log),
        };
        match synced {
            Ok(()) => Ok(()),
            Err(_) => {
                self.faults = self.faults.saturating_add(1);
                Err(Failed)
            }
        }
    }
}

impl<R: Files + Print> Host for FilesHost<'_, R> {
    fn answer(&mut self, bytes: &[u8]) -> Result<(), Failed> {
        match self.rt.write_all(bytes) {
            Ok(()) => Ok(()),
            Err(_) => {
                self.answer_faults = self.answer_faults.saturating_add(1);
                Err(Failed)
            }
        }
    }
}
