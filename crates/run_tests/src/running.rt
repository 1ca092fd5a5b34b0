//! A run over a host in memory.

ghost use Rattle.std.specs.Prelude.{◌≡◌, ◌<◌};

use crate::script::READ;
use gx_disk::{Host, Image, MemoryHost, Pick};
use gx_io::{MemorySource, Source};
use gx_pages::Steps;
use gx_session::Statements;
use std::alloc::Global;
use std::marker::Brand;
use std::sync::ledger::{Blank, Ledger};
use std::test::Fail;

pub const PICKS: [Pick; 3] = [Pick::Nothing, Pick::All, Pick::Filled];

/// Runs with these words, and gives the status.
pub fn run<S: Source>(
    alloc: Global,
    words: &[&str],
    source: &mut S,
    host: &mut MemoryHost,
) -> Result<u8, Fail> {
    let mut owned = Vec::new(alloc);
    for word in words {
        owned.push(String::from_str(alloc, word)?)?;
    }
    let status = run_counted::<_, _, Brand>(alloc, owned.as_slice(), source, host, Blank::new(1));
    Ok(status)
}

fn run_counted<S: Source, H: Host, L: Ledger>(
    alloc: Global,
    words: &[String],
    source: &mut S,
    host: &mut H,
    blank: Blank,
) -> u8
    requires name { blank.name ≡ L.name }
    requires parts { blank.parts ≡ L.parts }
    requires some { 0 < blank.parts }
{
    let mut steps = Steps::<L>::new(blank);
    gx_run::run::<Statements, _, _, _>(alloc, words, source, host, &mut steps)
}

/// Runs a script on the file of a host, and gives the status.
pub fn run_script(alloc: Global, script: &[u8], host: &mut MemoryHost) -> Result<u8, Fail> {
    let mut source = MemorySource::new(alloc, script, &[])?;
    run(alloc, &["run", "db"], &mut source, host)
}

/// A host with an image's bytes; the calls and the answers with these numbers fail.
pub fn host_of(
    alloc: Global,
    image: &Image,
    failing: &[u64],
    failing_answers: &[u64],
) -> Result<MemoryHost, Fail> {
    let host = MemoryHost::new(
        alloc,
        image.pages.as_slice(),
        image.log.as_slice(),
        failing,
        failing_answers,
    )?;
    Ok(host)
}

/// What a crash after so many disk calls left; after all of them where there were fewer.
pub fn image_of(alloc: Global, host: &MemoryHost, calls: u64, pick: Pick) -> Result<Image, Fail> {
    let image = host.image(alloc, calls.min(host.calls()), pick)?;
    Ok(image)
}

/// The image of an empty database.
pub fn empty_database(alloc: Global) -> Result<Image, Fail> {
    let mut host = MemoryHost::new(alloc, &[], &[], &[], &[])?;
    let mut source = MemorySource::new(alloc, &[], &[])?;
    let status = run(alloc, &["init", "db"], &mut source, &mut host)?;
    if status != 0 || host.answered() != b"INIT\n".as_slice() {
        return Err(Fail::new("no database was made"));
    }
    image_of(alloc, &host, u64::MAX, Pick::Nothing)
}

/// What is read of both tables in an image, by a run that ends with status 0 or 1.
pub fn read_again(alloc: Global, image: &Image) -> Result<Vec<u8>, Fail> {
    let mut host = host_of(alloc, image, &[], &[])?;
    let status = run_script(alloc, READ, &mut host)?;
    if status > 1 {
        return Err(Fail::new("the file can't be read"));
    }
    let answered = Vec::from_slice(alloc, host.answered())?;
    Ok(answered)
}
