//! Benchmarks of single crates, by their names.
#![tactic(auto)]

mod chain;
mod growth;
mod keys;
mod language;
mod pages;
mod texts;

use bench_rows::rows;
use bench_storage::{commits, fetches};
use bench_trees::trees;
use std::rt::{Clock, Files};
use std::{env, io};

const HELP: &str = "\
usage: bench NAME ..
  pages   a million times: fetch a slot page from memory, read it, look at an item; beside plain copies
  chain   append 100,000 items of 40 bytes to a chain of pages in memory
  keys    a million times each: read, test, weigh and unite keys of scalars
  texts   100,000 times each: read a text of a type, and print its value
  growth  operators on two equal values that grow tenfold
  language  scripts up to 1 MiB: cut and parse, beside a plain pass; and hostile ones
  trees   10,000 to 1,000,000 rows inserted into trees of keys of classes, in memory, and 1,000 searches
and on a file that is made anew:
  fetches FILE  a million fetches of pages: from memory, the pages since a checkpoint, the cache, the file
  commits FILE  2,000 commits of one page
  rows FILE     100,000 rows added, scanned and looked up, on pages in memory and on the file
";

/// A benchmark on a file, whose path is the next word.
#[derive(Clone, Copy)]
enum OnFile {
    Fetches,
    Commits,
    Rows,
}

fn main(rt: HostRuntime) -> io::Result<()> {
    let mut words = env::args(&rt)?.skip(1).peekable();
    if words.peek().is_none() {
        rt.print(HELP)?;
    }
    let mut waiting = None;
    for word in words {
        waiting = match waiting {
            Some(work) => on_file(&rt, work, word.as_str())?,
            None => named(&rt, word.as_str())?,
        };
    }
    Ok(())
}

/// Runs the benchmark of this name, or tells which one waits for its file.
fn named<R: Clock + Print + AllocGlobal>(rt: &R, name: &str) -> io::Result<Option<OnFile>> {
    match name {
        "fetches" => return Ok(Some(OnFile::Fetches)),
        "commits" => return Ok(Some(OnFile::Commits)),
        "rows" => return Ok(Some(OnFile::Rows)),
        _ => run(rt, name)?,
    }
    Ok(None)
}

/// Runs a benchmark on the file at this path; then none waits.
fn on_file<R: Clock + Files + Print + AllocGlobal>(
    rt: &R,
    work: OnFile,
    path: &str,
) -> io::Result<Option<OnFile>> {
    match work {
        OnFile::Fetches => fetches(rt, path)?,
        OnFile::Commits => commits(rt, path)?,
        OnFile::Rows => rows(rt, path)?,
    }
    Ok(None)
}

/// Runs the benchmark of this name.
fn run<R: Clock + Print + AllocGlobal>(rt: &R, name: &str) -> io::Result<()> {
    match name {
        "pages" => pages::run(rt),
        "chain" => chain::run(rt),
        "keys" => keys::run(rt),
        "texts" => texts::run(rt),
        "growth" => growth::run(rt),
        "language" => language::run(rt),
        "trees" => trees(rt),
        _ => rt.print(HELP),
    }
}
