//! The program: a database for PostgreSQL's GiST and GIN indexes.
#![tactic(auto)]

ghost use Rattle.std.specs.Prelude.{◌≡◌, ◌≢◌, ◌⊎◌, ◌<◌, ◌≤◌, map, None, IsSome};
ghost use Rattle.std.specs.String.{string_bytes};
ghost use Rattle.gx_run.specs.Words.{command_of};

use gx_disk::{FilesHost, Host};
use gx_io::{Source, StdSource};
use gx_pages::Steps;
use gx_session::Statements;
use std::alloc::Global;
use std::marker::Brand;
use std::process::ExitCode;
use std::rt::{Env, Files};
use std::sync::ledger::{Blank, Ledger};
use std::{env, io};

const HELP: &str = "\
usage: pgix init FILE                make an empty database in FILE and FILE.log
       pgix init FILE --overwrite    make it over whatever is there
       pgix run FILE                 run the script on standard input on the database in FILE
       pgix try                      run it on an empty database in memory
       pgix --help                   show this text
       pgix --version                show the version

status 0  every statement was accepted, or the database was made
       1  a statement was refused: its line is ERROR and the number of its fault
       2  the words are none of these
       3  the disk failed
       4  standard input or standard output failed
       5  out of memory
       6  FILE holds no database or a broken one, or init found bytes in it: the FATAL line says where
       7  the script is longer than 1073741824 bytes

docs/sql.md has the statements, the types, and what the number of each fault means.
";

const VERSION: &str = "pgix 0.1\n";

fn main(rt: HostRuntime) -> ExitCode {
    let status = match words_of(&rt) {
        Ok(words) => answered(&rt, words.as_slice()),
        Err(_) => 5,
    };
    if let Some(line) = meaning(status) {
        let _ = rt.eprintln(line);
    }
    ExitCode::from(status)
}

/// Prints the text that the words ask for, or runs what they say; and gives the status.
fn answered<R: Input + Files + Print + AllocGlobal>(rt: &R, words: &[String]) -> u8 {
    match told(words) {
        Some(text) => match rt.print(text) {
            Ok(()) => 0,
            Err(_) => 4,
        },
        None => status_of(rt, words),
    }
}

/// What a status means, where standard output doesn't say it.
fn meaning(status: u8) -> Option<&'static str> {
    match status {
        2 => Some("pgix: unknown words; see pgix --help"),
        3 => Some("pgix: the disk failed"),
        4 => Some("pgix: standard input or standard output failed"),
        5 => Some("pgix: out of memory"),
        7 => Some("pgix: the script is longer than 1073741824 bytes"),
        _ => None,
    }
}

/// The text that the words ask for, where they ask for one.
fn told(words: &[String]) -> Option<&'static str> {
    match words {
        [word] if word.as_str() == "--help" => Some(HELP),
        [word] if word.as_str() == "--version" => Some(VERSION),
        _ => None,
    }
}

/// The words after the program's name.
fn words_of<R: Env + AllocGlobal>(rt: &R) -> io::Result<Vec<String>> {
    let mut words = Vec::new(rt.alloc());
    for word in env::args(rt)?.skip(1) {
        words.push(word)?;
    }
    Ok(words)
}

/// The status of the run over standard input and output, and over the files at the second word.
fn status_of<R: Input + Files + Print + AllocGlobal>(rt: &R, words: &[String]) -> u8
    ensures known { IsSome (command_of (map string_bytes words.now)) → result ≢ 2 }
    ensures others { command_of (map string_bytes words.now) ≡ None → (result ≡ 2) ⊎ (result ≡ 5) }
{
    let mut source = StdSource::new(rt);
    let Ok(mut host) = FilesHost::new(rt, rt.alloc(), path_of(words)) else {
        return 5;
    };
    run_counted::<_, _, Brand>(rt.alloc(), words, &mut source, &mut host, Blank::new(1))
}

/// The second word, or the empty text.
fn path_of(words: &[String]) -> &str {
    match words {
        [_, path, ..] => path.as_str(),
        _ => "",
    }
}

/// Runs with a counter of its own.
fn run_counted<S: Source, H: Host, L: Ledger>(
    alloc: Global,
    words: &[String],
    source: &mut S,
    host: &mut H,
    blank: Blank,
) -> u8
    requires name { blank.name ≡ L.name }
    requires parts { blank.parts ≡ L.parts }
    requires some { 0 < blank.parts }
    ensures known { IsSome (command_of (map string_bytes words.now)) → result ≢ 2 }
    ensures others { command_of (map string_bytes words.now) ≡ None → result ≡ 2 }
{
    let mut steps = Steps::<L>::new(blank);
    gx_run::run::<Statements, _, _, _>(alloc, words, source, host, &mut steps)
}
