//! The lines that say why there is no database. They take no memory.

ghost use Rattle.std.specs.Prelude.{◌≡◌, ◌+◌, ◌≤◌, ◌++◌, length, OnOk};
ghost use Rattle.std.specs.Fmt.{decimal};
ghost use Rattle.arrayvec.specs.ArrayString.{array_string_len};
ghost use Rattle.gx_words.specs.Causes.{FailsWith};
ghost use Rattle.gx_run.specs.Lines.{IsDiskKept, broken_line, size_line};

use arrayvec::ArrayString;
use gx_disk::Host;
use gx_io::Failed;
use itoa::Buffer;

/// Answers which page is broken, what was expected there, and what was found.
pub fn answer_broken<H: Host>(
    host: &mut H,
    page: u64,
    expected: u64,
    found: u64,
) -> Result<(), Failed>
    ensures said { OnOk result (H.tells → (H.said host.new).bytes ≡ (H.said host.old).bytes ++ broken_line page expected found) }
    ensures disk { IsDiskKept H.Disk host.old host.new }
    ensures cause { FailsWith (H.said host.old).faults (H.said host.new).faults result }
{
    let mut line = ArrayString::<128>::new();
    push_field(&mut line, "FATAL broken page ", page);
    push_field(&mut line, " expected ", expected);
    push_field(&mut line, " found ", found);
    line.push_str("\n");
    host.answer(line.as_str().as_bytes())
}

/// Answers how many bytes a file has that is to be empty.
pub fn answer_size<H: Host>(host: &mut H, size: u64) -> Result<(), Failed>
    ensures said { OnOk result (H.tells → (H.said host.new).bytes ≡ (H.said host.old).bytes ++ size_line size) }
    ensures disk { IsDiskKept H.Disk host.old host.new }
    ensures cause { FailsWith (H.said host.old).faults (H.said host.new).faults result }
{
    let mut line = ArrayString::<128>::new();
    push_field(&mut line, "FATAL size ", size);
    line.push_str("\n");
    host.answer(line.as_str().as_bytes())
}

// Adds a word and a number.
fn push_field(line: &mut ArrayString<128>, word: &str, number: u64)
    requires { array_string_len line.old + length word.now + 20 ≤ 128 }
    ensures bytes { line.new.bytes ≡ line.old.bytes ++ word.now ++ decimal number }
    ensures len { array_string_len line.new ≤ array_string_len line.old + length word.now + 20 }
{
    let mut buffer = Buffer::new();
    line.push_str(word);
    line.push_str(buffer.format(number));
}
