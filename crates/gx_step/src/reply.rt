//! Replies.

ghost use Rattle.std.specs.Prelude.{◌≡◌, ◌≢◌, ◌++◌, true, codes, IfOk, IfErr, OnOk};
ghost use Rattle.std.specs.Fmt.{decimal};
ghost use Rattle.gx_engine.specs.Engines.{reply_of};
ghost use Rattle.gx_model.specs.Replies.{accepted, line, refusal, syntax_error};
ghost use Rattle.gx_step.specs.Doing.{IsOrdinary, has_space};

use gx_bytes::Bytes;
use gx_engine::Reply;
use gx_pages::PageError;
use itoa::Buffer;
use std::alloc::Global;

/// The reply to a statement that has the fault of this number. The error is Memory.
pub fn refused(alloc: Global, number: u8) -> Result<Reply, PageError>
    ensures reply { IfOk result (λ reply. reply_of reply ≡ refusal number) }
    ensures ordinary { IfOk result (λ reply. IsOrdinary (reply_of reply)) }
    ensures err { IfErr result (λ e. e ≡ PageError.Memory) }
{
    let bytes = with_line(Bytes::new(alloc), "ERROR E", number as u64)?;
    Ok(Reply {
        bytes,
        fault: Some(number),
    })
}

/// The reply to a piece that the grammar fails at this place. The error is Memory.
pub fn wrong_at(alloc: Global, at: u64) -> Result<Reply, PageError>
    ensures reply { IfOk result (λ reply. reply_of reply ≡ syntax_error at) }
    ensures ordinary { IfOk result (λ reply. IsOrdinary (reply_of reply)) }
    ensures err { IfErr result (λ e. e ≡ PageError.Memory) }
{
    let bytes = with_line(Bytes::new(alloc), "ERROR E1 AT ", at)?;
    Ok(Reply {
        bytes,
        fault: Some(1),
    })
}

/// The reply of one line. The error is Memory.
pub fn told(alloc: Global, text: &str) -> Result<Reply, PageError>
    ensures reply { IfOk result (λ reply. reply_of reply ≡ accepted (line text.now)) }
    ensures ordinary { text.now ≢ codes "CHECKPOINT" → IfOk result (λ reply. IsOrdinary (reply_of reply)) }
    ensures err { IfErr result (λ e. e ≡ PageError.Memory) }
{
    let mut bytes = Bytes::new(alloc);
    push(&mut bytes, text.as_bytes())?;
    push(&mut bytes, b"\n")?;
    Ok(Reply { bytes, fault: None })
}

/// The reply of these lines, and behind them one with a word and a number. The error is Memory.
pub fn counted(lines: Bytes, word: &str, count: u64) -> Result<Reply, PageError>
    ensures reply { IfOk result (λ reply. reply_of reply ≡ accepted (lines ++ line (word.now ++ decimal count))) }
    ensures ordinary { has_space word.now ≡ true → IfOk result (λ reply. IsOrdinary (reply_of reply)) }
    ensures err { IfErr result (λ e. e ≡ PageError.Memory) }
{
    let bytes = with_line(lines, word, count)?;
    Ok(Reply { bytes, fault: None })
}

/// The lines, and behind them one with a word and a number.
fn with_line(lines: Bytes, word: &str, number: u64) -> Result<Bytes, PageError>
    ensures bytes { IfOk result (λ bytes. bytes ≡ lines ++ line (word.now ++ decimal number)) }
    ensures err { IfErr result (λ e. e ≡ PageError.Memory) }
{
    let mut bytes = lines;
    let mut buffer = Buffer::new();
    push(&mut bytes, word.as_bytes())?;
    push(&mut bytes, buffer.format(number).as_bytes())?;
    push(&mut bytes, b"\n")?;
    Ok(bytes)
}

fn push(to: &mut Bytes, bytes: &[u8]) -> Result<(), PageError>
    ensures bytes { OnOk result (to.new ≡ to.old ++ bytes.now) }
    ensures err { IfErr result (λ e. e ≡ PageError.Memory) }
{
    match to.extend_from_slice(bytes) {
        Ok(()) => Ok(()),
        Err(_) => Err(PageError::Memory),
    }
}
