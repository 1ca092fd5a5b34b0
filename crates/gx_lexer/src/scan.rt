//! The scanner: from the bytes of a piece to its tokens.

ghost use Rattle.std.specs.Prelude.{◌≡◌, true, ℕ, ◌+◌, ◌<◌, ◌≤◌, ◌==◌, ◌&&◌, ◌||◌, not, ◌++◌, [], ◌∷◌, length, take, map, slice_index, if◌then◌else◌, Some, IfOk, OnOk};
ghost use Rattle.std.specs.List.{prefix_len};
ghost use Rattle.std.specs.Str.{bytes_eq};
ghost use Rattle.gx_lexer.specs.Letters as letters;
ghost use Rattle.gx_lexer.specs.Tokens as tokens;

use crate::letters::{folded, is_comment, is_digit, is_letter, is_sign, is_white, is_word};
use crate::token::Token;
use gx_bytes::{Bytes, NoMemory};
use std::alloc::Global;

/// The greatest number of bytes of a word behind its first one.
const LONGEST_WORD: usize = 62;

/// What begins at a byte, which others follow, and how many of those belong to it. None for white space and
/// comments, Unknown where no token can be formed.
#[tactic(auto, unfolding(crate::specs::Tokens::first_of))]
pub fn first_at(alloc: Global, first: u8, after: &[u8]) -> Result<(Option<Token>, usize), NoMemory>
    ensures found { IfOk result (λ found. found ≡ tokens.first_of first after.now) }
    ensures within { IfOk result (λ found. found.1 ≤ length after.now) }
{
    if is_white(first) {
        Ok((None, 0))
    } else if first == b'-' && begins(after, b'-') {
        Ok((None, comment_len(after)))
    } else if is_letter(first) {
        word_at(alloc, first, after)
    } else if is_digit(first) {
        number_at(alloc, first, after)
    } else if is_sign(first) && begins_digit(after) {
        number_at(alloc, first, after)
    } else if first == b'\'' {
        text_at(alloc, after)
    } else if first == b':' && begins(after, b':') {
        Ok((Some(Token::Cast), 1))
    } else {
        sign_or_operator(alloc, first, after)
    }
}

fn unknown(after: &[u8]) -> (Option<Token>, usize)
    ensures { result ≡ tokens.unknown after.now }
{
    (Some(Token::Unknown), after.len())
}

fn word_at(alloc: Global, first: u8, after: &[u8]) -> Result<(Option<Token>, usize), NoMemory>
    ensures found { IfOk result (λ found. found ≡ tokens.word_of first after.now) }
    ensures within { IfOk result (λ found. found.1 ≤ length after.now) }
{
    let n = word_len(after);
    if n <= LONGEST_WORD {
        let word = folded_word(alloc, first, &after[..n])?;
        Ok((Some(Token::Word(word)), n))
    } else {
        Ok(unknown(after))
    }
}

fn folded_word(alloc: Global, first: u8, others: &[u8]) -> Result<Bytes, NoMemory>
    requires { length others.now < 63 }
    ensures { IfOk result (λ word. word ≡ map letters.folded (first ∷ others.now)) }
{
    let mut word = [0u8; 63];
    word[0] = folded(first);
    for (i, byte) in others.iter().enumerate() {
        word[i + 1] = folded(*byte);
    }
    Bytes::from_slice(alloc, &word[..others.len() + 1])
}

fn number_at(alloc: Global, first: u8, after: &[u8]) -> Result<(Option<Token>, usize), NoMemory>
    ensures found { IfOk result (λ found. found ≡ tokens.number_of first after.now) }
    ensures within { IfOk result (λ found. found.1 ≤ length after.now) }
{
    let n = digits_len(after);
    let digits = joined(alloc, first, &after[..n])?;
    Ok((Some(Token::Number(digits)), n))
}

/// A byte and others as one text.
fn joined(alloc: Global, first: u8, others: &[u8]) -> Result<Bytes, NoMemory>
    ensures { IfOk result (λ bytes. bytes ≡ first ∷ others.now) }
{
    if others.len() <= LONGEST_WORD {
        joined_short(alloc, first, others)
    } else {
        let mut bytes = Bytes::new(alloc);
        bytes.push(first)?;
        bytes.extend_from_slice(others)?;
        Ok(bytes)
    }
}

/// The same by one allocation, where they are few.
fn joined_short(alloc: Global, first: u8, others: &[u8]) -> Result<Bytes, NoMemory>
    requires { length others.now < 63 }
    ensures { IfOk result (λ bytes. bytes ≡ first ∷ others.now) }
{
    let mut bytes = [0u8; 63];
    let n = others.len() + 1;
    bytes[0] = first;
    bytes[1..n].copy_from_slice(others);
    Bytes::from_slice(alloc, &bytes[..n])
}

/// A text behind its first quote.
fn text_at(alloc: Global, after: &[u8]) -> Result<(Option<Token>, usize), NoMemory>
    ensures found { IfOk result (λ found. found ≡ tokens.text_of after.now) }
    ensures within { IfOk result (λ found. found.1 ≤ length after.now) }
{
    let n = unquoted_len(after);
    if n < after.len() && !begins(&after[n + 1..], b'\'') {
        let text = Bytes::from_slice(alloc, &after[..n])?;
        Ok((Some(Token::Text(text)), n + 1))
    } else {
        doubled_text_at(alloc, after)
    }
}

/// The same, byte by byte, where the text may have two quotes for each of its own.
fn doubled_text_at(alloc: Global, after: &[u8]) -> Result<(Option<Token>, usize), NoMemory>
    ensures found { IfOk result (λ found. found ≡ tokens.text_of after.now) }
    ensures within { IfOk result (λ found. found.1 ≤ length after.now) }
{
    let mut text = Bytes::new(alloc);
    let mut closing = false;
    let mut n = 0;
    while n < after.len() {
        let byte = after[n];
        if closing && byte != b'\'' {
            return Ok((Some(Token::Text(text)), n));
        }
        closing = goes_on(&mut text, closing, byte)?;
        n += 1;
    }
    if closing {
        Ok((Some(Token::Text(text)), n))
    } else {
        Ok(unknown(after))
    }
}

/// Takes a byte of a text, and says whether it is a quote that may close it.
fn goes_on(text: &mut Bytes, closing: bool, byte: u8) -> Result<bool, NoMemory>
    ensures quote { IfOk result (λ quote. quote ≡ (not closing && byte == 39)) }
    ensures text { OnOk result (text.new ≡ (if not closing && byte == 39 then text.old else text.old ++ byte ∷ [])) }
{
    if !closing && byte == b'\'' {
        Ok(true)
    } else {
        text.push(byte)?;
        Ok(false)
    }
}

fn sign_or_operator(
    alloc: Global,
    first: u8,
    after: &[u8],
) -> Result<(Option<Token>, usize), NoMemory>
    ensures found { IfOk result (λ found. found ≡ tokens.sign_or first after.now (tokens.sign_of first)) }
    ensures within { IfOk result (λ found. found.1 ≤ length after.now) }
{
    match sign(first) {
        Some(sign) => Ok((Some(sign), 0)),
        None => operator_at(alloc, first, after),
    }
}

fn sign(first: u8) -> Option<Token>
    ensures { result ≡ tokens.sign_of first }
{
    match first {
        b'(' => Some(Token::Open),
        b')' => Some(Token::Close),
        b'[' => Some(Token::OpenBracket),
        b']' => Some(Token::CloseBracket),
        b',' => Some(Token::Comma),
        b'*' => Some(Token::Star),
        _ => None,
    }
}

/// The longest operator that begins at a byte.
fn operator_at(alloc: Global, first: u8, after: &[u8]) -> Result<(Option<Token>, usize), NoMemory>
    ensures found { IfOk result (λ found. found ≡ tokens.operator_of first after.now) }
    ensures within { IfOk result (λ found. found.1 ≤ length after.now) }
{
    if stands(2, first, after) {
        operator(alloc, first, after, 2)
    } else if stands(1, first, after) {
        operator(alloc, first, after, 1)
    } else if stands(0, first, after) {
        operator(alloc, first, after, 0)
    } else {
        Ok(unknown(after))
    }
}

/// Whether a byte with `n` more is an operator whose last byte begins no comment.
fn stands(n: usize, first: u8, after: &[u8]) -> bool
    ensures stands { result ≡ tokens.stands n first after.now }
    ensures within { result ≡ true → n ≤ length after.now }
{
    n <= after.len() && is_operator(first, &after[..n]) && !runs_on(n, first, after)
}

/// Whether the byte at `n` and the next one are both `-`.
fn runs_on(n: usize, first: u8, after: &[u8]) -> bool
    requires { n ≤ length after.now }
    ensures { result ≡ (slice_index (first ∷ after.now) n == 45 && slice_index after.now n == 45) }
{
    let last = if n == 0 { first } else { after[n - 1] };
    last == b'-' && begins(&after[n..], b'-')
}

fn operator(
    alloc: Global,
    first: u8,
    after: &[u8],
    n: usize,
) -> Result<(Option<Token>, usize), NoMemory>
    requires { n ≤ length after.now }
    ensures { IfOk result (λ found. found ≡ tokens.operator_with first after.now n) }
{
    let text = operator_text(alloc, first, &after[..n])?;
    Ok((Some(Token::Operator(text)), n))
}

fn operator_text(alloc: Global, first: u8, others: &[u8]) -> Result<Bytes, NoMemory>
    ensures { IfOk result (λ text. text ≡ tokens.operator_text (first ∷ others.now)) }
{
    if is(first, others, b"!=") {
        Bytes::from_slice(alloc, b"<>")
    } else {
        joined(alloc, first, others)
    }
}

/// Whether a byte with others is an operator.
fn is_operator(first: u8, others: &[u8]) -> bool
    ensures { result ≡ tokens.is_operator (first ∷ others.now) }
{
    is_comparison(first, others) || is_relation(first, others)
}

/// Whether a byte with others is a comparison.
fn is_comparison(first: u8, others: &[u8]) -> bool
    ensures { result ≡ tokens.is_comparison (first ∷ others.now) }
{
    is(first, others, b"=")
        || is(first, others, b"<>")
        || is(first, others, b"!=")
        || is(first, others, b"<")
        || is(first, others, b"<=")
        || is(first, others, b">")
        || is(first, others, b">=")
}

/// Whether a byte with others is one of the other operators.
fn is_relation(first: u8, others: &[u8]) -> bool
    ensures { result ≡ tokens.is_relation (first ∷ others.now) }
{
    is(first, others, b"&&")
        || is(first, others, b"@>")
        || is(first, others, b"<@")
        || is(first, others, b"<<")
        || is(first, others, b">>")
        || is(first, others, b"&<")
        || is(first, others, b"&>")
        || is(first, others, b"-|-")
        || is(first, others, b"<<=")
        || is(first, others, b">>=")
        || is(first, others, b"~")
        || is(first, others, b"?")
        || is(first, others, b"@")
        || is(first, others, b"?&")
        || is(first, others, b"?|")
        || is(first, others, b"@@")
        || is(first, others, b"<->")
}

fn is(first: u8, others: &[u8], text: &[u8]) -> bool
    ensures { result ≡ bytes_eq (first ∷ others.now) text.now }
{
    match text {
        [begin, end @ ..] => first == *begin && others == end,
        [] => false,
    }
}

fn begins(bytes: &[u8], byte: u8) -> bool
    requires { 0 < byte }
    ensures { result ≡ (slice_index bytes.now 0 == byte) }
{
    match bytes {
        [first, ..] => *first == byte,
        [] => false,
    }
}

fn begins_digit(bytes: &[u8]) -> bool
    ensures { result ≡ letters.is_digit (slice_index bytes.now 0) }
{
    match bytes {
        [first, ..] => is_digit(*first),
        [] => false,
    }
}

fn word_len(bytes: &[u8]) -> usize
    ensures len { result ≡ prefix_len letters.is_word bytes.now }
    ensures within { result ≤ length bytes.now }
{
    bytes.iter().take_while(|b| is_word(**b)).count()
}

fn digits_len(bytes: &[u8]) -> usize
    ensures len { result ≡ prefix_len letters.is_digit bytes.now }
    ensures within { result ≤ length bytes.now }
{
    bytes.iter().take_while(|b| is_digit(**b)).count()
}

/// The number of bytes before the first quote.
fn unquoted_len(bytes: &[u8]) -> usize
    ensures len { result ≡ prefix_len (λ b. not (b == 39)) bytes.now }
    ensures within { result ≤ length bytes.now }
{
    bytes.iter().take_while(|b| **b != b'\'').count()
}

fn comment_len(bytes: &[u8]) -> usize
    ensures len { result ≡ prefix_len letters.is_comment bytes.now }
    ensures within { result ≤ length bytes.now }
{
    bytes.iter().take_while(|b| is_comment(**b)).count()
}
