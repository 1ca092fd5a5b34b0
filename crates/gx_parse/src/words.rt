//! Tests of single tokens.

ghost use Rattle.std.specs.Prelude.{◌≡◌};
ghost use Rattle.std.specs.Str.{bytes_eq};
ghost use Rattle.gx_parse.specs.Words as words;

use gx_bytes::Bytes;
use gx_lexer::Token;
use gx_value::Operator;

/// Whether the token is this word.
pub fn is_word(token: &Token, word: &[u8]) -> bool
    ensures { result ≡ words.is_word word.now token.now }
{
    match token {
        Token::Word(found) => is(found, word),
        _ => false,
    }
}

pub fn is_open(token: &Token) -> bool
    ensures { result ≡ words.is_open token.now }
{
    match token {
        Token::Open => true,
        _ => false,
    }
}

pub fn is_close(token: &Token) -> bool
    ensures { result ≡ words.is_close token.now }
{
    match token {
        Token::Close => true,
        _ => false,
    }
}

pub fn is_comma(token: &Token) -> bool
    ensures { result ≡ words.is_comma token.now }
{
    match token {
        Token::Comma => true,
        _ => false,
    }
}

/// Whether the token is `=`.
pub fn is_equal(token: &Token) -> bool
    ensures { result ≡ words.is_equal token.now }
{
    match token {
        Token::Operator(text) => is(text, b"="),
        _ => false,
    }
}

pub fn is(found: &Bytes, word: &[u8]) -> bool
    ensures { result ≡ bytes_eq found.now word.now }
{
    found.as_slice() == word
}

/// The word, if the token is one.
pub fn word(token: Token) -> Option<Bytes>
    ensures { result ≡ words.word_in token }
{
    match token {
        Token::Word(word) => Some(word),
        _ => None,
    }
}

/// The word, if the token is one that can be a name.
pub fn name(token: Token) -> Option<Bytes>
    ensures { result ≡ words.name_in token }
{
    match token {
        Token::Word(word) => if is_reserved(&word) { None } else { Some(word) },
        _ => None,
    }
}

pub fn number(token: Token) -> Option<Bytes>
    ensures { result ≡ words.number_in token }
{
    match token {
        Token::Number(number) => Some(number),
        _ => None,
    }
}

/// A text or a number, as an element of a list.
pub fn element(token: Token) -> Option<Bytes>
    ensures { result ≡ words.element_in token }
{
    match token {
        Token::Text(text) => Some(text),
        Token::Number(number) => Some(number),
        _ => None,
    }
}

/// The operator of a condition.
pub fn operator(token: &Token) -> Option<Operator>
    ensures { result ≡ words.operator_in token.now }
{
    match token {
        Token::Operator(text) => operator_of(text),
        _ => None,
    }
}

#[tactic(auto, unfolding(crate::specs::Words::operator_of))]
fn operator_of(text: &Bytes) -> Option<Operator>
    ensures { result ≡ words.operator_of text.now }
{
    if let Some(op) = comparison_of(text) {
        return Some(op);
    }
    if let Some(op) = relation_of(text) {
        return Some(op);
    }
    match_of(text)
}

fn comparison_of(text: &Bytes) -> Option<Operator>
    ensures { result ≡ words.comparison_of text.now }
{
    if is(text, b"=") {
        Some(Operator::Equal)
    } else if is(text, b"<>") {
        Some(Operator::NotEqual)
    } else if is(text, b"<") {
        Some(Operator::Less)
    } else if is(text, b"<=") {
        Some(Operator::LessEqual)
    } else if is(text, b">") {
        Some(Operator::Greater)
    } else if is(text, b">=") {
        Some(Operator::GreaterEqual)
    } else {
        None
    }
}

fn relation_of(text: &Bytes) -> Option<Operator>
    ensures { result ≡ words.relation_of text.now }
{
    if is(text, b"&&") {
        Some(Operator::Overlaps)
    } else if is(text, b"@>") {
        Some(Operator::Contains)
    } else if is(text, b"<@") {
        Some(Operator::Within)
    } else if is(text, b"<<") {
        Some(Operator::Left)
    } else if is(text, b">>") {
        Some(Operator::Right)
    } else if is(text, b"&<") {
        Some(Operator::NotRight)
    } else if is(text, b"&>") {
        Some(Operator::NotLeft)
    } else if is(text, b"-|-") {
        Some(Operator::Adjacent)
    } else {
        None
    }
}

fn match_of(text: &Bytes) -> Option<Operator>
    ensures { result ≡ words.match_of text.now }
{
    if is(text, b"<<=") {
        Some(Operator::LeftEqual)
    } else if is(text, b">>=") {
        Some(Operator::RightEqual)
    } else if is(text, b"~") {
        Some(Operator::Matches)
    } else if is(text, b"?") {
        Some(Operator::Has)
    } else if is(text, b"@") {
        Some(Operator::Words)
    } else if is(text, b"?&") {
        Some(Operator::HasAll)
    } else if is(text, b"?|") {
        Some(Operator::HasAny)
    } else if is(text, b"@@") {
        Some(Operator::Formula)
    } else {
        None
    }
}

/// Whether the word can't be a name.
fn is_reserved(word: &Bytes) -> bool
    ensures { result ≡ words.is_reserved word.now }
{
    is_clause(word) || is_other_reserved(word)
}

fn is_clause(word: &Bytes) -> bool
    ensures { result ≡ words.is_clause word.now }
{
    is(word, b"analyze")
        || is(word, b"constraint")
        || is(word, b"create")
        || is(word, b"from")
        || is(word, b"into")
        || is(word, b"limit")
        || is(word, b"on")
        || is(word, b"order")
        || is(word, b"select")
        || is(word, b"table")
        || is(word, b"using")
        || is(word, b"where")
        || is(word, b"with")
}

fn is_other_reserved(word: &Bytes) -> bool
    ensures { result ≡ words.is_other_reserved word.now }
{
    is(word, b"and")
        || is(word, b"array")
        || is(word, b"is")
        || is(word, b"not")
        || is(word, b"null")
        || is(word, b"or")
}
