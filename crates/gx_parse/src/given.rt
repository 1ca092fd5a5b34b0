//! Types and literals, token by token.

ghost use Rattle.std.specs.Prelude.{◌≡◌, [], ◌∷◌, is_some, IfOk};
ghost use Rattle.gx_parse.specs.Literals as literals;

use crate::statement::{Given, TypeWord};
use crate::words::{element, is, word};
use gx_bytes::{Bytes, NoMemory};
use gx_intarr::Texts;
use gx_lexer::Token;
use gx_value::{Form, Literal};
use std::alloc::Global;

/// A type that is read as far as this.
#[derive(Debug, Drop)]
pub enum TypeReader {
    /// The word.
    Word(Bytes),
    /// And `[`.
    Bracket(Bytes),
    /// And `]`.
    List(Bytes),
}

impl TypeReader {
    /// One more token, if the type goes on with it.
    pub fn take(self, token: Token) -> Option<TypeReader>
        ensures { result ≡ literals.type_after self token }
    {
        match (self, token) {
            (TypeReader::Word(word), Token::OpenBracket) => Some(TypeReader::Bracket(word)),
            (TypeReader::Bracket(word), Token::CloseBracket) => Some(TypeReader::List(word)),
            _ => None,
        }
    }

    /// Whether the type goes on with the token.
    pub fn takes(&self, token: &Token) -> bool
        ensures { result ≡ is_some (literals.type_after self.now token.now) }
    {
        match (self, token) {
            (TypeReader::Word(_), Token::OpenBracket) => true,
            (TypeReader::Bracket(_), Token::CloseBracket) => true,
            _ => false,
        }
    }

    /// The type, if it may end here.
    pub fn finish(self) -> Option<TypeWord>
        ensures { result ≡ literals.type_of self }
    {
        match self {
            TypeReader::Word(word) => Some(TypeWord { word, list: false }),
            TypeReader::Bracket(_) => None,
            TypeReader::List(word) => Some(TypeWord { word, list: true }),
        }
    }
}

/// A literal that is read as far as this.
#[derive(Debug, Drop)]
pub enum GivenReader {
    /// `ARRAY`.
    Array,
    /// `ARRAY [`.
    First(Texts),
    /// An element and a comma.
    Next(Texts),
    /// An element.
    Element(Texts),
    /// The whole literal.
    Whole(Literal),
    /// And `::`.
    Cast(Literal),
    /// And a type.
    Typed(Literal, TypeReader),
}

impl GivenReader {
    /// A literal that begins with the token.
    pub fn begin(alloc: Global, token: Token) -> Result<Option<GivenReader>, NoMemory>
        ensures { IfOk result (λ found. found ≡ literals.given_from token) }
    {
        match token {
            Token::Word(word) => Ok(begin_word(alloc, &word)),
            Token::Text(text) => Ok(Some(single(alloc, Form::Text, text)?)),
            Token::Number(number) => Ok(Some(single(alloc, Form::Number, number)?)),
            _ => Ok(None),
        }
    }

    /// One more token, if the literal goes on with it.
    pub fn take(self, alloc: Global, token: Token) -> Result<Option<GivenReader>, NoMemory>
        ensures { IfOk result (λ found. found ≡ literals.given_after self token) }
    {
        match self {
            GivenReader::Array => Ok(array(alloc, &token)),
            GivenReader::First(texts) => first(texts, token),
            GivenReader::Next(texts) => next(texts, token),
            GivenReader::Element(texts) => Ok(behind_element(texts, &token)),
            GivenReader::Whole(literal) => Ok(cast(literal, &token)),
            GivenReader::Cast(literal) => Ok(cast_to(literal, token)),
            GivenReader::Typed(literal, kind) => Ok(typed(literal, kind, token)),
        }
    }

    /// Whether the literal goes on with the token.
    pub fn takes(&self, token: &Token) -> bool
        ensures { result ≡ is_some (literals.given_after self.now token.now) }
    {
        match (self, token) {
            (GivenReader::Array, Token::OpenBracket) => true,
            (GivenReader::First(_), Token::CloseBracket | Token::Text(_) | Token::Number(_)) =>
                true,
            (GivenReader::Next(_), Token::Text(_) | Token::Number(_)) => true,
            (GivenReader::Element(_), Token::Comma | Token::CloseBracket) => true,
            (GivenReader::Whole(_), Token::Cast) => true,
            (GivenReader::Cast(_), Token::Word(_)) => true,
            (GivenReader::Typed(_, kind), token) => kind.takes(token),
            _ => false,
        }
    }

    /// The literal with its cast, if it may end here.
    pub fn finish(self) -> Option<Given>
        ensures { result ≡ literals.given_of self }
    {
        match self {
            GivenReader::Whole(literal) => Some(Given {
                literal,
                cast: None,
            }),
            GivenReader::Typed(literal, kind) => {
                let kind = kind.finish()?;
                Some(Given {
                    literal,
                    cast: Some(kind),
                })
            }
            _ => None,
        }
    }
}

/// NULL, or the first word of a list.
fn begin_word(alloc: Global, word: &Bytes) -> Option<GivenReader>
    ensures { result ≡ literals.given_from_word word.now }
{
    if is(word, b"null") {
        Some(GivenReader::Whole(Literal {
            form: Form::Null,
            texts: Texts::new(alloc),
        }))
    } else if is(word, b"array") {
        Some(GivenReader::Array)
    } else {
        None
    }
}

/// A literal of one text.
fn single(alloc: Global, form: Form, text: Bytes) -> Result<GivenReader, NoMemory>
    ensures { IfOk result (λ given. given ≡ literals.single form text) }
{
    let mut texts = Texts::new(alloc);
    texts.push(text)?;
    Ok(GivenReader::Whole(Literal { form, texts }))
}

fn list(texts: Texts) -> GivenReader
    ensures { result ≡ literals.list texts }
{
    GivenReader::Whole(Literal {
        form: Form::List,
        texts,
    })
}

fn array(alloc: Global, token: &Token) -> Option<GivenReader>
    ensures { result ≡ literals.after_array token.now }
{
    match token {
        Token::OpenBracket => Some(GivenReader::First(Texts::new(alloc))),
        _ => None,
    }
}

fn first(texts: Texts, token: Token) -> Result<Option<GivenReader>, NoMemory>
    ensures { IfOk result (λ found. found ≡ literals.at_first texts token) }
{
    match token {
        Token::CloseBracket => Ok(Some(list(texts))),
        token => next(texts, token),
    }
}

fn next(texts: Texts, token: Token) -> Result<Option<GivenReader>, NoMemory>
    ensures { IfOk result (λ found. found ≡ literals.at_next texts token) }
{
    match element(token) {
        Some(text) => {
            let mut texts = texts;
            texts.push(text)?;
            Ok(Some(GivenReader::Element(texts)))
        }
        None => Ok(None),
    }
}

fn behind_element(texts: Texts, token: &Token) -> Option<GivenReader>
    ensures { result ≡ literals.behind_element texts token.now }
{
    match token {
        Token::Comma => Some(GivenReader::Next(texts)),
        Token::CloseBracket => Some(list(texts)),
        _ => None,
    }
}

fn cast(literal: Literal, token: &Token) -> Option<GivenReader>
    ensures { result ≡ literals.behind_literal literal token.now }
{
    match token {
        Token::Cast => Some(GivenReader::Cast(literal)),
        _ => None,
    }
}

fn cast_to(literal: Literal, token: Token) -> Option<GivenReader>
    ensures { result ≡ literals.behind_cast literal token }
{
    let word = word(token)?;
    Some(GivenReader::Typed(literal, TypeReader::Word(word)))
}

fn typed(literal: Literal, kind: TypeReader, token: Token) -> Option<GivenReader>
    ensures { result ≡ literals.behind_type literal kind token }
{
    let kind = kind.take(token)?;
    Some(GivenReader::Typed(literal, kind))
}
