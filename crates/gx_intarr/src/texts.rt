//! The elements of an array text.

ghost use Rattle.std.specs.Prelude.{◌≡◌, ℕ, List, [], ◌∷◌, ◌++◌, length, IfOk, OnOk, OnErr, option_map, slice_get};
ghost use Rattle.gx_intarr.specs.Held.{texts_of};
ghost use Rattle.gx_intarr.specs.Texts.{AnswersTexts};
ghost use Rattle.gx_intarr.specs.Reading.{AnswersElements};

use crate::elements::{is_end, take_element};
use gx_bytes::{Bytes, NoMemory, ValueError, behind_byte, trimmed};
use std::alloc::Global;
use std::marker::Model;

/// A list of texts. It keeps the allocator that it was made with, and up to one text takes no memory but its own.
#[derive(Debug, Drop)]
pub struct Texts {
    alloc: Global,
    held: Held,
}

#[derive(Debug, Drop)]
enum Held {
    Few(Option<Bytes>),
    Many(Vec<Bytes>),
}

impl Model for Texts {
    ghost Value = { List (List ℕ) };

    ghost view = { λ t. texts_of t.held };
}

impl Texts {
    /// No texts.
    pub fn new(alloc: Global) -> Texts
        ensures { result ≡ [] }
    {
        Texts {
            alloc,
            held: Held::Few(None),
        }
    }

    /// Adds a text at the end.
    pub fn push(&mut self, text: Bytes) -> Result<(), NoMemory>
        ensures ok { OnOk result (self.new ≡ self.old ++ text ∷ []) }
        ensures err { OnErr result (self.new ≡ self.old) }
    {
        match &mut self.held {
            Held::Few(held) if held.is_none() => *held = Some(text),
            Held::Few(held) => {
                let mut texts = Vec::with_capacity(self.alloc, 2)?;
                if let Some(first) = held.take() {
                    texts.push_reserved(first);
                }
                texts.push_reserved(text);
                self.held = Held::Many(texts);
            }
            Held::Many(texts) => texts.push(text)?,
        }
        Ok(())
    }

    /// How many texts there are.
    pub fn count(&self) -> usize
        ensures { result ≡ length self.now }
    {
        self.as_slice().len()
    }

    /// The text at this place, counted from 0.
    pub fn text(&self, at: usize) -> Option<&[u8]>
        ensures { option_map (λ text. text.now) result ≡ slice_get self.now at }
    {
        match self.as_slice().get(at) {
            Some(text) => Some(text.as_slice()),
            None => None,
        }
    }

    /// The texts in order.
    pub fn as_slice(&self) -> &[Bytes]
        ensures { result.now ≡ self.now }
    {
        match &self.held {
            Held::Few(text) => text.as_slice(),
            Held::Many(texts) => texts.as_slice(),
        }
    }

    /// A copy of the texts.
    pub fn copy(&self, alloc: Global) -> Result<Texts, NoMemory>
        ensures { IfOk result (λ copy. copy ≡ self.now) }
    {
        let mut copy = Texts::new(alloc);
        for text in self.as_slice() {
            copy.push(text.copy(alloc)?)?;
        }
        Ok(copy)
    }

    /// Reads the elements of an array text, as `{a, "b c"}`, each without its quotes, its backslashes and
    /// the white space round it. NoValue where the text hasn't this form, or an element is NULL.
    pub fn read(alloc: Global, text: &str) -> Result<Texts, ValueError>
        ensures { AnswersTexts text.now result }
    {
        let Some(body) = behind_byte(trimmed(text.as_bytes()), b'{') else {
            return Err(ValueError::NoValue);
        };
        if is_end(body) {
            return Ok(Texts::new(alloc));
        }
        elements_of(alloc, body)
    }
}

/// The elements behind the opening brace, of which there is one at least.
fn elements_of(alloc: Global, text: &[u8]) -> Result<Texts, ValueError>
    ensures { AnswersElements text.now result }
{
    let mut texts = Texts::new(alloc);
    let mut rest = text;
    'elements: loop {
        let Ok(found) = take_element(alloc, rest) else {
            return Err(ValueError::Memory);
        };
        let Some((element, after)) = found else {
            return Err(ValueError::NoValue);
        };
        texts.push(element).map_err(|_| ValueError::Memory)?;
        if is_end(after) {
            return Ok(texts);
        }
        let Some(more) = behind_byte(after, b',') else {
            return Err(ValueError::NoValue);
        };
        rest = more;
    }
}
