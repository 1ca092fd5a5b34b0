//! Large parts of a reader, so that what is moved at each token is small.

ghost use Rattle.std.specs.Prelude.{◌≡◌, IfOk};

use gx_bytes::NoMemory;
use std::alloc::Global;
use std::marker::Model;
use std::mem;

/// A value in a place of its own.
#[derive(Debug, Drop)]
pub struct Held<T> {
    place: Box<T>,
}

impl<T> Model for Held<T> {
    ghost Value = { T };

    ghost view = { λ h. h.place.value };
}

impl<T: Drop> Held<T> {
    pub fn new(alloc: Global, value: T) -> Result<Held<T>, NoMemory>
        ensures { IfOk result (λ held. held ≡ value) }
    {
        Ok(Held {
            place: Box::new(alloc, value)?,
        })
    }
}

impl<T> Held<T> {
    pub fn into_inner(self) -> T
        ensures { result ≡ self }
    {
        Box::into_inner(self.place)
    }

    /// Puts another value into the place, and gives the one that it had.
    pub fn replace(&mut self, value: T) -> T
        ensures gives { result ≡ self.old }
        ensures keeps { self.new ≡ value }
    {
        mem::replace(&mut self.place, value)
    }
}
