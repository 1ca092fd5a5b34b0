//! What a token does to a reader.

/// What a token does to a reader: it goes on, or the token is wrong there, or it opens or joins too much.
#[derive(Debug, Drop)]
pub enum Outcome<T> {
    Goes(T),
    Wrong,
    Deep,
}
