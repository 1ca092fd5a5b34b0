//! Answers joined by not, and, or.

ghost use Rattle.std.specs.Prelude.{◌≡◌};
ghost use Rattle.gx_kleene.specs.Answers.{opposite, both, either, unsure};

use gx_gist::Test;

/// What `!` makes of an answer: No and Yes are exchanged.
pub fn opposite(test: Test) -> Test
    ensures { result ≡ opposite test }
{
    match test {
        Test::No => Test::Yes,
        Test::Maybe => Test::Maybe,
        Test::Yes => Test::No,
    }
}

/// What `&` makes of two answers: the least of No, Maybe, Yes.
pub fn both(a: Test, b: Test) -> Test
    ensures { result ≡ both a b }
{
    match (a, b) {
        (Test::No, _) | (_, Test::No) => Test::No,
        (Test::Yes, Test::Yes) => Test::Yes,
        _ => Test::Maybe,
    }
}

/// What `|` makes of two answers: the greatest of No, Maybe, Yes.
pub fn either(a: Test, b: Test) -> Test
    ensures { result ≡ either a b }
{
    match (a, b) {
        (Test::Yes, _) | (_, Test::Yes) => Test::Yes,
        (Test::No, Test::No) => Test::No,
        _ => Test::Maybe,
    }
}

/// The answer with Yes counted as Maybe.
pub fn unsure(test: Test) -> Test
    ensures { result ≡ unsure test }
{
    match test {
        Test::No => Test::No,
        Test::Maybe | Test::Yes => Test::Maybe,
    }
}
