//! The reader's machine: what stands open, and what each token makes of it.

ghost use Rattle.std.specs.Prelude.{◌≡◌, ◌≤◌, ℕ, length, IfOk, MatchResult, Some, None, option_map};
ghost use Rattle.gx_formula.specs.Tokens.{Word, Mark};
ghost use Rattle.gx_formula.specs.Machine.{with_product, with_sum, negated, unnegated, put_operand, value, frames, parsed, IsLimited, IsStep, FailsSign, FailsWord, FailsEnd};

use crate::formula::Formula;
use crate::sign::Sign;
use gx_bytes::{NoMemory, ValueError};
use std::alloc::Global;

/// How many parentheses and `!` may stand open.
const MOST_OPEN: usize = 64;

/// How many `&` and `|` a formula may have.
const MOST_OPERATORS: u16 = 1024;

/// What stands open.
#[derive(Debug, Drop)]
pub(crate) enum Pending<F> {
    Not,
    /// A parenthesis, with the conjunctions joined and the operands of the last conjunction before it.
    Group(Option<F>, Option<F>),
}

/// What was read of a formula: what stands open, the last at the end; of the group that is open the conjunctions joined, and the operands
/// of the last of them; the operand that has ended, if none is wanted; and how many operators there were.
#[derive(Drop)]
pub(crate) struct Parser<F> {
    pub stack: Vec<Pending<F>>,
    pub sum: Option<F>,
    pub product: Option<F>,
    pub operand: Option<F>,
    pub operators: u16,
}

/// The state behind a sign.
pub(crate) fn put_sign<F: Formula>(
    alloc: Global,
    parser: Parser<F>,
    sign: Sign,
) -> Result<Parser<F>, ValueError>
    requires { IsLimited parser }
    ensures { MatchResult result (λ next. IsStep F.tree parser (Mark sign) next) (λ e. FailsSign (parsed F.tree parser) parser.operators sign e) }
{
    match sign {
        Sign::Not => put_not(parser),
        Sign::And => put_and(alloc, parser),
        Sign::Or => put_or(alloc, parser),
        Sign::Open => put_open(parser),
        Sign::Close => put_close(alloc, parser),
    }
}

/// The state behind a word at the front of the text, and what stands behind the word.
pub(crate) fn put_word<F: Formula>(
    alloc: Global,
    parser: Parser<F>,
    core: &[u8],
) -> Result<(Parser<F>, &[u8]), ValueError>
    requires { IsLimited parser }
    ensures { MatchResult result (λ x. (w : F.Word) × F.Takes core.now w x.1.now × IsStep F.tree parser (Word w) x.0) (λ e. FailsWord F.Takes F.IsFar core.now (parsed F.tree parser) e) }
{
    if parser.operand.is_some() {
        return Err(ValueError::NoValue);
    }
    let (word, rest) = F::take_word(alloc, core)?;
    let Ok(next) = behind(
        alloc,
        parser.stack,
        parser.sum,
        parser.product,
        F::word(word),
        parser.operators,
    ) else {
        return Err(ValueError::Memory);
    };
    Ok((next, rest))
}

/// The formula at the end of the text.
pub(crate) fn finished<F: Formula>(alloc: Global, parser: Parser<F>) -> Result<F, ValueError>
    ensures { MatchResult result (λ f. value (parsed F.tree parser) ≡ Some (F.tree f)) (λ e. FailsEnd (parsed F.tree parser) e) }
{
    let Parser {
        stack,
        sum,
        product,
        operand,
        operators: _,
    } = parser;
    let Some(operand) = operand else {
        return Err(ValueError::NoValue);
    };
    if !stack.is_empty() {
        return Err(ValueError::NoValue);
    }
    match group_value(alloc, sum, product, operand) {
        Ok(formula) => Ok(formula),
        Err(_) => Err(ValueError::Memory),
    }
}

fn put_not<F: Formula>(parser: Parser<F>) -> Result<Parser<F>, ValueError>
    requires { IsLimited parser }
    ensures { MatchResult result (λ next. IsStep F.tree parser (Mark Sign.Not) next) (λ e. FailsSign (parsed F.tree parser) parser.operators Sign.Not e) }
{
    let Parser {
        mut stack,
        sum,
        product,
        operand,
        operators,
    } = parser;
    if operand.is_some() {
        return Err(ValueError::NoValue);
    }
    if stack.len() >= MOST_OPEN {
        return Err(ValueError::TooDeep);
    }
    if stack.push(Pending::Not).is_err() {
        return Err(ValueError::Memory);
    }
    Ok(Parser {
        stack,
        sum,
        product,
        operand: None,
        operators,
    })
}

fn put_open<F: Formula>(parser: Parser<F>) -> Result<Parser<F>, ValueError>
    requires { IsLimited parser }
    ensures { MatchResult result (λ next. IsStep F.tree parser (Mark Sign.Open) next) (λ e. FailsSign (parsed F.tree parser) parser.operators Sign.Open e) }
{
    let Parser {
        mut stack,
        sum,
        product,
        operand,
        operators,
    } = parser;
    if operand.is_some() {
        return Err(ValueError::NoValue);
    }
    if stack.len() >= MOST_OPEN {
        return Err(ValueError::TooDeep);
    }
    if stack.push(Pending::Group(sum, product)).is_err() {
        return Err(ValueError::Memory);
    }
    Ok(Parser {
        stack,
        sum: None,
        product: None,
        operand: None,
        operators,
    })
}

fn put_and<F: Formula>(alloc: Global, parser: Parser<F>) -> Result<Parser<F>, ValueError>
    requires { IsLimited parser }
    ensures { MatchResult result (λ next. IsStep F.tree parser (Mark Sign.And) next) (λ e. FailsSign (parsed F.tree parser) parser.operators Sign.And e) }
{
    let Parser {
        stack,
        sum,
        product,
        operand,
        operators,
    } = parser;
    let Some(operand) = operand else {
        return Err(ValueError::NoValue);
    };
    if operators >= MOST_OPERATORS {
        return Err(ValueError::TooDeep);
    }
    let Ok(product) = product_with(alloc, product, operand) else {
        return Err(ValueError::Memory);
    };
    Ok(Parser {
        stack,
        sum,
        product: Some(product),
        operand: None,
        operators: operators + 1,
    })
}

fn put_or<F: Formula>(alloc: Global, parser: Parser<F>) -> Result<Parser<F>, ValueError>
    requires { IsLimited parser }
    ensures { MatchResult result (λ next. IsStep F.tree parser (Mark Sign.Or) next) (λ e. FailsSign (parsed F.tree parser) parser.operators Sign.Or e) }
{
    let Parser {
        stack,
        sum,
        product,
        operand,
        operators,
    } = parser;
    let Some(operand) = operand else {
        return Err(ValueError::NoValue);
    };
    if operators >= MOST_OPERATORS {
        return Err(ValueError::TooDeep);
    }
    let Ok(sum) = group_value(alloc, sum, product, operand) else {
        return Err(ValueError::Memory);
    };
    Ok(Parser {
        stack,
        sum: Some(sum),
        product: None,
        operand: None,
        operators: operators + 1,
    })
}

fn put_close<F: Formula>(alloc: Global, parser: Parser<F>) -> Result<Parser<F>, ValueError>
    requires { IsLimited parser }
    ensures { MatchResult result (λ next. IsStep F.tree parser (Mark Sign.Close) next) (λ e. FailsSign (parsed F.tree parser) parser.operators Sign.Close e) }
{
    let Parser {
        mut stack,
        sum,
        product,
        operand,
        operators,
    } = parser;
    let Some(operand) = operand else {
        return Err(ValueError::NoValue);
    };
    let Some(Pending::Group(before, first)) = stack.pop() else {
        return Err(ValueError::NoValue);
    };
    let Ok(inner) = group_value(alloc, sum, product, operand) else {
        return Err(ValueError::Memory);
    };
    match behind(alloc, stack, before, first, inner, operators) {
        Ok(next) => Ok(next),
        Err(_) => Err(ValueError::Memory),
    }
}

/// The state behind an operand, which ends each `!` before it.
fn behind<F: Formula>(
    alloc: Global,
    stack: Vec<Pending<F>>,
    sum: Option<F>,
    product: Option<F>,
    operand: F,
    operators: u16,
) -> Result<Parser<F>, NoMemory>
    ensures state { IfOk result (λ p. parsed F.tree p ≡ put_operand (frames F.tree stack.items) (option_map F.tree sum) (option_map F.tree product) (F.tree operand)) }
    ensures operators { IfOk result (λ p. p.operators ≡ operators) }
    ensures depth { IfOk result (λ p. length p.stack.items ≤ length stack.items) }
{
    let mut stack = stack;
    let operand = ended(alloc, &mut stack, operand)?;
    Ok(Parser {
        stack,
        sum,
        product,
        operand: Some(operand),
        operators,
    })
}

/// Takes each `!` at the end of the stack to the operand.
fn ended<F: Formula>(alloc: Global, stack: &mut Vec<Pending<F>>, operand: F) -> Result<F, NoMemory>
    ensures value { IfOk result (λ f. F.tree f ≡ negated (frames F.tree stack.old.items) (F.tree operand)) }
    ensures stack { IfOk result (λ _. frames F.tree stack.new.items ≡ unnegated (frames F.tree stack.old.items)) }
    ensures depth { IfOk result (λ _. length stack.new.items ≤ length stack.old.items) }
{
    let mut inner = operand;
    'signs: loop {
        match stack.pop() {
            Some(Pending::Not) => inner = F::not(alloc, inner)?,
            Some(Pending::Group(sum, product)) => {
                stack.push(Pending::Group(sum, product))?;
                return Ok(inner);
            }
            None => return Ok(inner),
        }
    }
}

/// The operands of a conjunction and one more.
fn product_with<F: Formula>(alloc: Global, product: Option<F>, operand: F) -> Result<F, NoMemory>
    ensures { IfOk result (λ f. F.tree f ≡ with_product (option_map F.tree product) (F.tree operand)) }
{
    match product {
        Some(left) => F::and(alloc, left, operand),
        None => Ok(operand),
    }
}

/// All that stands in a group.
fn group_value<F: Formula>(
    alloc: Global,
    sum: Option<F>,
    product: Option<F>,
    operand: F,
) -> Result<F, NoMemory>
    ensures { IfOk result (λ f. F.tree f ≡ with_sum (option_map F.tree sum) (with_product (option_map F.tree product) (F.tree operand))) }
{
    let last = product_with(alloc, product, operand)?;
    match sum {
        Some(left) => F::or(alloc, left, last),
        None => Ok(last),
    }
}
