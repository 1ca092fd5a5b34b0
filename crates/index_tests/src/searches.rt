//! Searches by an operator with its operand, over indexes of which each fourth row is NULL.

ghost use Rattle.std.specs.Prelude.{◌≡◌, true, IfOk};
ghost use Rattle.gx_opr.specs.Operands.{IsOperand};
ghost use Rattle.gx_scalar.specs.declared.scalar.ScalarKind.TheVariants.{Int4};
ghost use Rattle.gx_value.specs.declared.types.ColumnType.{ColumnType};
ghost use Rattle.gx_value.specs.Classes.{allows, supports, takes};
ghost use Rattle.gx_value.specs.Literals.{IsLiteral};
ghost use Rattle.gx_value.specs.Operators.{is_operand};
ghost use Rattle.gx_value.specs.Values.{datum_of, IsValue};

use gx_bytes::{Bytes, NoMemory};
use gx_class_range::RangeClass;
use gx_class_scalar::ScalarClass;
use gx_gin_arrays::ArrayClass;
use gx_gin_scan::Gin;
use gx_gist_tree::Tree;
use gx_index::{Indexed, Kept, create_items, create_keys};
use gx_intarr::Texts;
use gx_opr::{Operand, read_operand};
use gx_pages::{Bitmap, MemoryPages, PageError, RowRef};
use gx_scalar::ScalarKind;
use gx_value::{ColumnType, Form, Literal, OperandType, Operator, Value, read_value};
use std::alloc::Global;
use std::test::Fail;

const ROWS: u32 = 60;

fn text_literal(alloc: Global, text: &str) -> Result<Literal, NoMemory>
    ensures literal { IfOk result (λ l. IsLiteral l) }
    ensures form { IfOk result (λ l. l.form ≡ Form.Text) }
{
    let mut texts = Texts::new(alloc);
    texts.push(Bytes::from_slice(alloc, text.as_bytes())?)?;
    Ok(Literal {
        form: Form::Text,
        texts,
    })
}

fn value_of(alloc: Global, kind: ColumnType, text: &str) -> Result<Value, PageError>
    ensures { IfOk result (λ v. IsValue kind (datum_of v)) }
{
    let Ok(literal) = text_literal(alloc, text) else {
        return Err(PageError::Memory);
    };
    match read_value(alloc, kind, &literal) {
        Ok(Some(value)) => Ok(value),
        _ => Err(PageError::Memory),
    }
}

fn operand_of(alloc: Global, kind: OperandType, text: &str) -> Result<Operand, PageError>
    ensures kind { IfOk result (λ o. o.kind ≡ kind) }
    ensures valid { IfOk result (λ o. IsOperand o) }
{
    let Ok(literal) = text_literal(alloc, text) else {
        return Err(PageError::Memory);
    };
    match read_operand(alloc, kind, &literal) {
        Ok(Some(operand)) => Ok(operand),
        _ => Err(PageError::Memory),
    }
}

fn row_of(number: u32) -> RowRef {
    RowRef {
        number: u64::from(number),
        page: 9,
        slot: 1,
    }
}

// The text of a row's value: its number, or three numbers from it on, as an array or a range.
fn text_of(alloc: Global, kind: ColumnType, row: u32) -> Result<String, PageError> {
    let text = match kind {
        ColumnType::Int4 => format!(in alloc; "{row}"),
        ColumnType::Int4Array => {
            format!(in alloc; "{{{row},{},{}}}", u64::from(row) + 1, u64::from(row) + 2)
        }
        _ => format!(in alloc; "[{row},{})", u64::from(row) + 3),
    };
    match text {
        Ok(text) => Ok(text),
        Err(_) => Err(PageError::Memory),
    }
}

// Adds a row, whose value is NULL in each fourth.
fn put<M: Kept>(
    alloc: Global,
    pages: &mut MemoryPages,
    index: &mut Indexed<M>,
    kind: ColumnType,
    row: u32,
) -> Result<(), PageError>
    requires class { M.valid index.old.kept }
    requires column { takes (M.named index.old.kept) kind ≡ true }
    ensures { index.new.kept ≡ index.old.kept }
{
    if row % 4 == 0 {
        return index.put(alloc, pages, row_of(row), None);
    }
    let text = text_of(alloc, kind, row)?;
    let value = value_of(alloc, kind, text.as_str())?;
    index.put(alloc, pages, row_of(row), Some(&value))
}

fn fill<M: Kept>(
    alloc: Global,
    pages: &mut MemoryPages,
    index: &mut Indexed<M>,
    kind: ColumnType,
) -> Result<(), PageError>
    requires class { M.valid index.old.kept }
    requires column { takes (M.named index.old.kept) kind ≡ true }
    ensures { index.new.kept ≡ index.old.kept }
{
    for row in 0..ROWS {
        put(alloc, pages, index, kind, row)?;
    }
    Ok(())
}

// The rows that an index finds for an operator with the operand that a text spells.
fn search<M: Kept>(
    alloc: Global,
    pages: &mut MemoryPages,
    index: &Indexed<M>,
    op: Operator,
    kind: OperandType,
    text: &str,
) -> Result<Bitmap, PageError>
    requires class { M.valid index.now.kept }
    requires parameter { allows (M.named index.now.kept) (M.parameter index.now.kept) ≡ true }
    requires supports { supports (M.named index.now.kept) op kind ≡ true }
    requires column { (column : ColumnType) × (takes (M.named index.now.kept) column ≡ true) × (is_operand column op kind ≡ true) }
{
    let operand = operand_of(alloc, kind, text)?;
    index.search(alloc, pages, op, &operand)
}

// Whether just these rows were found that have a value, but for each third where these are gone.
fn are_rows(found: &Bitmap, from: u32, to: u32, gone: bool) -> bool {
    let mut rows = found.as_slice().iter();
    for number in from..to {
        let there = number % 4 != 0 && !(gone && number % 3 == 0);
        if there && rows.next().copied() != Some(row_of(number)) {
            return false;
        }
    }
    rows.next().is_none()
}

fn numbers(alloc: Global, pages: &mut MemoryPages) -> Result<Indexed<Tree<ScalarClass>>, PageError>
    ensures { IfOk result (λ index. index.kept.class.kind ≡ Int4) }
{
    let class = ScalarClass {
        kind: ScalarKind::Int4,
    };
    let tree = create_keys(class, pages)?;
    let mut index = Indexed::new(tree);
    fill(alloc, pages, &mut index, ColumnType::Int4)?;
    Ok(index)
}

fn numbers_found(
    alloc: Global,
    pages: &mut MemoryPages,
    index: &Indexed<Tree<ScalarClass>>,
    gone: bool,
) -> Result<bool, PageError>
    requires { index.now.kept.class.kind ≡ Int4 }
{
    let equal = search(alloc, pages, index, Operator::Equal, OperandType::Int4, "7")?;
    let less = search(alloc, pages, index, Operator::Less, OperandType::Int4, "10")?;
    Ok(are_rows(&equal, 7, 8, gone) && are_rows(&less, 0, 10, gone))
}

fn ranges_found(
    alloc: Global,
    pages: &mut MemoryPages,
    index: &Indexed<Tree<RangeClass>>,
    gone: bool,
) -> Result<bool, PageError> {
    let overlaps = search(
        alloc,
        pages,
        index,
        Operator::Overlaps,
        OperandType::Int4Range,
        "[20,25)",
    )?;
    let has = search(
        alloc,
        pages,
        index,
        Operator::Contains,
        OperandType::Int4,
        "31",
    )?;
    Ok(are_rows(&overlaps, 18, 25, gone) && are_rows(&has, 29, 32, gone))
}

fn arrays_found(
    alloc: Global,
    pages: &mut MemoryPages,
    index: &Indexed<Gin<ArrayClass>>,
    gone: bool,
) -> Result<bool, PageError> {
    let has = search(
        alloc,
        pages,
        index,
        Operator::Contains,
        OperandType::Int4Array,
        "{31}",
    )?;
    let equal = search(
        alloc,
        pages,
        index,
        Operator::Equal,
        OperandType::Int4Array,
        "{7,8,9}",
    )?;
    Ok(are_rows(&has, 29, 32, gone) && are_rows(&equal, 7, 8, gone))
}

// The rows of each third number.
fn thirds(alloc: Global) -> Result<Bitmap, Fail> {
    let mut rows = Bitmap::new(alloc);
    for number in 0..ROWS {
        let row = row_of(number);
        if number % 3 == 0 && rows.is_below(row.number) {
            rows.push(row)?;
        }
    }
    Ok(rows)
}

#[test]
fn numbers_by_operator(rt: HostRuntime) -> Result<(), Fail> {
    let alloc = rt.alloc();
    let mut pages = MemoryPages::new(alloc)?;
    let mut index = numbers(alloc, &mut pages)?;
    assert!(rt; numbers_found(alloc, &mut pages, &index, false)?);
    let gone = thirds(alloc)?;
    index.remove(alloc, &mut pages, &gone)?;
    assert!(rt; numbers_found(alloc, &mut pages, &index, true)?);
    Ok(())
}

#[test]
fn ranges_by_operator(rt: HostRuntime) -> Result<(), Fail> {
    let alloc = rt.alloc();
    let mut pages = MemoryPages::new(alloc)?;
    let tree = create_keys(RangeClass, &mut pages)?;
    let mut index = Indexed::new(tree);
    fill(alloc, &mut pages, &mut index, ColumnType::Int4Range)?;
    assert!(rt; ranges_found(alloc, &mut pages, &index, false)?);
    let gone = thirds(alloc)?;
    index.remove(alloc, &mut pages, &gone)?;
    assert!(rt; ranges_found(alloc, &mut pages, &index, true)?);
    Ok(())
}

#[test]
fn arrays_by_operator(rt: HostRuntime) -> Result<(), Fail> {
    let alloc = rt.alloc();
    let mut pages = MemoryPages::new(alloc)?;
    let gin = create_items(ArrayClass, &mut pages)?;
    let mut index = Indexed::new(gin);
    fill(alloc, &mut pages, &mut index, ColumnType::Int4Array)?;
    assert!(rt; arrays_found(alloc, &mut pages, &index, false)?);
    let gone = thirds(alloc)?;
    index.remove(alloc, &mut pages, &gone)?;
    assert!(rt; arrays_found(alloc, &mut pages, &index, true)?);
    index.drop_all(alloc, &mut pages)?;
    Ok(())
}
