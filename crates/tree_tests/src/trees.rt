//! Trees of int4 keys over pages in memory.

ghost use Rattle.std.specs.Prelude.{IfOk};
ghost use Rattle.gx_scalar.specs.Values.{IsScalar};

use gx_class_scalar::{ScalarClass, ScalarOp, ScalarQuery};
use gx_gist::GistClass;
use gx_gist_tree::Tree;
use gx_pages::{Bitmap, MemoryPages, PageError, Pages, RowRef};
use gx_scalar::{Scalar, ScalarKind};
use gx_slot::SlotPage;
use std::alloc::Global;
use std::test::Fail;

// The value of a type that a number's text spells.
fn scalar_of(alloc: Global, kind: ScalarKind, number: u32) -> Result<Scalar, PageError>
    ensures { IfOk result (λ value. IsScalar kind value) }
{
    let Ok(text) = format!(in alloc; "{number}") else {
        return Err(PageError::Memory);
    };
    let Ok(value) = Scalar::read(alloc, kind, &text) else {
        return Err(PageError::Memory);
    };
    Ok(value)
}

// Inserts a row with a number.
fn insert(
    alloc: Global,
    pages: &mut MemoryPages,
    tree: &mut Tree<ScalarClass>,
    row: RowRef,
    number: u32,
) -> Result<(), PageError> {
    let value = scalar_of(alloc, tree.class.kind, number)?;
    let Ok(key) = tree.class.leaf(alloc, &value) else {
        return Err(PageError::Memory);
    };
    tree.insert(alloc, pages, row, &key)
}

// The rows whose number an operator accepts.
fn search(
    alloc: Global,
    pages: &mut MemoryPages,
    tree: &Tree<ScalarClass>,
    op: ScalarOp,
    number: u32,
) -> Result<Bitmap, Fail> {
    let operand = scalar_of(alloc, tree.class.kind, number)?;
    let rows = tree.search(alloc, pages, &ScalarQuery { op, operand })?;
    Ok(rows)
}

// An empty tree of int4 keys.
fn new_tree(pages: &mut MemoryPages) -> Result<Tree<ScalarClass>, PageError> {
    let class = ScalarClass {
        kind: ScalarKind::Int4,
    };
    Tree::create(class, pages)
}

fn row_of(number: u64) -> RowRef {
    RowRef {
        number,
        page: 7,
        slot: 3,
    }
}

// Numbers from 0 to 1999 in rising order: how many pages there are, and the fetches and rows of a search for 1000.
fn rising(alloc: Global) -> Result<(u64, u64, usize), Fail> {
    let mut pages = MemoryPages::new(alloc)?;
    let mut tree = new_tree(&mut pages)?;
    for number in 0..2000u32 {
        insert(
            alloc,
            &mut pages,
            &mut tree,
            row_of(u64::from(number)),
            number,
        )?;
    }
    let before = pages.fetches();
    let rows = search(alloc, &mut pages, &tree, ScalarOp::Equal, 1000)?;
    let fetches = pages.fetches().saturating_sub(before);
    let count = pages.take()?;
    Ok((count, fetches, rows.len()))
}

#[test]
fn keys_in_rising_order(rt: HostRuntime) -> Result<(), Fail> {
    let (count, fetches, found) = rising(rt.alloc())?;
    assert!(rt; count >= 9 + 2, "{count} pages");
    assert!(rt; fetches <= 3, "{fetches} fetches");
    assert_eq!(rt; found, 1);
    Ok(())
}

const OPERATORS: [ScalarOp; 5] = [
    ScalarOp::Less,
    ScalarOp::LessEqual,
    ScalarOp::Equal,
    ScalarOp::GreaterEqual,
    ScalarOp::Greater,
];

fn holds(op: ScalarOp, value: u32, operand: u32) -> bool {
    match op {
        ScalarOp::Less => value < operand,
        ScalarOp::LessEqual => value <= operand,
        ScalarOp::Equal => value == operand,
        ScalarOp::GreaterEqual => value >= operand,
        ScalarOp::Greater => value > operand,
        _ => false,
    }
}

// The value of a row: each number below 10,007 at most once.
fn value_of(number: u32) -> u32 {
    number % 10007 * 3571 % 10007
}

// Whether a search gives the rows from 0 to 1999 whose value the operator accepts, those of odd numbers only where `odd` is
// given, by rising numbers.
fn finds(
    alloc: Global,
    pages: &mut MemoryPages,
    tree: &Tree<ScalarClass>,
    op: ScalarOp,
    operand: u32,
    odd: bool,
) -> Result<bool, Fail> {
    let rows = search(alloc, pages, tree, op, operand)?;
    let mut found = rows.as_slice().iter();
    for number in 0..2000u32 {
        let wanted = holds(op, value_of(number), operand) && (!odd || number % 2 == 1);
        if wanted && found.next().copied() != Some(row_of(u64::from(number))) {
            return Ok(false);
        }
    }
    Ok(found.next().is_none())
}

fn finds_all(
    alloc: Global,
    pages: &mut MemoryPages,
    tree: &Tree<ScalarClass>,
    odd: bool,
) -> Result<bool, Fail> {
    for op in OPERATORS {
        for operand in [17, 5000] {
            if !finds(alloc, pages, tree, op, operand, odd)? {
                return Ok(false);
            }
        }
    }
    Ok(true)
}

// 2,000 values in a mixed order; the rows with even numbers are removed, and in the end all pages are given back.
fn mixed(alloc: Global) -> Result<(bool, bool), Fail> {
    let mut pages = MemoryPages::new(alloc)?;
    let mut tree = new_tree(&mut pages)?;
    let mut even = Bitmap::new(alloc);
    for number in 0..2000u32 {
        let row = row_of(u64::from(number));
        insert(alloc, &mut pages, &mut tree, row, value_of(number))?;
        if number % 2 == 0 && even.is_below(row.number) {
            even.push(row)?;
        }
    }
    let before = finds_all(alloc, &mut pages, &tree, false)?;
    tree.remove_rows(alloc, &mut pages, &even)?;
    let after = finds_all(alloc, &mut pages, &tree, true)?;
    tree.drop_all(&mut pages)?;
    Ok((before, after))
}

#[test]
fn searches_of_a_mixed_tree(rt: HostRuntime) -> Result<(), Fail> {
    let (before, after) = mixed(rt.alloc())?;
    assert!(rt; before, "all rows");
    assert!(rt; after, "rows of odd numbers");
    Ok(())
}

// Whether an insert below a root page with these slots is refused, with two numbers that differ.
fn refuses(alloc: Global, slots: &SlotPage) -> Result<bool, Fail> {
    let mut pages = MemoryPages::new(alloc)?;
    let mut tree = new_tree(&mut pages)?;
    let root = tree.root();
    if root != 0 {
        pages.put(root, slots.page())?;
    }
    match insert(alloc, &mut pages, &mut tree, row_of(1), 5) {
        Err(
            PageError::Broken {
                page: _,
                expected,
                found,
            },
        ) => Ok(expected != found),
        _ => Ok(false),
    }
}

// The bytes of an item above level 0: page 2, which is the root, with the key from 1 to 9.
const TO_ITSELF: [u8; 16] = [2, 0, 0, 0, 0, 0, 0, 0, 1, 0, 0, 0, 9, 0, 0, 0];

#[test]
fn hostile_roots(rt: HostRuntime) -> Result<(), Fail> {
    let alloc = rt.alloc();
    let mut itself = SlotPage::new(4, 1);
    let _ = itself.add(&TO_ITSELF).is_ok();
    let mut short = SlotPage::new(4, 1);
    let _ = short.add(&TO_ITSELF[..7]).is_ok();
    let mut no_key = SlotPage::new(4, 1);
    let _ = no_key.add(&TO_ITSELF[..12]).is_ok();
    let cases = [
        ("level 50", SlotPage::new(4, 50)),
        ("level 255", SlotPage::new(4, 255)),
        ("no items above level 0", SlotPage::new(4, 3)),
        ("another kind", SlotPage::new(2, 0)),
        ("a child that is the page itself", itself),
        ("an item that is too short", short),
        ("bytes that spell no key", no_key),
    ];
    for (name, slots) in cases {
        assert!(rt; refuses(alloc, &slots)?, "{name}");
    }
    Ok(())
}
