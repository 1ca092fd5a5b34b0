//! The columns that a condition names.

ghost use Rattle.std.specs.Prelude.{◌≡◌, ℕ, true, length, IfOk, option_copied, option_map};
ghost use Rattle.gx_plan.specs.Bounds.{bound_of};
ghost use Rattle.gx_query.specs.Wanted.{Covers, CoversWhere, is_wanted};

use gx_bytes::NoMemory;
use gx_plan::Bound;
use std::alloc::Global;

/// For each of so many columns whether the condition names it.
pub fn wanted_by(
    alloc: Global,
    columns: usize,
    condition: &Option<Bound>,
) -> Result<Vec<bool>, NoMemory>
    ensures covers { IfOk result (λ wanted. CoversWhere wanted.items (option_map bound_of condition.now)) }
    ensures long { IfOk result (λ wanted. length wanted.items ≡ columns) }
{
    let mut wanted = Vec::new(alloc);
    wanted.resize(columns, false)?;
    if let Some(bound) = condition {
        mark(bound, wanted.as_mut_slice());
    }
    Ok(wanted)
}

/// Marks the columns that a condition names.
fn mark(bound: &Bound, wanted: &mut [bool])
    ensures covers { Covers wanted.new (bound_of bound.now) }
    ensures kept { (n : ℕ) → is_wanted wanted.old n ≡ true → is_wanted wanted.new n ≡ true }
    ensures long { length wanted.new ≡ length wanted.old }
{
    match bound {
        Bound::And(left, right) => {
            mark(left, wanted);
            mark(right, wanted);
        }
        Bound::Or(left, right) => {
            mark(left, wanted);
            mark(right, wanted);
        }
        Bound::Not(inner) => mark(inner, wanted),
        Bound::Atom {
            place,
            op: _,
            operand: _,
        } => want(*place, wanted),
        Bound::IsNull { place, negated: _ } => want(*place, wanted),
    }
}

/// Marks a column.
fn want(place: usize, wanted: &mut [bool])
    ensures marked { is_wanted wanted.new place ≡ true }
    ensures kept { (n : ℕ) → is_wanted wanted.old n ≡ true → is_wanted wanted.new n ≡ true }
    ensures long { length wanted.new ≡ length wanted.old }
{
    if place < wanted.len() {
        wanted[place] = true;
    }
}
