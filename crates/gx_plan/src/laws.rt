//! What makes a plan safe to follow.

ghost use Rattle.gx_plan.specs.Losing.{LosesNone};

/// A plan loses no row: each row of the table of which the condition is true is among those that the plan finds, whatever
/// indexes it takes.
pub fn loses_none()
    ensures { LosesNone }
{
    gx_candidates::candidates_see();
}
