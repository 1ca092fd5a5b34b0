//! Laws of operators and of literals.

ghost use Rattle.std.specs.Prelude.{◌≡◌, ◌≢◌, ◌↔◌, true, Option, IsTrue, Result, Err};
ghost use Rattle.gx_bytes.specs.declared.error.ValueError.{ValueError};
ghost use Rattle.gx_value.specs.declared.literal.Literal.{Literal};
ghost use Rattle.gx_value.specs.declared.operators.Operator.{Operator};
ghost use Rattle.gx_value.specs.declared.types.OperandType.{OperandType};
ghost use Rattle.gx_value.specs.Literals.{IsLiteral};
ghost use Rattle.gx_value.specs.Values.{Datum};
ghost use Rattle.gx_opr.specs.Decisions.{holds};
ghost use Rattle.gx_opr.specs.Literals.{AnswersOperand};
ghost use Rattle.gx_opr.specs.Operands.{Right};
ghost use Rattle.gx_opr.specs.Operators.{Holds};

/// Each operator is decided, whatever its sides: `holds` is true exactly where the relation holds.
pub fn decided()
    ensures { (op : Operator) (value : Datum) (right : Right) → IsTrue (holds op value right) ↔ Holds op value right }
{
    gx_range::decided();
    gx_inet::decided();
    gx_ltree::holds_decided();
    gx_lquery::matching_decided();
    gx_hstore::decided();
    gx_intarr::holds_decided();
    gx_json::decided();
}

/// A literal has one answer of [`crate::read_operand`], but for want of memory: one right side, NULL, or one error.
pub fn one_operand()
    ensures { (kind : OperandType) (literal : Literal) (r s : Result (Option Right) ValueError) → IsLiteral literal → r ≢ Err ValueError.Memory → s ≢ Err ValueError.Memory → AnswersOperand kind literal r → AnswersOperand kind literal s → r ≡ s }
{
    gx_value::one_answer();
    gx_lquery::one_answer();
    gx_intarr::one_answer();
}
