//! Laws of the tables, of literals and of rows.

ghost use Rattle.std.specs.Prelude.{◌≡◌, ◌≢◌, ℕ, true, List, Option, Some, Result, Err};
ghost use Rattle.gx_bytes.specs.declared.error.ValueError.{ValueError};
ghost use Rattle.gx_value.specs.declared.literal.Literal.{Literal};
ghost use Rattle.std.specs.List.{list_all};
ghost use Rattle.gx_value.specs.declared.types.ColumnType.{ColumnType};
ghost use Rattle.gx_value.specs.declared.classes.Class.{Class};
ghost use Rattle.gx_value.specs.Operators as operators;
ghost use Rattle.gx_value.specs.Types as types;
ghost use Rattle.gx_value.specs.Types.{all_types, type_number, type_numbered, family_of};
ghost use Rattle.gx_value.specs.Classes.{all_classes, class_number, class_numbered, line, is_only_default, is_found};
ghost use Rattle.gx_value.specs.Values.{Datum, IsValue, IsRow, AreFields};
ghost use Rattle.gx_value.specs.Literals.{IsLiteral, Spells, AnswersLiteral};
ghost use Rattle.gx_value.specs.Rows.{IsRowBytes, SpellsRow, printed};

/// Bytes are those of one row at most, and a row has one list of bytes.
pub fn one_row()
    ensures row { (kinds : List ColumnType) (bytes : List ℕ) (a b : List (Option Datum)) → SpellsRow kinds bytes a → SpellsRow kinds bytes b → a ≡ b }
    ensures bytes { (row : List (Option Datum)) (a b : List ℕ) → IsRowBytes a row → IsRowBytes b row → a ≡ b }
{
    gx_scalar::one_encoding();
    gx_range::one_encoding();
    gx_inet::one_encoding();
    gx_ltree::one_answer();
    gx_hstore::one_encoding();
    gx_json::one_encoding();
    gx_intarr::one_encoding();
    gx_bytes::one_spelling();
}

/// A literal has one answer of [`crate::read_value`], but for want of memory.
pub fn one_answer()
    ensures { (kind : ColumnType) (literal : Literal) (r s : Result (Option Datum) ValueError) → IsLiteral literal → r ≢ Err ValueError.Memory → s ≢ Err ValueError.Memory → AnswersLiteral kind literal r → AnswersLiteral kind literal s → r ≡ s }
{
    gx_scalar::one_answer();
    gx_range::one_answer();
    gx_inet::one_answer();
    gx_ltree::one_answer();
    gx_hstore::one_answer();
    gx_json::one_answer();
    gx_intarr::one_array_answer();
}

/// A row of some types has valid values, so it can be encoded.
pub fn rows_are_valid()
    ensures { (kinds : List ColumnType) (row : List (Option Datum)) → IsRow kinds row → AreFields row }
{}

/// The printed text of a value is read as that value.
pub fn printed_again()
    ensures { (kind : ColumnType) (value : Datum) → IsValue kind value → Spells (family_of kind) (printed kind value) value }
{
    gx_scalar::printed_again();
    gx_range::printed_again();
    gx_inet::printed_again();
    gx_ltree::printed_again();
    gx_hstore::printed_again();
    gx_json::printed_again();
    gx_intarr::printed_again();
}

/// A number names one type or class, a name one class, and a method has one default for a type at most.
pub fn tables()
    ensures types { (kind : ColumnType) → type_numbered (type_number kind) ≡ Some kind }
    ensures classes { (class : Class) → class_numbered (class_number class) ≡ Some class }
    ensures names { (a b : Class) → (line a).word ≡ (line b).word → a ≡ b }
    ensures defaults { list_all (λ class. list_all (is_only_default class) all_types) all_classes ≡ true }
{}

/// No line of a table stands in vain: each word names the type of its line, each operator of a line takes the operands of
/// that line, and each class is the one that is found by its method, its name and each of its types.
pub fn lines_count()
    ensures words { list_all (types.counts types.words) types.words ≡ true }
    ensures lists { list_all (types.counts types.list_words) types.list_words ≡ true }
    ensures operators { list_all (λ kind. list_all (operators.counts (operators.lines kind)) (operators.lines kind)) all_types ≡ true }
    ensures classes { list_all is_found all_classes ≡ true }
{}
