//! Laws of the model, which say what its definitions come to.

ghost use Rattle.std.specs.Prelude.{◌≡◌, ◌↔◌, ℕ, ◌-◌, min, max, false, List, [], ◌++◌, length, codes, Option, Some, None, IsSome};
ghost use Rattle.std.specs.Fmt.{decimal};
ghost use Rattle.std.specs.List.{flat_map};
ghost use Rattle.gx_value.specs.declared.operators.Operator.{Operator};
ghost use Rattle.gx_value.specs.Values.{Datum};
ghost use Rattle.gx_parse.specs.Answers.{says};
ghost use Rattle.gx_parse.specs.declared.statement.Given.{Given};
ghost use Rattle.gx_parse.specs.Said.{Said, Insert, Delete, Rollback};
ghost use Rattle.gx_parse.specs.Sound.{IsSound};
ghost use Rattle.gx_parse.specs.Trees.{Tree};
ghost use Rattle.gx_model.specs.Conditions.{BindsWhere};
ghost use Rattle.gx_model.specs.Database.{Database, Table, Row, IsIn, IsValid, table_named, with_rows};
ghost use Rattle.gx_model.specs.Plans.{Whole, plan_where, found};
ghost use Rattle.gx_model.specs.Replies.{line, row_line};
ghost use Rattle.gx_model.specs.Runs.{State, Done, AreDone, HasRoom};
ghost use Rattle.gx_model.specs.Steps.{Stepped, Steps, Accepts, select_all, HasShortNames};
ghost use Rattle.gx_model.specs.Totality.{AreTotal};
ghost use Rattle.gx_model.specs.Truth.{Bound, Operand, Truth, Unknown, rank, and_of, or_of, not_of, truth_of_atom, selects};
ghost use Rattle.gx_model.specs.Turns.{Session, AreValid, session_over, refused_in, Turned, Turns, TurnCosts, reading_of};
ghost use Rattle.gx_model.specs.Values.{named, ReadsRows};

/// A refused statement changes nothing; in a session it makes an open block fail, and else changes nothing.
pub fn refused_changes_nothing()
    ensures step { (db : Database) (said : Said) (stepped : Stepped) → Steps db said stepped → IsSome stepped.reply.fault → stepped.database ≡ db }
    ensures turn { (session : Session) (piece : List ℕ) (turned : Turned) → Turns session piece turned → IsSome turned.reply.fault → turned.session ≡ refused_in session }
    ensures growth { (session : Session) (piece : List ℕ) (turned : Turned) → Turns session piece turned → IsSome turned.reply.fault → turned.growth ≡ 0 }
{}

/// An accepted INSERT leaves the rows of before and the new ones behind them, in order, and a SELECT of the whole table
/// then answers a line for each of them in this order.
pub fn inserted_rows()
    ensures rows { (db : Database) (name : List ℕ) (listed : Option (List (List ℕ))) (given : List (List Given)) (stepped : Stepped) (t : Table)
        → Accepts db (Insert name listed given) stepped → table_named db name ≡ Some t
        → (added : List (List (Option Datum))) × ReadsRows t.columns (named t.columns listed) given added × (table_named stepped.database name ≡ Some (with_rows t added)) }
    ensures selected { (db : Database) (name : List ℕ) (stepped : Stepped) (t : Table) → table_named db name ≡ Some t → Accepts db (select_all name) stepped
        → stepped.reply.bytes ≡ flat_map (row_line t.columns t.columns) t.rows ++ line (codes "SELECT " ++ decimal (length t.rows)) }
{}

/// An accepted DELETE leaves exactly the rows of which its condition isn't true.
pub fn deleted_rows()
    ensures { (db : Database) (name : List ℕ) (tree : Option Tree) (stepped : Stepped) (t : Table)
        → Accepts db (Delete name tree) stepped → table_named db name ≡ Some t
        → (condition : Option Bound) × (rows : List Row) × BindsWhere t.columns tree condition × (table_named stepped.database name ≡ Some (record t { rows = rows }))
        × ((row : Row) → IsIn row rows ↔ (IsIn row t.rows × (selects condition row.fields ≡ false))) }
{}

/// ROLLBACK gives back the committed database, and no block is open behind it.
pub fn rolled_back()
    ensures { (session : Session) (piece : List ℕ) (turned : Turned) → reading_of piece ≡ Some (says Rollback) → Turns session piece turned
        → turned.session ≡ session_over session.committed }
{}

/// A statement steps a database in one way, and a piece turns a session in one way and has one cost in it.
pub fn one_turn()
    ensures step { (db : Database) (said : Said) (a b : Stepped) → Steps db said a → Steps db said b → a ≡ b }
    ensures turn { (session : Session) (piece : List ℕ) (a b : Turned) → Turns session piece a → Turns session piece b → a ≡ b }
    ensures cost { (session : Session) (piece : List ℕ) (a b : ℕ) → TurnCosts session piece a → TurnCosts session piece b → a ≡ b }
{
    gx_value::one_answer();
    gx_value::one_row();
    gx_opr::one_operand();
}

/// Every statement that is read steps a valid database, and every piece turns a valid session, where each literal is read or
/// refused and each row has its bytes.
pub fn each_turn()
    ensures step { AreTotal → (db : Database) (said : Said) → IsValid db → IsSound said → (stepped : Stepped) × Steps db said stepped }
    ensures turn { AreTotal → (session : Session) (piece : List ℕ) → AreValid session → (turned : Turned) × Turns session piece turned }
{
    gx_parse::sound_statements();
}

/// Every step of a valid database leaves a valid one, where the names that the statement gives are no longer than names may
/// be, as those of each statement that is read are; and every turn of a valid session leaves a valid session.
pub fn stays_valid()
    ensures step { (db : Database) (said : Said) (stepped : Stepped) → IsValid db → HasShortNames said → Steps db said stepped → IsValid stepped.database }
    ensures sound { (db : Database) (said : Said) (stepped : Stepped) → IsValid db → IsSound said → Steps db said stepped → IsValid stepped.database }
    ensures turn { (session : Session) (piece : List ℕ) (turned : Turned) → AreValid session → Turns session piece turned → AreValid turned.session }
{
    gx_parse::sound_statements();
    gx_value::one_answer();
    gx_value::one_row();
    gx_opr::one_operand();
}

/// AND is the least and OR the greatest of false, unknown and true, which rise in this order, and NOT turns them round. An
/// operator is unknown of NULL.
pub fn three_values()
    ensures least { (a b : Truth) → rank (and_of a b) ≡ min (rank a) (rank b) }
    ensures greatest { (a b : Truth) → rank (or_of a b) ≡ max (rank a) (rank b) }
    ensures turned { (a : Truth) → rank (not_of a) ≡ 2 - rank a }
    ensures null { (op : Operator) (operand : Option Operand) → truth_of_atom op None operand ≡ Unknown }
{}

/// Where the plan of a condition is the whole table, as it is without indexes, each row is found.
pub fn whole_tables()
    ensures found { (db : Database) (t : Table) (condition : Option Bound) → plan_where db t condition ≡ Whole → found db t condition ≡ t.rows }
    ensures bare { (db : Database) (t : Table) (condition : Option Bound) → db.indexes ≡ [] → plan_where db t condition ≡ Whole }
{}

/// Where there is room for all that the pieces may add, as many of them are done in one way.
pub fn one_run()
    ensures { (from : State) (pieces : List (List ℕ)) (a b : List Done) → HasRoom from pieces → AreDone from pieces a → AreDone from pieces b → length a ≡ length b → a ≡ b }
{
    gx_value::one_answer();
    gx_value::one_row();
    gx_opr::one_operand();
}
