//! Laws about what records mean.

ghost use Rattle.std.specs.Prelude.{◌≡◌, ◌<◌, ℕ, List, length};
ghost use Rattle.command_core.specs.Records.{AreScriptRecords, Record};
ghost use Rattle.command_core.specs.Statement.{FirstStatement};

/// Every sequence of bytes has exactly one list of records.
pub fn script_has_one_list_of_records()
    ensures exists { (script : List ℕ) → (records : List Record) × AreScriptRecords script records }
    ensures one { (script : List ℕ) (one other : List Record)
        → AreScriptRecords script one → AreScriptRecords script other → one ≡ other }
{}

/// A non-empty list of records has exactly one first statement, and only one way in which this takes its records.
pub fn records_have_one_first_statement()
    ensures exists { (number : ℕ) (records : List Record) → 0 < length records
        → FirstStatement number records }
    ensures one { (number : ℕ) (records : List Record) (one other : FirstStatement number records)
        → (one.own ≡ other.own) × (one.later ≡ other.later) × (one.statement ≡ other.statement) }
{}
