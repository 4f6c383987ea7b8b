//! Laws about the output of a script.

ghost use Rattle.std.specs.Prelude.{◌≡◌, ℕ, List, Some};
ghost use Rattle.book_core.specs.History.{History, IsLegal};
ghost use Rattle.command_core.specs.Records.{Record};
ghost use Rattle.command_core.specs.Statement.{Statement, States};
ghost use Rattle.script_core.specs.Answer.{Answers};
ghost use Rattle.script_core.specs.Script.{AreStatementsOf, Done, IsOutput, RunsAll, Streams};
ghost use Rattle.script_core.specs.declared.outcome.Outcome.{Outcome};

/// A script has exactly one output, whatever its bytes are, and one list of statements and answers that makes it up.
pub fn script_has_one_output()
    ensures exists { (script : List ℕ) → (output : List ℕ) × IsOutput script output }
    ensures one { (script one other : List ℕ) → IsOutput script one → IsOutput script other
        → one ≡ other }
    ensures answers { (script : List ℕ) (one other : List Done)
        → AreStatementsOf script one → AreStatementsOf script other → one ≡ other }
{}

/// After a legal history a statement has exactly one answer, and exactly one history follows. A statement is a command
/// or a block of commands.
pub fn statement_has_one_answer()
    ensures exists { (before : History) (number : ℕ) (statement : Statement) → IsLegal before
        → (own later : List Record) → States number own later statement
        → (answer : List Record) × (after : History)
        × Answers before number statement answer after }
    ensures one { (before after later : History) (number : ℕ) (statement : Statement)
        (one other : List Record)
        → Answers before number statement one after → Answers before number statement other later
        → (one ≡ other) × (after ≡ later) }
{}

/// Two complete runs of one script, with the same old contents of the writer, leave the same contents and report the
/// same numbers.
pub fn complete_runs_agree()
    ensures { (script text : List ℕ) (one one_after other other_after : Streams)
        (outcome reported : Outcome)
        → one.reader.unread ≡ Some script → one.writer.written ≡ Some text
        → other.reader.unread ≡ Some script → other.writer.written ≡ Some text
        → RunsAll one one_after outcome → RunsAll other other_after reported
        → (one_after.writer.written ≡ other_after.writer.written) × (outcome ≡ reported) }
{}
