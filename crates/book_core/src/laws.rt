//! Laws about histories.

ghost use Rattle.std.specs.Prelude.{◌≡◌, ◌≤◌, ℕ, List, None, Contains, nat_le, nat_lt};
ghost use Rattle.row_core.specs.Rows.{RowsRise};
ghost use Rattle.row_core.specs.declared.row.Row.{Row};
ghost use Rattle.version_core.specs.declared.version.Version.{Version};
ghost use Rattle.book_core.specs.History.{History, IsLegal, between_refusal, rows_at};
ghost use Rattle.book_core.specs.Versions.{AreBetween, AreFromTo};

/// The versions of a table that a query selects are at most one list; if they may be read, and the history is legal,
/// there is such a list.
pub fn history_has_one_list_of_versions()
    ensures between_exists { (h : History) (at m n : ℕ) (name : List ℕ)
        → IsLegal h → between_refusal h at (nat_lt n m) name ≡ None
        → (versions : List Version) × AreBetween h at m n name versions }
    ensures between_one { (h : History) (at m n : ℕ) (name : List ℕ) (one other : List Version)
        → AreBetween h at m n name one → AreBetween h at m n name other → one ≡ other }
    ensures from_to_exists { (h : History) (at m n : ℕ) (name : List ℕ)
        → IsLegal h → between_refusal h at (nat_le n m) name ≡ None
        → (versions : List Version) × AreFromTo h at m n name versions }
    ensures from_to_one { (h : History) (at m n : ℕ) (name : List ℕ) (one other : List Version)
        → AreFromTo h at m n name one → AreFromTo h at m n name other → one ≡ other }
{}

/// The rows visible as of a commit are ordered by rising id.
pub fn rows_rise()
    ensures { (h : History) (n : ℕ) (name : List ℕ) → RowsRise (rows_at h n name) }
{}

/// No id of a table is used again: rows with the same id are the same row, whatever the commit, and a row that is no
/// longer visible doesn't return.
pub fn no_id_is_used_again()
    ensures one { (h : History) (n m : ℕ) (name : List ℕ) (r s : Row)
        → Contains (rows_at h n name) r → Contains (rows_at h m name) s → r.id ≡ s.id → r ≡ s }
    ensures lasts { (h : History) (n m k : ℕ) (name : List ℕ) (r : Row) → n ≤ m → m ≤ k
        → Contains (rows_at h n name) r → Contains (rows_at h k name) r
        → Contains (rows_at h m name) r }
{}
