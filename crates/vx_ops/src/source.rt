//! Operators that return rows turn by turn (Volcano's iterators, which do not hold their inputs here).

use crate::turn::{Got, Polled, Want};

/// Calls: `(wants turn)*`.
///
/// An operator that does not hold its inputs: it says what it wants, and gets it as the argument of its next turn.
pub trait Source {
    ghost use Rattle.std.specs.Prelude.{ℕ, ◌≡◌, ◌≤◌};
    ghost use Rattle.vx_ops.specs.Ledger.{Ledger, Op, Abides};
    ghost use Rattle.vx_ops.specs.Turn.{Shape, Fits, GotTyped, GivesRows, after, Again, WishesOpen, Coming, IsWithin, with_rows, own_turn, Pays};
    ghost use Rattle.vx_ops.specs.declared.turn.Want.{Want};

    // That this source may have received and returned what the ledger says.
    ghost Stands: { Self → Ledger → Type 0 };

    // What the source does.
    ghost op: { Self → Op };

    // The types of its inputs' rows and of its own.
    ghost types: { Self → Shape };

    // What the source wants next.
    ghost want: { Self → Want };

    // The most rows that it may still return, if the rows counted by the `Coming` argument may still come. Rows that came and rows
    // that may come count alike, so it never rises; a row that is returned is one less.
    ghost most: { Self → Coming → ℕ };

    // The most turns of its own in which it may still return nothing, if the rows counted by `Coming` may still come. It never rises
    // either, and each such turn is one less. So what it does without its inputs comes to an end.
    ghost idle: { Self → Coming → ℕ };

    /// What it wants before its next turn: an input of its own that has not ended, or nothing.
    fn wants(&self) -> Want
        ensures want { result ≡ want self.now }
        ensures wishes { (l : Ledger) → Stands self.now l → WishesOpen result (op self.now) l };

    /// One turn with what it wants. Running out of memory is a fault.
    fn turn(&mut self, got: Got) -> Polled
        requires fits { Fits (want self.old) got }
        requires typed { GotTyped (types self.old) (want self.old) got }
        ensures stands { (l : Ledger) → Stands self.old l → Stands self.new (after l (want self.old) got result) }
        ensures again { (l : Ledger) → Stands self.old l → Again l.gave.over result }
        ensures gives { GivesRows (types self.old).out result }
        ensures pays { (c : Coming) → Pays (own_turn got)
            (most self.old (with_rows (want self.old) got c)) (idle self.old (with_rows (want self.old) got c)) (most self.new c) (idle self.new c) result }
        ensures op { op self.new ≡ op self.old }
        ensures types { types self.new ≡ types self.old };

    // What is known of a source that stands.
    ghost abides: { (s : Self) (l : Ledger) → Stands s l → Abides (op s) l };

    // Where less may still come, it may return no more rows.
    ghost most_grows: { (s : Self) (a b : Coming) → IsWithin a b → most s a ≤ most s b };

    // Nor may it be idle more often.
    ghost idle_grows: { (s : Self) (a b : Coming) → IsWithin a b → idle s a ≤ idle s b };
}
