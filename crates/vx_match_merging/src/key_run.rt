//! Rows in an order: how two of them compare, and the rows of one key among them.

ghost use Rattle.std.specs.Prelude.{◌≡◌, ◌<◌, ◌≤◌, ◌+◌, ◌++◌, ◌∷◌, [], List, length, take, drop, true};
ghost use Rattle.std.specs.declared.cmp.Ordering.TheVariants.{Less};
ghost use Rattle.vx_rows_values.specs.Values.{Row as Cells};
ghost use Rattle.vx_rows_values.specs.Order.{order_columns, sorted};
ghost use Rattle.vx_rows.specs.View.{row, AreColumns};
ghost use Rattle.vx_match_merging.specs.Keys.{directions, key_of, key_cmp};
ghost use Rattle.vx_match_merging.specs.Merged.{HasMerged, state_at};

use std::cmp::Ordering;
use vx_rows_values::OrderEntry;
use vx_rows_views::Rows;

/// Where the right rows of one key start and end.
#[derive(Clone, Copy)]
pub(crate) struct KeyRun {
    pub start: usize,
    pub end: usize,
}

// Compares two rows, each on the columns of its order, in the directions that both orders have: the first difference decides.
pub(crate) fn compare_rows(
    a: &Rows,
    i: usize,
    a_order: &[OrderEntry],
    b: &Rows,
    j: usize,
    b_order: &[OrderEntry],
) -> Ordering
    requires a { i < length a.now.rows }
    requires a_columns { AreColumns (length a.now.types) (order_columns a_order.now) }
    requires b { j < length b.now.rows }
    requires b_columns { AreColumns (length b.now.types) (order_columns b_order.now) }
    requires alike { directions a_order.now ≡ directions b_order.now }
    ensures { result ≡ key_cmp (directions a_order.now) (key_of a_order.now (row a.now i)) (key_of b_order.now (row b.now j)) }
{
    for place in 0..a_order.len() {
        let entry = a_order[place];
        match entry.compare(a.cell(i, entry.column), b.cell(j, b_order[place].column)) {
            Ordering::Equal => {}
            other => return other,
        }
    }
    Ordering::Equal
}

// Whether the rows up to row i rise, where those before it do.
fn rises_at(rows: &Rows, i: usize, order: &[OrderEntry]) -> bool
    requires row { i < length rows.now.rows }
    requires columns { AreColumns (length rows.now.types) (order_columns order.now) }
    ensures { sorted order.now (take i rows.now.rows) ≡ true → result ≡ sorted order.now (take (i + 1) rows.now.rows) }
{
    i == 0 || compare_rows(rows, i - 1, order, rows, i, order).is_le()
}

// Whether all rows rise, where those before row `from` do, and those from it on.
pub(crate) fn rise_across(rows: &Rows, from: usize, order: &[OrderEntry]) -> bool
    requires row { from ≤ length rows.now.rows }
    requires columns { AreColumns (length rows.now.types) (order_columns order.now) }
    ensures { sorted order.now (take from rows.now.rows) ≡ true → sorted order.now (drop from rows.now.rows) ≡ true → result ≡ sorted order.now rows.now.rows }
{
    from >= rows.len() || rises_at(rows, from, order)
}

// The run of the key of left row i, behind one of the same key or of an earlier one. Right rows that come later may
// belong to it, unless a row is behind it.
pub(crate) fn run_of(
    left: &Rows,
    i: usize,
    left_order: &[OrderEntry],
    right: &Rows,
    right_order: &[OrderEntry],
    from: KeyRun,
) -> KeyRun
    requires row { i < length left.now.rows }
    requires left_columns { AreColumns (length left.now.types) (order_columns left_order.now) }
    requires right_columns { AreColumns (length right.now.types) (order_columns right_order.now) }
    requires alike { directions left_order.now ≡ directions right_order.now }
    requires order { from.start ≤ from.end }
    requires within { from.end ≤ length right.now.rows }
    ensures order { result.start ≤ result.end }
    ensures moved { from.end ≤ result.end }
    ensures within { result.end ≤ length right.now.rows }
    ensures taken { (ls passed : List Cells) → sorted right_order.now (passed ++ right.now.rows) ≡ true
        → HasMerged (state_at left_order.now right_order.now (ls ++ row left.now i ∷ []) passed from.start from.end) (ls ++ row left.now i ∷ []) (passed ++ take from.end right.now.rows)
        → HasMerged (state_at left_order.now right_order.now (ls ++ row left.now i ∷ []) passed result.start result.end) (ls ++ row left.now i ∷ []) (passed ++ take result.end right.now.rows) }
    ensures above { result.end < length right.now.rows → key_cmp (directions left_order.now) (key_of left_order.now (row left.now i)) (key_of right_order.now (row right.now result.end)) ≡ Less }
{
    let mut start = from.start;
    for end in from.end..right.len() {
        let order = compare_rows(left, i, left_order, right, end, right_order);
        if order.is_lt() {
            return KeyRun { start, end };
        }
        if order.is_gt() {
            start = end + 1;
        }
    }
    KeyRun {
        start,
        end: right.len(),
    }
}
