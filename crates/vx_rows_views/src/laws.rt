//! What selections mean.

ghost use Rattle.std.specs.Prelude.{◌≡◌, Bool, map, filter};
ghost use Rattle.vx_rows_values.specs.Values.{Row};
ghost use Rattle.vx_rows.specs.View.{RowsView, row};
ghost use Rattle.vx_rows_views.specs.Selected.{places_of};

/// The rows at the places of those that pass a test are the rows that pass it, in their order. It does nothing: a
/// caller who needs the fact calls it.
pub fn places_are_a_filter()
    ensures { (test : Row → Bool) (rows : RowsView) → map (row rows) (places_of test rows.rows) ≡ filter test rows.rows }
{}
