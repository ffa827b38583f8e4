//! What columns of a node determine by its fixed and equal columns and by keys.

ghost use Rattle.std.specs.Prelude.{◌≡◌, ◌<◌, ◌≤◌, ◌&&◌, ◌||◌, ℕ, nat_lt, map, length};
ghost use Rattle.std.specs.List.{list_any, list_all};
ghost use Rattle.vx_rows_values.specs.Limits.{max_columns};
ghost use Rattle.vx_rows_values.specs.Lists.{is_some_list};
ghost use Rattle.vx_plan_facts.specs.Equal.{Equality};
ghost use Rattle.vx_plan_facts.specs.Fixed.{Values};
ghost use Rattle.vx_plan_facts.specs.Facts.{Keeps, values_in};
ghost use Rattle.vx_plan_facts.specs.FactsView.{fixed_of, facts_of};
ghost use Rattle.vx_plan_facts.specs.ColumnSetView.{set_of_columns};
ghost use Rattle.vx_plan_facts.specs.Closing.{has_first, is_reached, IsClosed};

use crate::column_set::ColumnSet;
use crate::facts::{ColumnFacts, FixedColumn};

// Puts each column in beside which a value stands.
fn put_fixed(fixed: &[FixedColumn<'_>], firsts: &mut ColumnSet)
    ensures { (v : ℕ) → v < max_columns → set_of_columns firsts.new v ≡ (set_of_columns firsts.old v || is_some_list (values_in (map fixed_of fixed.now) v)) }
{
    for each in fixed {
        firsts.put(each.column);
    }
}

// Puts the first column of each class in that has a column of the set.
fn put_firsts(own: &ColumnFacts<'_>, set: &ColumnSet, firsts: &mut ColumnSet)
    ensures { (v : ℕ) → v < max_columns → set_of_columns firsts.new v ≡ (set_of_columns firsts.old v || has_first (facts_of own.now) (set_of_columns set.now) (length (facts_of own.now).firsts) v) }
{
    for column in 0..own.width() {
        if set.contains(column) {
            firsts.put(own.firsts[column]);
        }
    }
}

// The fixed columns, those of the set, and those that are equal to them.
fn with_equal(own: &ColumnFacts<'_>, set: &ColumnSet) -> ColumnSet
    requires { length (facts_of own.now).firsts ≤ max_columns }
    ensures { (c : ℕ) → c < max_columns → set_of_columns result c ≡ (nat_lt c (length (facts_of own.now).firsts) && is_reached (facts_of own.now) (set_of_columns set.now) c) }
{
    let mut firsts = ColumnSet::new();
    put_fixed(own.fixed.as_slice(), &mut firsts);
    put_firsts(own, set, &mut firsts);
    let mut found = ColumnSet::new();
    for column in 0..own.width() {
        if firsts.contains(own.firsts[column]) {
            found.put(column);
        }
    }
    found
}

// Whether all columns of a key are in the set.
fn has_key(keys: &[Vec<usize>], set: &ColumnSet) -> bool
    ensures { result ≡ list_any (λ k. list_all (set_of_columns set.now) k.items) keys.now }
{
    keys.iter().any(|key| set.contains_all(key.as_slice()))
}

/// The columns that those of the set determine, but for what inputs say.
pub fn closed(own: &ColumnFacts<'_>, keys: &[Vec<usize>], set: &ColumnSet) -> ColumnSet
    requires { length (facts_of own.now).firsts ≤ max_columns }
    ensures { (e : Equality) (f : Values) → Keeps (length (facts_of own.now).firsts) e f (facts_of own.now)
        → IsClosed (length (facts_of own.now).firsts) e f (map (λ k. k.items) keys.now) (set_of_columns set.now) (set_of_columns result) }
{
    let found = with_equal(own, set);
    if has_key(keys, &found) {
        return ColumnSet::first(own.width());
    }
    found
}
