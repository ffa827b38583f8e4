//! Classes of equal columns, each by its first column, and how conditions and pairs put two of them together.

ghost use Rattle.std.specs.Prelude.{◌≡◌, ◌<◌, ◌+◌, ◌==◌, true, [], ◌∷◌, map, length, IfOk};
ghost use Rattle.std.specs.List.{list_all};
ghost use Rattle.vx_plan_nodes.specs.Outline.{condition_of, filter_of};
ghost use Rattle.vx_plan_nodes.specs.Phases.{first_columns};
ghost use Rattle.vx_plan_facts.specs.Equal.{Equality, with_pair, with_test, with_conditions, with_pairs, comparisons};
ghost use Rattle.vx_plan_facts.specs.Facts.{NamesFirsts, Tells};
ghost use Rattle.vx_plan_facts.specs.Labels.{AreReplaced};
ghost use Rattle.vx_plan_facts.specs.Naming.{condition_within, filter_within, pair_within};

use std::alloc::{AllocError, Global};
use vx_plan_nodes::{Condition, Filter, Side};
use vx_rows_values::Test;

/// Each of so many columns in a class of its own.
pub fn each_itself(alloc: Global, width: usize) -> Result<Vec<usize>, AllocError>
    ensures { IfOk result (λ v. v.items ≡ first_columns width) }
{
    let mut firsts = Vec::new(alloc);
    for column in 0..width {
        firsts.push(column)?;
    }
    Ok(firsts)
}

// Puts one first column in the place of another.
fn replace(firsts: &mut Vec<usize>, lost: usize, kept: usize)
    ensures wide { length firsts.new.items ≡ length firsts.old.items }
    ensures each { AreReplaced lost kept firsts.old.items firsts.new.items }
{
    for column in 0..firsts.len() {
        if firsts[column] == lost {
            firsts[column] = kept;
        }
    }
}

// Puts the classes of two columns together.
fn merge(firsts: &mut Vec<usize>, a: usize, b: usize)
    requires named { NamesFirsts firsts.old.items }
    requires a { a < length firsts.old.items }
    requires b { b < length firsts.old.items }
    ensures wide { length firsts.new.items ≡ length firsts.old.items }
    ensures named { NamesFirsts firsts.new.items }
    ensures equal { (e : Equality) → Tells e firsts.old.items → Tells (with_pair a b e) firsts.new.items }
{
    let first = firsts[a];
    let other = firsts[b];
    if first < other {
        replace(firsts, other, first);
    } else {
        replace(firsts, first, other);
    }
}

// Puts the classes of two columns together that a condition says are equal.
fn merge_tested(firsts: &mut Vec<usize>, condition: &Condition)
    requires named { NamesFirsts firsts.old.items }
    requires within { condition_within (length firsts.old.items) (condition_of condition.now) ≡ true }
    ensures wide { length firsts.new.items ≡ length firsts.old.items }
    ensures named { NamesFirsts firsts.new.items }
    ensures equal { (e : Equality) → Tells e firsts.old.items
        → Tells (with_test (condition_of condition.now).left (condition_of condition.now).test (condition_of condition.now).right e) firsts.new.items }
{
    if let (Test::Equal, Side::Column(right)) = (condition.test, &condition.right) {
        merge(firsts, condition.left, *right);
    }
}

// Puts the classes of two columns together that a comparison says are equal.
fn merge_filter(firsts: &mut Vec<usize>, filter: &Filter)
    requires named { NamesFirsts firsts.old.items }
    requires within { filter_within (length firsts.old.items) (filter_of filter.now) ≡ true }
    ensures wide { length firsts.new.items ≡ length firsts.old.items }
    ensures named { NamesFirsts firsts.new.items }
    ensures equal { (e : Equality) → Tells e firsts.old.items → Tells (with_conditions (comparisons (filter_of filter.now ∷ [])) e) firsts.new.items }
{
    if let Filter::Compared(condition) = filter {
        merge_tested(firsts, condition);
    }
}

/// Puts the classes of columns together that comparisons say are equal.
pub fn merge_conditions(firsts: &mut Vec<usize>, filters: &[Filter])
    requires named { NamesFirsts firsts.old.items }
    requires within { list_all (filter_within (length firsts.old.items)) (map filter_of filters.now) ≡ true }
    ensures wide { length firsts.new.items ≡ length firsts.old.items }
    ensures named { NamesFirsts firsts.new.items }
    ensures equal { (e : Equality) → Tells e firsts.old.items → Tells (with_conditions (comparisons (map filter_of filters.now)) e) firsts.new.items }
{
    for done in 0..filters.len() {
        merge_filter(firsts, &filters[filters.len() - 1 - done]);
    }
}

/// Puts the classes of the columns of each pair together, whose right columns stand behind so many left ones.
pub fn merge_pairs(firsts: &mut Vec<usize>, left: usize, right: usize, on: &[(usize, usize)])
    requires named { NamesFirsts firsts.old.items }
    requires wide { length firsts.old.items ≡ left + right }
    requires within { list_all (pair_within left right) on.now ≡ true }
    ensures wide { length firsts.new.items ≡ length firsts.old.items }
    ensures named { NamesFirsts firsts.new.items }
    ensures equal { (e : Equality) → Tells e firsts.old.items → Tells (with_pairs left on.now e) firsts.new.items }
{
    for done in 0..on.len() {
        let pair = on[on.len() - 1 - done];
        merge(firsts, pair.0, left + pair.1);
    }
}
