//! Columns by labels: those with one label are equal.

ghost use Rattle.std.specs.Prelude.{◌≡◌, ◌<◌, ◌≤◌, ◌==◌, ℕ, true, false, length, IfOk};
ghost use Rattle.vx_plan_facts.specs.Facts.{NamesFirsts};
ghost use Rattle.vx_plan_facts.specs.Labels.{label_eq, label_at, SameLabels};

use std::alloc::{AllocError, Global};

/// What a column is equal by.
pub type Label = (usize, usize);

fn are_alike(a: Label, b: Label) -> bool
    ensures { result ≡ label_eq a b }
{
    a.0 == b.0 && a.1 == b.1
}

// The first column with the same label.
fn first_alike(labels: &[Label], column: usize) -> usize
    requires { column < length labels.now }
    ensures before { result ≤ column }
    ensures alike { label_eq (label_at labels.now result) (label_at labels.now column) ≡ true }
    ensures first { (d : ℕ) → d < result → label_eq (label_at labels.now d) (label_at labels.now column) ≡ false }
{
    for earlier in 0..column {
        if are_alike(labels[earlier], labels[column]) {
            return earlier;
        }
    }
    column
}

/// For each column the first one with the same label.
pub fn firsts_of(alloc: Global, labels: &[Label]) -> Result<Vec<usize>, AllocError>
    ensures wide { IfOk result (λ v. length v.items ≡ length labels.now) }
    ensures named { IfOk result (λ v. NamesFirsts v.items) }
    ensures equal { IfOk result (λ v. SameLabels labels.now v.items) }
{
    let mut firsts = Vec::new(alloc);
    for column in 0..labels.len() {
        firsts.push(first_alike(labels, column))?;
    }
    Ok(firsts)
}
