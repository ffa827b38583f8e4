//! Output columns that are copies of input columns, by how an operator copies them, and orders of such columns.

ghost use Rattle.std.specs.Prelude.{◌≡◌, true, [], ◌∷◌};
ghost use Rattle.vx_plan_nodes.specs.DescribeView.{copying_of};
ghost use Rattle.vx_check_rules.specs.Rules.{numbers_eq, is_front, if_some, if_order};
ghost use Rattle.vx_check_rules.specs.Behaviour.{sources, order_sources};

use vx_plan_nodes::Copying;
use vx_rows_values::OrderEntry;

/// Whether each of the output columns is a copy.
pub fn are_copies(copying: Copying<'_>, columns: &[usize]) -> bool
    ensures { result ≡ if_some (sources (copying_of copying.entry) columns.now) (λ cs. true) }
{
    for column in columns {
        if copying.source(*column).is_none() {
            return false;
        }
    }
    true
}

/// Whether the output columns are copies of just these input columns, in order.
pub fn are_copies_of(copying: Copying<'_>, columns: &[usize], inputs: &[usize]) -> bool
    ensures { result ≡ if_some (sources (copying_of copying.entry) columns.now) (numbers_eq inputs.now) }
{
    if columns.len() != inputs.len() {
        return false;
    }
    for (i, column) in columns.iter().enumerate() {
        if copying.source(*column) != Some(inputs[i]) {
            return false;
        }
    }
    true
}

// Whether the entry's column is a copy of the input's, and in the same direction.
fn is_copy_of(copying: Copying<'_>, entry: OrderEntry, input: OrderEntry) -> bool
    ensures { result ≡ if_order (order_sources (copying_of copying.entry) (entry ∷ [])) (λ o. is_front o (input ∷ [])) }
{
    match copying.source(entry.column) {
        Some(column) => column == input.column && entry.falling == input.falling,
        None => false,
    }
}

/// Whether the columns of an order of the output are copies of input columns that begin an order of the input, in its
/// directions.
pub fn begins_with_copies(copying: Copying<'_>, order: &[OrderEntry], input: &[OrderEntry]) -> bool
    ensures { result ≡ if_order (order_sources (copying_of copying.entry) order.now) (λ o. is_front o input.now) }
{
    if input.len() < order.len() {
        return false;
    }
    for (i, entry) in order.iter().enumerate() {
        if !is_copy_of(copying, *entry, input[i]) {
            return false;
        }
    }
    true
}
