//! What one input of a join by merging asks for.

ghost use Rattle.std.specs.Prelude.{◌≡◌, ◌<◌, ℕ, true, List, IfOk, OnOk};
ghost use Rattle.vx_catalog_relations.specs.Relation.{Relation};
ghost use Rattle.vx_catalog_relations.specs.Catalog.{relation_at, all_below};
ghost use Rattle.vx_plan_nodes.specs.Outline.{plan_of};
ghost use Rattle.vx_plan_nodes.specs.Plan.{claim};
ghost use Rattle.vx_plan_nodes.specs.Types.{width};
ghost use Rattle.vx_plan_facts.specs.ColumnSetView.{set_of_columns};
ghost use Rattle.vx_plan_facts.specs.Following.{short};
ghost use Rattle.vx_check_rules.specs.Seen.{columns_seen};
ghost use Rattle.vx_check_rules.specs.TableView.{derives, Judges, StaysTable};
ghost use Rattle.vx_check_directions.specs.Finding.{AreAsked};
ghost use Rattle.vx_check_directions.specs.Directed.{ask, behind, determined_by, asks};

use std::alloc::{AllocError, Global};
use vx_check_rules::{ColumnsSeen, Table, claimed_order, short};
use vx_plan_facts::ColumnSet;
use vx_plan_nodes::TypedNode;
use vx_rows_values::OrderEntry;

// The columns of a node that those of a set determine, as the table knows it: the first one knows none.
fn determined(table: &mut Table<'_>, node: &TypedNode, set: &ColumnSet) -> ColumnSet
    requires { (catalog : List Relation) × Judges catalog table.old (plan_of node.now) }
    ensures answer { (catalog : List Relation) → Judges catalog table.old (plan_of node.now) → (c : ℕ) → (derives table.old ≡ true → c < width (relation_at catalog) (plan_of node.now))
        → set_of_columns result c ≡ determined_by (derives table.old) (relation_at catalog) (plan_of node.now) (set_of_columns set.now) c }
    ensures stays { StaysTable table.old table.new (plan_of node.now) }
{
    match table {
        Table::First => ColumnSet::new(),
        Table::Second(known) => known.determined(node, set),
    }
}

// The entries of a node's claimed order whose columns those before them do not determine.
fn asking_entries(
    alloc: Global,
    table: &mut Table<'_>,
    node: &TypedNode,
) -> Result<Vec<OrderEntry>, AllocError>
    requires { (catalog : List Relation) × Judges catalog table.old (plan_of node.now) }
    ensures short { (catalog : List Relation) → Judges catalog table.old (plan_of node.now)
        → IfOk result (λ v. v.items ≡ short (determined_by (derives table.old) (relation_at catalog) (plan_of node.now)) (claim (plan_of node.now)).order) }
    ensures stays { OnOk result (StaysTable table.old table.new (plan_of node.now)) }
{
    let order = claimed_order(node);
    match table {
        Table::First => Vec::from_slice(alloc, order),
        Table::Second(known) => {
            let short = short(node, known, order);
            Vec::from_slice(alloc, short.as_slice())
        }
    }
}

// The direction of the next entry of an order, which rises past its end; none of a column that is determined.
fn ask(is_determined: bool, order: &[OrderEntry]) -> Option<bool>
    ensures { result ≡ ask is_determined order.now }
{
    match order {
        _ if is_determined => None,
        [first, ..] => Some(first.falling),
        [] => Some(false),
    }
}

// What is left of an order behind a column.
fn behind(is_determined: bool, order: &[OrderEntry]) -> &[OrderEntry]
    ensures { result.now ≡ behind is_determined order.now }
{
    match order {
        [_, rest @ ..] if !is_determined => rest,
        _ => order,
    }
}

/// The direction that the claimed order of an input asks for each of these columns, if it asks for one.
pub fn asks(
    alloc: Global,
    table: &mut Table<'_>,
    node: &TypedNode,
    columns: ColumnsSeen<'_>,
) -> Result<Vec<Option<bool>>, AllocError>
    requires { (catalog : List Relation) × AreAsked catalog table.old (plan_of node.now) (columns_seen columns) }
    ensures asks { (catalog : List Relation) → AreAsked catalog table.old (plan_of node.now) (columns_seen columns.entry)
        → IfOk result (λ v. v.items ≡ asks (derives table.old) (relation_at catalog) (plan_of node.now) (columns_seen columns.entry)) }
    ensures stays { OnOk result (StaysTable table.old table.new (plan_of node.now)) }
{
    let entries = asking_entries(alloc, table, node)?;
    let mut rest = entries.as_slice();
    let mut passed = ColumnSet::new();
    let mut asked = Vec::new(alloc);
    for place in 0..columns.len() {
        let column = columns.at(place);
        let is_determined = determined(table, node, &passed).contains(column);
        asked.push(ask(is_determined, rest))?;
        rest = behind(is_determined, rest);
        passed.put(column);
    }
    Ok(asked)
}
