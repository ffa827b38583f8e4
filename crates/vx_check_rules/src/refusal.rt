//! The first refused node of a plan.

ghost use Rattle.std.specs.Prelude.{◌≡◌, true, option_map, List};
ghost use Rattle.vx_catalog_relations.specs.Relation.{Relation};
ghost use Rattle.vx_catalog_relations.specs.Catalog.{relation_at};
ghost use Rattle.vx_plan_nodes.specs.Plan.{number};
ghost use Rattle.vx_plan_nodes.specs.Outline.{outline_of, plan_of};
ghost use Rattle.vx_plan_nodes.specs.Outputs.{HasOutputs};
ghost use Rattle.vx_check_rules.specs.Refusal.{first_failure, refused_at, first_failing};
ghost use Rattle.vx_check_rules.specs.Tables.{tests_by, root_tests_by, refusal_by};
ghost use Rattle.vx_check_rules.specs.TableView.{derives, Judges, StaysTable};
ghost use Rattle.vx_check_rules.specs.Exactly.{keys_name_columns, KeysNameColumns};
ghost use Rattle.vx_check_rules.specs.RuleView.{rule_of, refusal_of};

use crate::inputs::{do_sizes_match, is_not_replicated};
use crate::nodes::has_one_worker;
use crate::rule::Rule;
use crate::table::Table;
use vx_catalog_relations::Catalog;
use vx_plan_nodes::TypedNode;

/// The first of a node's tests that fails, where the node is judged by what it and its inputs claim, and by the second
/// table also by what is known of columns.
pub fn failure_at(catalog: &Catalog, table: &mut Table<'_>, node: &TypedNode) -> Option<Rule>
    requires judges { Judges catalog.now table.old (plan_of node.now) }
    requires outputs { HasOutputs (relation_at catalog.now) (outline_of node.now) }
    requires keys { keys_name_columns (relation_at catalog.now) (plan_of node.now) ≡ true }
    ensures failure { option_map rule_of result ≡ first_failure (tests_by (derives table.old) (relation_at catalog.now) (plan_of node.now)) }
    ensures stays { StaysTable table.old table.new (plan_of node.now) }
{
    if !do_sizes_match(node) {
        return Some(Rule::SizeMismatch);
    }
    if !is_not_replicated(node) {
        return Some(Rule::ReplicatedInput);
    }
    if !table.do_inputs_match(node) {
        return Some(Rule::InputsNotMatched);
    }
    if !table.is_order_given(node) {
        return Some(Rule::OrderNeeded);
    }
    if !table.are_first_rows_known(node) {
        return Some(Rule::FirstRowsOpen);
    }
    if !table.is_part_shown(node) {
        return Some(Rule::PartNotShown);
    }
    if !table.is_order_shown(catalog, node) {
        return Some(Rule::OrderNotShown);
    }
    if !table.are_keys_shown(catalog, node) {
        return Some(Rule::KeyNotShown);
    }
    None
}

/// The first of the root's own tests that fails.
pub fn root_failure(is_total: bool, table: &mut Table<'_>, root: &TypedNode) -> Option<Rule>
    requires { (catalog : List Relation) × Judges catalog table.old (plan_of root.now) × HasOutputs (relation_at catalog) (outline_of root.now) }
    ensures failure { (catalog : List Relation) → Judges catalog table.old (plan_of root.now) → HasOutputs (relation_at catalog) (outline_of root.now)
        → option_map rule_of result ≡ first_failure (root_tests_by (derives table.old) (relation_at catalog) is_total (plan_of root.now)) }
    ensures stays { StaysTable table.old table.new (plan_of root.now) }
{
    if !has_one_worker(root) {
        return Some(Rule::RootNotOne);
    }
    if is_total && !table.is_order_total(root) {
        return Some(Rule::TotalNotShown);
    }
    None
}

// The node with the first of its tests that fails.
fn refused_here(catalog: &Catalog, table: &mut Table<'_>, node: &TypedNode) -> Option<(u32, Rule)>
    requires judges { Judges catalog.now table.old (plan_of node.now) }
    requires outputs { HasOutputs (relation_at catalog.now) (outline_of node.now) }
    requires keys { KeysNameColumns (relation_at catalog.now) (plan_of node.now) }
    ensures refused { option_map refusal_of result ≡ refused_at (number (plan_of node.now)) (tests_by (derives table.old) (relation_at catalog.now) (plan_of node.now)) }
    ensures stays { StaysTable table.old table.new (plan_of node.now) }
{
    match failure_at(catalog, table, node) {
        Some(rule) => Some((node.head().number, rule)),
        None => None,
    }
}

// The first refused node in post-order, and the first of its tests that fails.
fn first_refused_in(
    catalog: &Catalog,
    table: &mut Table<'_>,
    node: &TypedNode,
) -> Option<(u32, Rule)>
    requires judges { Judges catalog.now table.old (plan_of node.now) }
    requires outputs { HasOutputs (relation_at catalog.now) (outline_of node.now) }
    requires keys { KeysNameColumns (relation_at catalog.now) (plan_of node.now) }
    ensures refused { option_map refusal_of result ≡ first_failing (tests_by (derives table.old) (relation_at catalog.now)) (plan_of node.now) }
    ensures stays { StaysTable table.old table.new (plan_of node.now) }
{
    match node {
        TypedNode::Scan(_, _) => refused_here(catalog, table, node),
        TypedNode::Unary(_, _, input) | TypedNode::Exchange(_, _, input) => {
            if let Some(refused) = first_refused_in(catalog, table, input) {
                return Some(refused);
            }
            refused_here(catalog, table, node)
        }
        TypedNode::Binary(_, _, left, right) => {
            if let Some(refused) = first_refused_in(catalog, table, left) {
                return Some(refused);
            }
            if let Some(refused) = first_refused_in(catalog, table, right) {
                return Some(refused);
            }
            refused_here(catalog, table, node)
        }
    }
}

/// What refuses the plan: a node and a rule. The root's own tests are the last.
pub fn refusal_in(
    catalog: &Catalog,
    is_total: bool,
    table: &mut Table<'_>,
    root: &TypedNode,
) -> Option<(u32, Rule)>
    requires judges { Judges catalog.now table.old (plan_of root.now) }
    requires outputs { HasOutputs (relation_at catalog.now) (outline_of root.now) }
    requires keys { KeysNameColumns (relation_at catalog.now) (plan_of root.now) }
    ensures { option_map refusal_of result ≡ refusal_by (derives table.old) (relation_at catalog.now) is_total (plan_of root.now) }
{
    if let Some(refused) = first_refused_in(catalog, table, root) {
        return Some(refused);
    }
    match root_failure(is_total, table, root) {
        Some(rule) => Some((root.head().number, rule)),
        None => None,
    }
}
