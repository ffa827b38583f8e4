//! Keys and total orders that follow from those of the table, by what is known of columns.

ghost use Rattle.std.specs.Prelude.{◌≡◌, ℕ, ◌<◌, ◌||◌};
ghost use Rattle.std.specs.List.{list_all, list_any};
ghost use Rattle.vx_rows_values.specs.Limits.{max_columns};
ghost use Rattle.vx_rows_values.specs.Order.{order_columns};
ghost use Rattle.vx_catalog_relations.specs.Relation.{Relation};
ghost use Rattle.vx_catalog_relations.specs.Catalog.{relation_at};
ghost use Rattle.vx_plan_nodes.specs.Describe.{source};
ghost use Rattle.vx_plan_nodes.specs.DescribeView.{copying_of};
ghost use Rattle.vx_plan_nodes.specs.Outline.{outline_of, unary_of, plan_of};
ghost use Rattle.vx_plan_nodes.specs.Outputs.{HasOutputs};
ghost use Rattle.vx_plan_nodes.specs.Plan.{claim};
ghost use Rattle.vx_plan_nodes.specs.Types.{width};
ghost use Rattle.vx_plan_facts.specs.ColumnSetView.{set_of_columns};
ghost use Rattle.vx_plan_facts.specs.Determined.{is_copy_of, determined, determined_aside};
ghost use Rattle.vx_plan_facts.specs.Following.{set_of, total_follows};
ghost use Rattle.vx_plan_facts.specs.KnownView.{IsKnownOf};
ghost use Rattle.vx_check_rules.specs.Behaviour.{keys_give};
ghost use Rattle.vx_check_rules.specs.Derived.{first_rows_known_derived, members, key_below, key_derived_by, keys_shown_derived};
ghost use Rattle.vx_check_rules.specs.KeyedView.{all_keyed_in};
ghost use Rattle.vx_check_rules.specs.KnownNode.{IsKeyOf, IsKeyOver, projected_below, first_known_below, StaysKnown};
ghost use Rattle.vx_check_rules.specs.Rules.{is_total_order};

use crate::column_list::members;
use crate::keyed::{Keyed, node_keyed, show_key};
use crate::nodes::{claimed_keys, claimed_order, has_one_worker};
use crate::orders::is_order_total;
use vx_catalog_relations::Catalog;
use vx_plan_facts::{ColumnSet, KnownColumns};
use vx_plan_nodes::{Copying, TypedNode, Unary};

// Whether all columns of one of the keys are in the set.
fn is_key_within(keys: &[Vec<usize>], set: &ColumnSet) -> bool
    ensures { result ≡ list_any (λ k. list_all (set_of_columns set.now) k.items) keys.now }
{
    keys.iter().any(|key| set.contains_all(key.as_slice()))
}

// Whether the node's claimed order determines all columns of a claimed key, or all output columns.
fn does_total_follow(node: &TypedNode, known: &mut KnownColumns<'_>) -> bool
    requires { (catalog : ℕ → Relation) × IsKnownOf catalog known.old (plan_of node.now) }
    ensures follows { (catalog : ℕ → Relation) → IsKnownOf catalog known.old (plan_of node.now)
        → result ≡ total_follows (width catalog (plan_of node.now)) (determined catalog (plan_of node.now)) (claim (plan_of node.now)).keys (order_columns (claim (plan_of node.now)).order) }
    ensures kept { StaysKnown known.old known.new (plan_of node.now) }
{
    let width = known.facts_of(node).width();
    let found = known.determined(node, &ColumnSet::of_order(claimed_order(node)));
    if is_key_within(claimed_keys(node), &found) {
        return true;
    }
    ColumnSet::first(width).is_within(&found)
}

/// Whether the node's claimed order contains all columns of a claimed key or all output columns, or determines them: K9.
pub fn is_order_total_derived(node: &TypedNode, known: &mut KnownColumns<'_>) -> bool
    requires { (catalog : ℕ → Relation) × IsKnownOf catalog known.old (plan_of node.now) × HasOutputs catalog (outline_of node.now) }
    ensures total { (catalog : ℕ → Relation) → IsKnownOf catalog known.old (plan_of node.now) → HasOutputs catalog (outline_of node.now)
        → result ≡ (is_total_order catalog (plan_of node.now)
        || total_follows (width catalog (plan_of node.now)) (determined catalog (plan_of node.now)) (claim (plan_of node.now)).keys (order_columns (claim (plan_of node.now)).order)) }
    ensures kept { StaysKnown known.old known.new (plan_of node.now) }
{
    if is_order_total(node) {
        return true;
    }
    does_total_follow(node, known)
}

// Whether the first rows of an operator's input are known, if it is a limit.
fn are_first_known(operator: &Unary, input: &TypedNode, known: &mut KnownColumns<'_>) -> bool
    requires { (catalog : ℕ → Relation) × IsKnownOf catalog known.old (plan_of input.now) × HasOutputs catalog (outline_of input.now) }
    ensures first { (catalog : ℕ → Relation) → IsKnownOf catalog known.old (plan_of input.now) → HasOutputs catalog (outline_of input.now)
        → result ≡ first_known_below catalog (unary_of operator.now) (plan_of input.now) }
    ensures kept { StaysKnown known.old known.new (plan_of input.now) }
{
    match operator {
        Unary::Limit(_) => has_one_worker(input) && is_order_total_derived(input, known),
        Unary::Select(_) => true,
        Unary::Project(_) => true,
        Unary::Distinct(_) => true,
        Unary::Sort(_, _) => true,
        Unary::Group(_, _, _) => true,
    }
}

/// Whether a limit's input has one worker and an order that is total, or from which that follows: K11.
pub fn are_first_rows_known_derived(node: &TypedNode, known: &mut KnownColumns<'_>) -> bool
    requires { (catalog : ℕ → Relation) × IsKnownOf catalog known.old (plan_of node.now) × HasOutputs catalog (outline_of node.now) }
    ensures first { (catalog : ℕ → Relation) → IsKnownOf catalog known.old (plan_of node.now) → HasOutputs catalog (outline_of node.now)
        → result ≡ first_rows_known_derived catalog (plan_of node.now) }
    ensures kept { StaysKnown known.old known.new (plan_of node.now) }
{
    match node {
        TypedNode::Unary(_, operator, input) => are_first_known(operator, input, known),
        TypedNode::Scan(_, _) => true,
        TypedNode::Binary(_, _, _, _) => true,
        TypedNode::Exchange(_, _, _) => true,
    }
}

// Puts the input column in that a column is a copy of.
fn put_source(copying: Copying<'_>, column: usize, sources: &mut ColumnSet)
    ensures { (x : ℕ) → x < max_columns → set_of_columns sources.new x ≡ (set_of_columns sources.old x || is_copy_of x (source (copying_of copying.entry) column)) }
{
    if let Some(source) = copying.source(column) {
        sources.put(source);
    }
}

// The input columns of which columns of a key are copies.
fn sources_of(copying: Copying<'_>, key: &[usize]) -> ColumnSet
    ensures { (x : ℕ) → x < max_columns → set_of_columns result x ≡ list_any (λ c. is_copy_of x (source (copying_of copying.entry) c)) key.now }
{
    let mut sources = ColumnSet::new();
    for column in key {
        put_source(copying, *column, &mut sources);
    }
    sources
}

// Whether the input columns that those of a projection's key are copies of determine a key that the input claims.
fn is_projected_below(
    operator: &Unary,
    input: &TypedNode,
    known: &mut KnownColumns<'_>,
    key: &[usize],
) -> bool
    requires { (catalog : ℕ → Relation) × IsKeyOver catalog known.old (unary_of operator.now) (plan_of input.now) key.now }
    ensures below { (catalog : ℕ → Relation) → IsKeyOver catalog known.old (unary_of operator.now) (plan_of input.now) key.now
        → result ≡ projected_below catalog (unary_of operator.now) (plan_of input.now) key.now }
    ensures kept { StaysKnown known.old known.new (plan_of input.now) }
{
    match operator {
        Unary::Project(_) => {
            let copying = operator.described().copying;
            let found = known.determined(input, &sources_of(copying, key));
            is_key_within(claimed_keys(input), &found)
        }
        Unary::Select(_) => false,
        Unary::Distinct(_) => false,
        Unary::Sort(_, _) => false,
        Unary::Group(_, _, _) => false,
        Unary::Limit(_) => false,
    }
}

// The same of a node.
fn is_key_below(node: &TypedNode, known: &mut KnownColumns<'_>, key: &[usize]) -> bool
    requires { (catalog : ℕ → Relation) × IsKeyOf catalog known.old (plan_of node.now) key.now }
    ensures below { (catalog : ℕ → Relation) → IsKeyOf catalog known.old (plan_of node.now) key.now → result ≡ key_below catalog (plan_of node.now) key.now }
    ensures kept { StaysKnown known.old known.new (plan_of node.now) }
{
    match node {
        TypedNode::Unary(_, operator, input) => is_projected_below(operator, input, known, key),
        TypedNode::Scan(_, _) => false,
        TypedNode::Binary(_, _, _, _) => false,
        TypedNode::Exchange(_, _, _) => false,
    }
}

// Whether what the key determines, its own claim left aside, holds a key that the node shows.
fn is_key_reached(
    keyed: &[Option<Keyed<'_>>],
    node: &TypedNode,
    known: &mut KnownColumns<'_>,
    key: &[usize],
) -> bool
    requires { (catalog : ℕ → Relation) × IsKeyOf catalog known.old (plan_of node.now) key.now }
    ensures reached { (catalog : ℕ → Relation) → IsKeyOf catalog known.old (plan_of node.now) key.now
        → result ≡ list_any (λ k. keys_give k (members (width catalog (plan_of node.now)) (determined_aside catalog (plan_of node.now) (set_of key.now)))) (all_keyed_in keyed.now) }
    ensures kept { StaysKnown known.old known.new (plan_of node.now) }
{
    let width = known.facts_of(node).width();
    let found = known.determined_aside(node, &ColumnSet::of(key));
    show_key(keyed, members(width, &found).as_slice())
}

/// Whether the key is shown by keys that are there, or follows from one that is.
pub fn is_key_derived(
    keyed: &[Option<Keyed<'_>>],
    node: &TypedNode,
    known: &mut KnownColumns<'_>,
    key: &[usize],
) -> bool
    requires { (catalog : ℕ → Relation) × IsKeyOf catalog known.old (plan_of node.now) key.now }
    ensures derived { (catalog : ℕ → Relation) → IsKeyOf catalog known.old (plan_of node.now) key.now
        → result ≡ key_derived_by catalog (plan_of node.now) (all_keyed_in keyed.now) key.now }
    ensures kept { StaysKnown known.old known.new (plan_of node.now) }
{
    if show_key(keyed, key) {
        return true;
    }
    if is_key_reached(keyed, node, known, key) {
        return true;
    }
    is_key_below(node, known, key)
}

/// Whether each of the node's claimed keys is shown, or follows from one that is: K8.
pub fn are_keys_shown_derived(
    catalog: &Catalog,
    node: &TypedNode,
    known: &mut KnownColumns<'_>,
) -> bool
    requires known { IsKnownOf (relation_at catalog.now) known.old (plan_of node.now) }
    requires outputs { HasOutputs (relation_at catalog.now) (outline_of node.now) }
    ensures shown { result ≡ keys_shown_derived (relation_at catalog.now) (plan_of node.now) }
    ensures kept { StaysKnown known.old known.new (plan_of node.now) }
{
    let keyed = node_keyed(catalog, node);
    let keys = claimed_keys(node);
    for key in keys {
        if !is_key_derived(&keyed, node, known, key.as_slice()) {
            return false;
        }
    }
    true
}
