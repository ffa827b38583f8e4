//! The rule table by which a plan is judged.

ghost use Rattle.std.specs.Prelude.{◌≡◌, ℕ, true, List, IfOk, OnErr};
ghost use Rattle.vx_catalog_relations.specs.Relation.{Relation};
ghost use Rattle.vx_catalog_relations.specs.Catalog.{relation_at};
ghost use Rattle.vx_plan_nodes.specs.Outline.{outline_of, plan_of};
ghost use Rattle.vx_plan_nodes.specs.Outputs.{HasOutputs};
ghost use Rattle.vx_plan_nodes.specs.TypedView.{scope, plan as whole_plan, resolved_of};
ghost use Rattle.vx_check_rules.specs.Exactly.{keys_name_columns};
ghost use Rattle.vx_check_rules.specs.TableView.{derives, Judges};

use crate::derived_keys::{
    are_first_rows_known_derived, are_keys_shown_derived, is_order_total_derived,
};
use crate::derived_orders::is_order_given_derived;
use crate::derived_parts::{do_inputs_match_derived, is_part_shown_derived};
use crate::inputs::do_inputs_match;
use crate::keys::are_keys_shown;
use crate::orders::{are_first_rows_known, is_order_given, is_order_shown, is_order_total};
use crate::shown::is_part_shown;
use crate::shown_orders::is_order_shown_derived;
use std::alloc::{AllocError, Global};
use vx_catalog_relations::Catalog;
use vx_plan_facts::{KnownColumns, known_columns};
use vx_plan_nodes::{TypedNode, TypedPlan};

/// The rule table by which a plan is judged.
#[derive(Drop)]
pub enum Table<'p> {
    /// That of claims alone.
    First,
    /// That which asks also what is known of the plan's columns.
    Second(KnownColumns<'p>),
}

/// The table by which a plan asks to be judged. The first one takes no memory.
pub fn table_of<'p>(alloc: Global, plan: &'p TypedPlan) -> Result<Table<'p>, AllocError>
    ensures derives { IfOk result (λ t. derives t ≡ (resolved_of plan.now).derives) }
    ensures judges { IfOk result (λ t. Judges (scope plan.now).catalog t (whole_plan plan.now)) }
    ensures no_memory { OnErr result ((resolved_of plan.now).derives ≡ true) }
{
    if !plan.derives() {
        return Ok(Table::First);
    }
    let known = known_columns(alloc, plan)?;
    Ok(Table::Second(known))
}

impl Table<'_> {
    ghost use Rattle.vx_check_rules.specs.Tables.{inputs_match_by, order_given_by, first_rows_known_by, part_shown_by, order_shown_by, keys_shown_by, is_total_by};
    ghost use Rattle.vx_check_rules.specs.TableView.{StaysTable};

    /// Whether the inputs' parts are those that the operator needs: K4.
    pub(crate) fn do_inputs_match(&self, node: &TypedNode) -> bool
        requires { (catalog : List Relation) × Judges catalog self.now (plan_of node.now) }
        ensures { (catalog : List Relation) → Judges catalog self.now (plan_of node.now) → HasOutputs (relation_at catalog) (outline_of node.now)
            → result ≡ inputs_match_by (derives self.now) (relation_at catalog) (plan_of node.now) }
    {
        match self {
            Table::First => do_inputs_match(node),
            Table::Second(known) => do_inputs_match_derived(node, known),
        }
    }

    /// Whether the inputs are sorted as a merge needs it: K7.
    pub(crate) fn is_order_given(&mut self, node: &TypedNode) -> bool
        requires { (catalog : List Relation) × Judges catalog self.old (plan_of node.now) }
        ensures given { (catalog : List Relation) → Judges catalog self.old (plan_of node.now) → result ≡ order_given_by (derives self.old) (relation_at catalog) (plan_of node.now) }
        ensures stays { StaysTable self.old self.new (plan_of node.now) }
    {
        match self {
            Table::First => is_order_given(node),
            Table::Second(known) => is_order_given_derived(node, known),
        }
    }

    /// Whether the first rows of a limit's input are known: K11.
    pub(crate) fn are_first_rows_known(&mut self, node: &TypedNode) -> bool
        requires { (catalog : List Relation) × Judges catalog self.old (plan_of node.now) × HasOutputs (relation_at catalog) (outline_of node.now) }
        ensures first { (catalog : List Relation) → Judges catalog self.old (plan_of node.now) → HasOutputs (relation_at catalog) (outline_of node.now)
            → result ≡ first_rows_known_by (derives self.old) (relation_at catalog) (plan_of node.now) }
        ensures stays { StaysTable self.old self.new (plan_of node.now) }
    {
        match self {
            Table::First => are_first_rows_known(node),
            Table::Second(known) => are_first_rows_known_derived(node, known),
        }
    }

    /// Whether the node's claimed part is shown: K3.
    pub(crate) fn is_part_shown(&self, node: &TypedNode) -> bool
        requires { (catalog : List Relation) × Judges catalog self.now (plan_of node.now) }
        ensures { (catalog : List Relation) → Judges catalog self.now (plan_of node.now) → HasOutputs (relation_at catalog) (outline_of node.now)
            → result ≡ part_shown_by (derives self.now) (relation_at catalog) (plan_of node.now) }
    {
        match self {
            Table::First => is_part_shown(node),
            Table::Second(known) => is_part_shown_derived(node, known),
        }
    }

    /// Whether its claimed order is shown: K6.
    pub(crate) fn is_order_shown(&mut self, catalog: &Catalog, node: &TypedNode) -> bool
        requires judges { Judges catalog.now self.old (plan_of node.now) }
        requires outputs { HasOutputs (relation_at catalog.now) (outline_of node.now) }
        ensures shown { result ≡ order_shown_by (derives self.old) (relation_at catalog.now) (plan_of node.now) }
        ensures stays { StaysTable self.old self.new (plan_of node.now) }
    {
        match self {
            Table::First => is_order_shown(catalog, node),
            Table::Second(known) => is_order_shown_derived(catalog, node, known),
        }
    }

    /// Whether each of its claimed keys, which name its columns, is shown: K8.
    pub(crate) fn are_keys_shown(&mut self, catalog: &Catalog, node: &TypedNode) -> bool
        requires judges { Judges catalog.now self.old (plan_of node.now) }
        requires outputs { HasOutputs (relation_at catalog.now) (outline_of node.now) }
        requires keys { keys_name_columns (relation_at catalog.now) (plan_of node.now) ≡ true }
        ensures shown { result ≡ keys_shown_by (derives self.old) (relation_at catalog.now) (plan_of node.now) }
        ensures stays { StaysTable self.old self.new (plan_of node.now) }
    {
        match self {
            Table::First => are_keys_shown(catalog, node),
            Table::Second(known) => are_keys_shown_derived(catalog, node, known),
        }
    }

    /// Whether its claimed order is total: K9.
    pub(crate) fn is_order_total(&mut self, node: &TypedNode) -> bool
        requires { (catalog : List Relation) × Judges catalog self.old (plan_of node.now) × HasOutputs (relation_at catalog) (outline_of node.now) }
        ensures total { (catalog : List Relation) → Judges catalog self.old (plan_of node.now) → HasOutputs (relation_at catalog) (outline_of node.now)
            → result ≡ is_total_by (derives self.old) (relation_at catalog) (plan_of node.now) }
        ensures stays { StaysTable self.old self.new (plan_of node.now) }
    {
        match self {
            Table::First => is_order_total(node),
            Table::Second(known) => is_order_total_derived(node, known),
        }
    }
}
