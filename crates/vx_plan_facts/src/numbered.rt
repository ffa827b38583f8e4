//! The columns of all nodes of a plan.

ghost use Rattle.std.specs.Prelude.{◌≡◌, ◌++◌, [], ◌∷◌, map, length, IfOk};
ghost use Rattle.vx_catalog_relations.specs.Catalog.{relation_at};
ghost use Rattle.vx_plan_nodes.specs.Outline.{plan_of};
ghost use Rattle.vx_plan_nodes.specs.Numbering.{nodes};
ghost use Rattle.vx_plan_nodes.specs.TypedView.{scope, plan as whole_plan};
ghost use Rattle.vx_plan_facts.specs.Facts.{ArePut, AreNumbered};
ghost use Rattle.vx_plan_facts.specs.FactsView.{facts_of};
ghost use Rattle.vx_plan_facts.specs.Naming.{IsTypedOver};

use crate::facts::ColumnFacts;
use crate::operators::{after_unary, of_both, of_scan};
use std::alloc::{AllocError, Global};
use vx_catalog_relations::Catalog;
use vx_plan_nodes::{TypedNode, TypedPlan};

// Puts the facts of a node behind the others, at the place that it returns.
fn put<'p>(facts: &mut Vec<ColumnFacts<'p>>, own: ColumnFacts<'p>) -> Result<usize, AllocError>
    ensures { IfOk result (λ at. (at ≡ length (map facts_of facts.old.items)) × (map facts_of facts.new.items ≡ map facts_of facts.old.items ++ facts_of own.entry ∷ [])) }
{
    let at = facts.len();
    facts.push(own)?;
    Ok(at)
}

// Puts the facts of the nodes below a node and then its own behind the others, right inputs before left ones, and returns
// the place of its own.
fn put_facts<'p>(
    alloc: Global,
    catalog: &Catalog,
    facts: &mut Vec<ColumnFacts<'p>>,
    node: &'p TypedNode,
) -> Result<usize, AllocError>
    requires { IsTypedOver catalog.now (plan_of node.now) }
    ensures { IfOk result (λ at. ArePut (relation_at catalog.now) (plan_of node.now) (map facts_of facts.old.items) (map facts_of facts.new.items) at) }
{
    match node {
        TypedNode::Scan(_, scan) => {
            let own = of_scan(alloc, catalog.get(scan.relation).types().len())?;
            put(facts, own)
        }
        TypedNode::Unary(_, operator, input) => {
            let below = put_facts(alloc, catalog, facts, input)?;
            let own = after_unary(alloc, operator, &facts[below])?;
            put(facts, own)
        }
        TypedNode::Binary(_, operator, left, right) => {
            let right = put_facts(alloc, catalog, facts, right)?;
            let left = put_facts(alloc, catalog, facts, left)?;
            let own = of_both(alloc, operator, &facts[left], &facts[right])?;
            put(facts, own)
        }
        TypedNode::Exchange(_, _, input) => {
            let below = put_facts(alloc, catalog, facts, input)?;
            let own = facts[below].copy(alloc)?;
            put(facts, own)
        }
    }
}

/// The equal and the fixed columns of each node of a plan, by its number.
pub fn column_facts<'p>(
    alloc: Global,
    plan: &'p TypedPlan,
) -> Result<Vec<ColumnFacts<'p>>, AllocError>
    ensures facts { IfOk result (λ v. AreNumbered (relation_at (scope plan.now).catalog) (map facts_of v.items) (whole_plan plan.now)) }
    ensures count { IfOk result (λ v. length v.items ≡ nodes (whole_plan plan.now)) }
{
    let mut facts = Vec::new(alloc);
    put_facts(alloc, plan.catalog(), &mut facts, plan.root())?;
    facts.reverse();
    Ok(facts)
}
