//! What is known of the columns of all nodes of a plan, and what some of them determine.

ghost use Rattle.std.specs.Prelude.{◌≡◌, ◌&&◌, ℕ, nat_lt, IfOk};
ghost use Rattle.vx_catalog_relations.specs.Catalog.{relation_at};
ghost use Rattle.vx_catalog_relations.specs.Relation.{Relation};
ghost use Rattle.vx_plan_nodes.specs.Outline.{plan_of};
ghost use Rattle.vx_plan_nodes.specs.Plan.{Plan};
ghost use Rattle.vx_plan_nodes.specs.Types.{width};
ghost use Rattle.vx_plan_nodes.specs.TypedView.{scope, plan as whole_plan};
ghost use Rattle.vx_plan_facts.specs.Facts.{AreFactsOf};
ghost use Rattle.vx_plan_facts.specs.FactsView.{facts_of};
ghost use Rattle.vx_plan_facts.specs.Determined.{determined, determined_aside};
ghost use Rattle.vx_plan_facts.specs.ColumnSetView.{set_of_columns};

use crate::answers::{Answers, no_answers};
use crate::column_set::ColumnSet;
use crate::determining::{determined, determined_aside};
use crate::facts::ColumnFacts;
use crate::numbered::column_facts;
use std::alloc::{AllocError, Global};
use vx_plan_nodes::{TypedNode, TypedPlan};

/// What is known of the columns of a plan's nodes. It is found once for a plan, and handed down to all that ask for it.
pub struct KnownColumns<'p> {
    plan: &'p TypedPlan,
    // Of each node, by its number.
    facts: Vec<ColumnFacts<'p>>,
    answers: Vec<Answers>,
}

impl Drop for KnownColumns<'_> {
    fn drop(self) {
        let KnownColumns {
            plan: _,
            facts: _,
            answers: _,
        } = self;
    }
}

ghost use Rattle.vx_plan_facts.specs.KnownView.{plan_known, IsKnownOf};

/// What is known of the columns of a plan's nodes.
pub fn known_columns<'p>(alloc: Global, plan: &'p TypedPlan) -> Result<KnownColumns<'p>, AllocError>
    ensures known { IfOk result (λ k. IsKnownOf (relation_at (scope plan.now).catalog) k (whole_plan plan.now)) }
    ensures plan { IfOk result (λ k. plan_known k ≡ plan.now) }
{
    let facts = column_facts(alloc, plan)?;
    let answers = no_answers(alloc, facts.len())?;
    Ok(KnownColumns {
        plan,
        facts,
        answers,
    })
}

impl<'p> KnownColumns<'p> {
    ghost use Rattle.vx_plan_facts.specs.KnownView.{plan_known, IsKnownOf};

    /// The plan.
    pub fn plan(&self) -> &'p TypedPlan
        ensures { result.now ≡ plan_known self.now }
    {
        self.plan
    }

    /// The equal and the fixed columns of a node.
    pub fn facts_of(&self, node: &TypedNode) -> &ColumnFacts<'p>
        requires { (catalog : ℕ → Relation) × IsKnownOf catalog self.now (plan_of node.now) }
        ensures { (catalog : ℕ → Relation) → IsKnownOf catalog self.now (plan_of node.now) → AreFactsOf catalog (plan_of node.now) (facts_of result.now) }
    {
        &self.facts[node.head().number as usize]
    }

    /// The columns of a node that those of a set determine. A column of the set that the node does not have is not among
    /// them.
    pub fn determined(&mut self, node: &TypedNode, set: &ColumnSet) -> ColumnSet
        requires { (catalog : ℕ → Relation) × IsKnownOf catalog self.old (plan_of node.now) }
        ensures answer { (catalog : ℕ → Relation) → IsKnownOf catalog self.old (plan_of node.now)
            → (c : ℕ) → set_of_columns result c ≡ (nat_lt c (width catalog (plan_of node.now)) && determined catalog (plan_of node.now) (set_of_columns set.now) c) }
        ensures kept { (catalog : ℕ → Relation) → IsKnownOf catalog self.old (plan_of node.now) → (p : Plan) → IsKnownOf catalog self.old p → IsKnownOf catalog self.new p }
        ensures plan { plan_known self.new ≡ plan_known self.old }
    {
        determined(
            node,
            self.facts.as_slice(),
            self.answers.as_mut_slice(),
            set,
        )
    }

    /// The same, with the keys that the node itself claims left aside.
    pub fn determined_aside(&mut self, node: &TypedNode, set: &ColumnSet) -> ColumnSet
        requires { (catalog : ℕ → Relation) × IsKnownOf catalog self.old (plan_of node.now) }
        ensures answer { (catalog : ℕ → Relation) → IsKnownOf catalog self.old (plan_of node.now)
            → (c : ℕ) → set_of_columns result c ≡ (nat_lt c (width catalog (plan_of node.now)) && determined_aside catalog (plan_of node.now) (set_of_columns set.now) c) }
        ensures kept { (catalog : ℕ → Relation) → IsKnownOf catalog self.old (plan_of node.now) → (p : Plan) → IsKnownOf catalog self.old p → IsKnownOf catalog self.new p }
        ensures plan { plan_known self.new ≡ plan_known self.old }
    {
        determined_aside(
            node,
            self.facts.as_slice(),
            self.answers.as_mut_slice(),
            set,
        )
    }
}
