//! The checker.

ghost use Rattle.std.specs.Prelude.{◌≡◌, true, None, option_map, IfOk, IfErr, OnErr};
ghost use Rattle.vx_plan_nodes.specs.TypedView.{resolved_of};
ghost use Rattle.vx_check_rules.specs.Checked.{refusal_of_plan};
ghost use Rattle.vx_check_rules.specs.CheckedView.{typed_plan};
ghost use Rattle.vx_check_rules.specs.FaultView.{IsFaultOf};
ghost use Rattle.vx_check_rules.specs.RuleView.{refusal_of};

use crate::checked::CheckedPlan;
use crate::fault::CheckFault;
use crate::refusal::refusal_in;
use crate::refused::Refused;
use crate::rule::Rule;
use crate::table::table_of;
use std::alloc::{AllocError, Global};
use vx_plan_nodes::TypedPlan;

// What refuses the plan by the table that it asks for: a node and a rule.
fn plan_refusal(alloc: Global, plan: &TypedPlan) -> Result<Option<(u32, Rule)>, AllocError>
    ensures refusal { IfOk result (λ r. option_map refusal_of r ≡ refusal_of_plan plan.now) }
    ensures no_memory { OnErr result ((resolved_of plan.now).derives ≡ true) }
{
    let mut table = table_of(alloc, plan)?;
    Ok(refusal_in(plan.catalog(), plan.is_total(), &mut table, plan.root()))
}

/// Tests an optimizer's notes by the rule table that the plan asks for. Only a plan that asks for what is known of its
/// columns needs memory.
pub fn check(alloc: Global, plan: TypedPlan) -> Result<CheckedPlan, CheckFault>
    ensures accepted { IfOk result (λ c. (refusal_of_plan plan ≡ None) × (typed_plan c ≡ plan)) }
    ensures refused { IfErr result (λ f. IsFaultOf plan f) }
{
    match plan_refusal(alloc, &plan)? {
        None => Ok(CheckedPlan::new(plan)),
        Some((node, rule)) => Err(CheckFault::Refused(Refused { node, rule, plan })),
    }
}
