//! What is said of a node that the checker refuses.

ghost use Rattle.std.specs.Prelude.{◌≡◌, option_map, string_bytes, IfOk};
ghost use Rattle.vx_plan_nodes.specs.Outline.{outline_of};
ghost use Rattle.vx_plan_nodes.specs.TypedView.{names_in, resolved_of};
ghost use Rattle.vx_check_rules.specs.RuleView.{rule_of};
ghost use Rattle.vx_check_failures.specs.FailureView.{IsTableOf, IsNodeOf};
ghost use Rattle.vx_check_sentences.specs.Claimed.{claimed_text};
ghost use Rattle.vx_check_sentences.specs.Shown.{shown_at};
ghost use Rattle.vx_check_sentences.specs.Explained.{claimed_of, shown_of};

use crate::claimed::claimed;
use crate::help::help;
use crate::sentences::Explanation;
use crate::shown::shown;
use std::alloc::{AllocError, Global};
use vx_check_failures::{node_numbered, shown_claim};
use vx_check_rules::{Rule, Table, table_of};
use vx_plan_nodes::{TypedNode, TypedPlan};

// What is said of a node that the rule refuses.
fn explained(
    alloc: Global,
    plan: &TypedPlan,
    table: &mut Table<'_>,
    node: &TypedNode,
    rule: Rule,
) -> Result<Explanation, AllocError>
    requires node { IsNodeOf plan.now node.now }
    requires table { IsTableOf table.old plan.now }
    ensures claimed { IfOk result (λ e. string_bytes e.claimed ≡ claimed_text (names_in plan.now) (rule_of rule) (outline_of node.now)) }
    ensures shown { IfOk result (λ e. string_bytes e.shown ≡ shown_at (resolved_of plan.now).derives (names_in plan.now) (rule_of rule) (outline_of node.now)) }
{
    let claim = shown_claim(alloc, plan.catalog(), table, node)?;
    let help = help(alloc, plan, table, node, rule, &claim)?;
    let shown = shown(alloc, plan, node, rule, &claim)?;
    let claimed = claimed(alloc, plan, node, rule)?;
    Ok(Explanation {
        claimed,
        shown,
        help,
    })
}

/// What is to be said of the node with this number, where the rule refuses it; none where the plan has no such node. Any rule may be asked for:
/// of one that does not speak of such a node, a sentence may break off or be empty.
pub fn explanation(
    alloc: Global,
    plan: &TypedPlan,
    node: u32,
    rule: Rule,
) -> Result<Option<Explanation>, AllocError>
    ensures claimed { IfOk result (λ o. option_map (λ e. string_bytes e.claimed) o ≡ claimed_of (resolved_of plan.now) node (rule_of rule)) }
    ensures shown { IfOk result (λ o. option_map (λ e. string_bytes e.shown) o ≡ shown_of (resolved_of plan.now) node (rule_of rule)) }
{
    let mut table = table_of(alloc, plan)?;
    match node_numbered(plan.root(), node) {
        Some(node) => Ok(Some(explained(alloc, plan, &mut table, node, rule)?)),
        None => Ok(None),
    }
}
