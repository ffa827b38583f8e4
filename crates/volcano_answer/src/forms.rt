//! Plans that the checker accepts, in forms for other tools.

ghost use Rattle.std.specs.Prelude.{◌≡◌, IfOk, IfErr};
ghost use Rattle.vx_plan_nodes.specs.TypedView.{resolved_of};
ghost use Rattle.volcano_answer.specs.Forms.{form_named, IsInForm, FormRefuses};

use crate::command::accepted;
use std::alloc::Global;
use volcano_refusals::Refusal;
use vx_check_formats::{explain_dot, explain_json};
use vx_plan_nodes::TypedPlan;

/// A form in which a plan is explained, other than its text.
#[derive(Clone, Copy)]
pub enum PlanForm {
    /// An object for each node.
    Json,
    /// A graph in the language of Graphviz.
    Dot,
}

/// The form of a name, if it is one.
pub fn form_named(name: &str) -> Option<PlanForm>
    ensures { result ≡ form_named name.now }
{
    match name {
        "json" => Some(PlanForm::Json),
        "dot" => Some(PlanForm::Dot),
        _ => None,
    }
}

/// A plan in a form, once the checker has accepted it.
pub fn plan_in_form(alloc: Global, form: PlanForm, plan: TypedPlan) -> Result<Vec<u8>, Refusal>
    ensures text { IfOk result (λ text. IsInForm form (resolved_of plan) text.items) }
    ensures refused { IfErr result (λ e. FormRefuses (resolved_of plan) e) }
{
    let checked = accepted(alloc, plan)?;
    match form {
        PlanForm::Json => Ok(explain_json(alloc, &checked)?.into_bytes()),
        PlanForm::Dot => Ok(explain_dot(alloc, &checked)?.into_bytes()),
    }
}
