//! Accepted plans, explained in one of three forms.

ghost use Rattle.std.specs.Prelude.{◌≡◌, string_bytes, IfOk};
ghost use Rattle.vx_plan_nodes.specs.TypedView.{resolved_of};
ghost use Rattle.vx_check_rules.specs.CheckedView.{typed_plan};
ghost use Rattle.volcano_embedding.specs.Forms.{text_in_form};

use std::alloc::{AllocError, Global};
use vx_check::explain;
use vx_check_formats::{explain_dot, explain_json};
use vx_check_rules::CheckedPlan;

/// A form in which a plan is explained.
#[derive(Clone, Copy)]
pub enum ExplainForm {
    /// A line for each node.
    Text,
    /// An object for each node.
    Json,
    /// A graph in the language of Graphviz.
    Dot,
}

/// An accepted plan in a form.
pub(crate) fn explained(
    alloc: Global,
    form: ExplainForm,
    checked: &CheckedPlan,
) -> Result<String, AllocError>
    ensures { IfOk result (λ s. string_bytes s ≡ text_in_form form (resolved_of (typed_plan checked.now))) }
{
    match form {
        ExplainForm::Text => explain(alloc, checked),
        ExplainForm::Json => explain_json(alloc, checked),
        ExplainForm::Dot => explain_dot(alloc, checked),
    }
}
