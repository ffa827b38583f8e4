//! Plans with the claims that the rule table shows.

ghost use Rattle.std.specs.Prelude.{◌≡◌, IfOk, IfErr};
ghost use Rattle.vx_plan_json.specs.PlanView.{document_of};
ghost use Rattle.volcano_answer.specs.Annotated.{refusal_of, asking_if, IsAnnotated, AnnotationRefuses};

use std::alloc::Global;
use volcano_refusals::Refusal;
use vx_catalog_relations::Catalog;
use vx_check_annotate::{AnnotateFault, annotate, asking};
use vx_plan_json::{Plan, to_json};

// The refusal that a fault is to the program.
fn refusal_of(fault: AnnotateFault) -> Refusal
    ensures { result ≡ refusal_of fault }
{
    match fault {
        AnnotateFault::Plan(fault) => Refusal::Plan(fault),
        AnnotateFault::Rule { node, rule } => Refusal::Check { rule, node },
    }
}

/// The plan, which asks for what is known of its columns where that is said.
pub fn asking_if(alloc: Global, derive: bool, plan: Plan) -> Plan
    ensures { document_of result ≡ asking_if derive (document_of plan) }
{
    if derive {
        return asking(alloc, plan);
    }
    plan
}

/// The plan with the claims that the rule table shows in place of its own, as a line of JSON.
pub fn annotated_plan(alloc: Global, catalog: &Catalog, plan: Plan) -> Result<Vec<u8>, Refusal>
    ensures text { IfOk result (λ text. IsAnnotated catalog.now (document_of plan) text.items) }
    ensures refused { IfErr result (AnnotationRefuses catalog.now (document_of plan)) }
{
    match annotate(alloc, catalog, plan) {
        Ok(annotated) => {
            let mut text = to_json(alloc, &annotated)?;
            text.push_str("\n")?;
            Ok(text.into_bytes())
        }
        Err(fault) => Err(refusal_of(fault)),
    }
}
