//! Plans with the claims that the rule table shows.

ghost use Rattle.std.specs.Prelude.{◌≡◌, IfOk, IfErr};
ghost use Rattle.vx_plan_json.specs.PlanView.{document_of};
ghost use Rattle.volcano_embedding.specs.Annotated.{refusal_of, asking_if, IsAnnotated, AnnotationRefuses};

use std::alloc::Global;
use volcano_refusals::Refusal;
use vx_catalog_relations::Catalog;
use vx_check_annotate::{AnnotateFault, annotate, asking};
use vx_plan_json::{Plan, to_json};

/// A plan with the claims that follow, as a line of JSON, and whether it says that its rows come in a total order.
#[derive(Drop)]
pub struct Annotated {
    pub text: Vec<u8>,
    pub is_total: bool,
}

// The refusal that a fault is to the caller.
fn refusal_of(fault: AnnotateFault) -> Refusal
    ensures { result ≡ refusal_of fault }
{
    match fault {
        AnnotateFault::Plan(fault) => Refusal::Plan(fault),
        AnnotateFault::Rule { node, rule } => Refusal::Check { rule, node },
    }
}

/// The plan, which asks for what is known of its columns where that is said.
pub(crate) fn asking_if(alloc: Global, derive: bool, plan: Plan) -> Plan
    ensures { document_of result ≡ asking_if derive (document_of plan) }
{
    if derive {
        return asking(alloc, plan);
    }
    plan
}

/// The plan with the claims that the rule table shows in place of its own.
pub(crate) fn annotated_plan(
    alloc: Global,
    catalog: &Catalog,
    plan: Plan,
) -> Result<Annotated, Refusal>
    ensures text { IfOk result (λ a. IsAnnotated catalog.now (document_of plan) a.text.items a.is_total) }
    ensures refused { IfErr result (AnnotationRefuses catalog.now (document_of plan)) }
{
    match annotate(alloc, catalog, plan) {
        Ok(annotated) => {
            let mut text = to_json(alloc, &annotated)?;
            text.push_str("\n")?;
            Ok(Annotated {
                text: text.into_bytes(),
                is_total: annotated.is_total(),
            })
        }
        Err(fault) => Err(refusal_of(fault)),
    }
}
