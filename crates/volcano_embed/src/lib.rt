//! The entry points of the library for C and C++: include/volcano.h says what holds of each.
#![tactic(auto)]

mod answer;
mod asking;
mod catalog;

ghost use Rattle.std.specs.Prelude.{◌≡◌};
ghost use Rattle.volcano_embed.specs.Given.{ChecksAs, ChecksAllAs, ExplainsAs, AnnotatesAs, EvaluatesAs, ExplainsCodeAs};

pub use answer::Answer;
use answer::{give, give_none, give_span};
use asking::ask;
pub use catalog::{
    volcano_catalog_annotate, volcano_catalog_check, volcano_catalog_check_all,
    volcano_catalog_close, volcano_catalog_evaluate, volcano_catalog_explain,
    volcano_catalog_explain_dot, volcano_catalog_explain_json, volcano_catalog_open,
    volcano_catalog_share,
};
use std::alloc::Global;
use volcano_embedding::{ExplainForm, Question, TableSpan, tables_in, why_reply};

/// Checks a plan over a catalog.
#[unsafe(no_mangle)]
pub extern "C" fn volcano_check(
    alloc: Global,
    catalog: &[u8],
    plan: &[u8],
    answer: &mut Answer,
) -> u8
    ensures answer { ChecksAs catalog.now plan.now result answer.new }
    ensures short { answer.old.errors ≡ 0 → answer.new.more_length ≡ 0 }
    ensures errors { answer.new.errors ≡ answer.old.errors }
{
    ask(alloc, catalog, Question::Check, plan, answer)
}

/// Checks all nodes of a plan over a catalog.
#[unsafe(no_mangle)]
pub extern "C" fn volcano_check_all(
    alloc: Global,
    catalog: &[u8],
    plan: &[u8],
    answer: &mut Answer,
) -> u8
    ensures answer { ChecksAllAs catalog.now plan.now result answer.new }
    ensures short { answer.old.errors ≡ 0 → answer.new.more_length ≡ 0 }
    ensures errors { answer.new.errors ≡ answer.old.errors }
{
    ask(alloc, catalog, Question::CheckAll, plan, answer)
}

/// Explains a plan over a catalog.
#[unsafe(no_mangle)]
pub extern "C" fn volcano_explain(
    alloc: Global,
    catalog: &[u8],
    plan: &[u8],
    answer: &mut Answer,
) -> u8
    ensures answer { ExplainsAs ExplainForm.Text catalog.now plan.now result answer.new }
    ensures short { answer.old.errors ≡ 0 → answer.new.more_length ≡ 0 }
    ensures errors { answer.new.errors ≡ answer.old.errors }
{
    ask(
        alloc,
        catalog,
        Question::Explain(ExplainForm::Text),
        plan,
        answer,
    )
}

/// Explains a plan over a catalog as JSON.
#[unsafe(no_mangle)]
pub extern "C" fn volcano_explain_json(
    alloc: Global,
    catalog: &[u8],
    plan: &[u8],
    answer: &mut Answer,
) -> u8
    ensures answer { ExplainsAs ExplainForm.Json catalog.now plan.now result answer.new }
    ensures short { answer.old.errors ≡ 0 → answer.new.more_length ≡ 0 }
    ensures errors { answer.new.errors ≡ answer.old.errors }
{
    ask(
        alloc,
        catalog,
        Question::Explain(ExplainForm::Json),
        plan,
        answer,
    )
}

/// Explains a plan over a catalog as a graph.
#[unsafe(no_mangle)]
pub extern "C" fn volcano_explain_dot(
    alloc: Global,
    catalog: &[u8],
    plan: &[u8],
    answer: &mut Answer,
) -> u8
    ensures answer { ExplainsAs ExplainForm.Dot catalog.now plan.now result answer.new }
    ensures short { answer.old.errors ≡ 0 → answer.new.more_length ≡ 0 }
    ensures errors { answer.new.errors ≡ answer.old.errors }
{
    ask(
        alloc,
        catalog,
        Question::Explain(ExplainForm::Dot),
        plan,
        answer,
    )
}

/// Writes a plan over a catalog with the claims that follow, also by what is known of columns if `derive` says so.
#[unsafe(no_mangle)]
pub extern "C" fn volcano_annotate(
    alloc: Global,
    catalog: &[u8],
    plan: &[u8],
    derive: bool,
    answer: &mut Answer,
) -> u8
    ensures answer { AnnotatesAs derive catalog.now plan.now result answer.new }
    ensures short { answer.old.errors ≡ 0 → answer.new.more_length ≡ 0 }
    ensures errors { answer.new.errors ≡ answer.old.errors }
{
    ask(alloc, catalog, Question::Annotate(derive), plan, answer)
}

/// Evaluates a plan serially over a catalog and tables, whose names and texts are cut out of bytes.
#[unsafe(no_mangle)]
pub extern "C" fn volcano_evaluate(
    alloc: Global,
    catalog: &[u8],
    plan: &[u8],
    bytes: &[u8],
    spans: &[TableSpan],
    answer: &mut Answer,
) -> u8
    ensures answer { EvaluatesAs catalog.now plan.now bytes.now spans.now result answer.new }
    ensures short { answer.old.errors ≡ 0 → answer.new.more_length ≡ 0 }
    ensures errors { answer.new.errors ≡ answer.old.errors }
{
    match tables_in(alloc, bytes, spans) {
        Ok(tables) => ask(
            alloc,
            catalog,
            Question::Evaluate(tables.as_slice()),
            plan,
            answer,
        ),
        Err(fault) => give_span(&fault, answer),
    }
}

/// Says what a code, or the name of one, means.
#[unsafe(no_mangle)]
pub extern "C" fn volcano_why(alloc: Global, code: &[u8], answer: &mut Answer) -> u8
    ensures answer { ExplainsCodeAs code.now result answer.new }
    ensures errors { answer.new.errors ≡ answer.old.errors }
{
    match why_reply(alloc, code) {
        Some(reply) => give(reply, answer),
        None => give_none(2, answer),
    }
}
