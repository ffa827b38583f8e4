//! The entry points over a catalog that is read once and asked about many plans.

ghost use Rattle.std.specs.Prelude.{◌≡◌, None};
ghost use Rattle.volcano_embedding.specs.Handle.{catalog_in};
ghost use Rattle.volcano_embed.specs.Over.{OpensAs, ChecksOver, ChecksAllOver, ExplainsOver, AnnotatesOver, EvaluatesOver, IsShared};

use crate::answer::{Answer, give_none, give_span};
use crate::asking::{ask_over, give_refused};
use std::alloc::Global;
use volcano_embedding::{CatalogHandle, ExplainForm, Question, TableSpan, tables_in};

/// Reads a catalog, in place of the one that was read before.
#[unsafe(no_mangle)]
pub extern "C" fn volcano_catalog_open(
    alloc: Global,
    text: &[u8],
    catalog: &mut CatalogHandle,
    answer: &mut Answer,
) -> u8
    ensures answer { OpensAs text.now (catalog_in catalog.new) result answer.new }
    ensures short { answer.old.errors ≡ 0 → answer.new.more_length ≡ 0 }
    ensures errors { answer.new.errors ≡ answer.old.errors }
{
    match catalog.open(alloc, text) {
        Ok(()) => give_none(0, answer),
        Err(refusal) => give_refused(alloc, text, &refusal, answer),
    }
}

/// Checks a plan over a catalog that was read.
#[unsafe(no_mangle)]
pub extern "C" fn volcano_catalog_check(
    alloc: Global,
    catalog: &mut CatalogHandle,
    plan: &[u8],
    answer: &mut Answer,
) -> u8
    ensures answer { ChecksOver (catalog_in catalog.old) plan.now result answer.new }
    ensures kept { catalog_in catalog.new ≡ catalog_in catalog.old }
    ensures short { answer.old.errors ≡ 0 → answer.new.more_length ≡ 0 }
    ensures errors { answer.new.errors ≡ answer.old.errors }
{
    ask_over(alloc, catalog, Question::Check, plan, answer)
}

/// Checks all nodes of a plan over a catalog that was read.
#[unsafe(no_mangle)]
pub extern "C" fn volcano_catalog_check_all(
    alloc: Global,
    catalog: &mut CatalogHandle,
    plan: &[u8],
    answer: &mut Answer,
) -> u8
    ensures answer { ChecksAllOver (catalog_in catalog.old) plan.now result answer.new }
    ensures kept { catalog_in catalog.new ≡ catalog_in catalog.old }
    ensures short { answer.old.errors ≡ 0 → answer.new.more_length ≡ 0 }
    ensures errors { answer.new.errors ≡ answer.old.errors }
{
    ask_over(alloc, catalog, Question::CheckAll, plan, answer)
}

/// Explains a plan over a catalog that was read.
#[unsafe(no_mangle)]
pub extern "C" fn volcano_catalog_explain(
    alloc: Global,
    catalog: &mut CatalogHandle,
    plan: &[u8],
    answer: &mut Answer,
) -> u8
    ensures answer { ExplainsOver ExplainForm.Text (catalog_in catalog.old) plan.now result answer.new }
    ensures kept { catalog_in catalog.new ≡ catalog_in catalog.old }
    ensures short { answer.old.errors ≡ 0 → answer.new.more_length ≡ 0 }
    ensures errors { answer.new.errors ≡ answer.old.errors }
{
    ask_over(
        alloc,
        catalog,
        Question::Explain(ExplainForm::Text),
        plan,
        answer,
    )
}

/// Explains a plan over a catalog that was read as JSON.
#[unsafe(no_mangle)]
pub extern "C" fn volcano_catalog_explain_json(
    alloc: Global,
    catalog: &mut CatalogHandle,
    plan: &[u8],
    answer: &mut Answer,
) -> u8
    ensures answer { ExplainsOver ExplainForm.Json (catalog_in catalog.old) plan.now result answer.new }
    ensures kept { catalog_in catalog.new ≡ catalog_in catalog.old }
    ensures short { answer.old.errors ≡ 0 → answer.new.more_length ≡ 0 }
    ensures errors { answer.new.errors ≡ answer.old.errors }
{
    ask_over(
        alloc,
        catalog,
        Question::Explain(ExplainForm::Json),
        plan,
        answer,
    )
}

/// Explains a plan over a catalog that was read as a graph.
#[unsafe(no_mangle)]
pub extern "C" fn volcano_catalog_explain_dot(
    alloc: Global,
    catalog: &mut CatalogHandle,
    plan: &[u8],
    answer: &mut Answer,
) -> u8
    ensures answer { ExplainsOver ExplainForm.Dot (catalog_in catalog.old) plan.now result answer.new }
    ensures kept { catalog_in catalog.new ≡ catalog_in catalog.old }
    ensures short { answer.old.errors ≡ 0 → answer.new.more_length ≡ 0 }
    ensures errors { answer.new.errors ≡ answer.old.errors }
{
    ask_over(
        alloc,
        catalog,
        Question::Explain(ExplainForm::Dot),
        plan,
        answer,
    )
}

/// Writes a plan over a catalog that was read with the claims that follow, also by what is known of columns if `derive` says so.
#[unsafe(no_mangle)]
pub extern "C" fn volcano_catalog_annotate(
    alloc: Global,
    catalog: &mut CatalogHandle,
    plan: &[u8],
    derive: bool,
    answer: &mut Answer,
) -> u8
    ensures answer { AnnotatesOver derive (catalog_in catalog.old) plan.now result answer.new }
    ensures kept { catalog_in catalog.new ≡ catalog_in catalog.old }
    ensures short { answer.old.errors ≡ 0 → answer.new.more_length ≡ 0 }
    ensures errors { answer.new.errors ≡ answer.old.errors }
{
    ask_over(alloc, catalog, Question::Annotate(derive), plan, answer)
}

/// Evaluates a plan serially over a catalog that was read and tables, whose names and texts are cut out of bytes.
#[unsafe(no_mangle)]
pub extern "C" fn volcano_catalog_evaluate(
    alloc: Global,
    catalog: &mut CatalogHandle,
    plan: &[u8],
    bytes: &[u8],
    spans: &[TableSpan],
    answer: &mut Answer,
) -> u8
    ensures answer { EvaluatesOver (catalog_in catalog.old) plan.now bytes.now spans.now result answer.new }
    ensures kept { catalog_in catalog.new ≡ catalog_in catalog.old }
    ensures short { answer.old.errors ≡ 0 → answer.new.more_length ≡ 0 }
    ensures errors { answer.new.errors ≡ answer.old.errors }
{
    match tables_in(alloc, bytes, spans) {
        Ok(tables) => ask_over(
            alloc,
            catalog,
            Question::Evaluate(tables.as_slice()),
            plan,
            answer,
        ),
        Err(fault) => give_span(&fault, answer),
    }
}

/// Makes another handle of a catalog that was read.
#[unsafe(no_mangle)]
pub extern "C" fn volcano_catalog_share(
    alloc: Global,
    catalog: &mut CatalogHandle,
    another: &mut CatalogHandle,
) -> u8
    ensures shared { IsShared (catalog_in catalog.old) (catalog_in another.new) result }
    ensures kept { catalog_in catalog.new ≡ catalog_in catalog.old }
{
    another.close(alloc);
    if !catalog.is_open() {
        return 2;
    }
    match catalog.another(alloc) {
        Ok(handle) => {
            *another = handle;
            0
        }
        Err(_) => 4,
    }
}

/// Lets a catalog go.
#[unsafe(no_mangle)]
pub extern "C" fn volcano_catalog_close(alloc: Global, catalog: &mut CatalogHandle)
    ensures { catalog_in catalog.new ≡ None }
{
    catalog.close(alloc);
}
