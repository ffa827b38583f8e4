//! What each call comes to: a status, and a text that answers or the printed line of a refusal.

ghost use Rattle.std.specs.Prelude.{◌≡◌, [], None, true, false, map, string_bytes, IfOk, IfErr, IfSome, IfNone};
ghost use Rattle.vx_check.specs.Accepted.{accepted_text};
ghost use Rattle.volcano_embedding.specs.Texts.{table_form};
ghost use Rattle.volcano_embedding.specs.Planning.{NoPlan, CheckRefuses};
ghost use Rattle.volcano_embedding.specs.Annotated.{AnnotateRefuses};
ghost use Rattle.volcano_embedding.specs.Serial.{SerialRefuses};
ghost use Rattle.volcano_embedding.specs.Replies.{IsCheck, IsFullCheck, IsExplanation, IsAnnotation, IsEvaluation, IsAnswerTo, RefusesTo, AnswersTo, IsRefusalReply, ExplainsCode, IsNoCode};

use crate::files::CallTexts;
use crate::forms::ExplainForm;
use crate::lines::{line_of, node_of};
use crate::more::{ErrorForm, more_of};
use crate::session::{Findings, Session};
use crate::tables::TableText;
use std::alloc::{AllocError, Global};
use std::str;
use volcano_refusals::{Refusal, status};
use volcano_why::entry;
use vx_check::accepted_text;

/// What is asked of a plan over a catalog.
#[derive(Clone, Copy)]
pub enum Question<'q> {
    /// Whether the checker accepts it.
    Check,
    /// What the checker says of all its nodes.
    CheckAll,
    /// What it does, once the checker has accepted it.
    Explain(ExplainForm),
    /// Which claims follow, also by what is known of columns if that is said.
    Annotate(bool),
    /// Its serial rows over these tables.
    Evaluate(&'q [TableText]),
}

/// What a call comes to. The status is 0 where the text answers, and else that with which the program ends: 3 for
/// input that is refused and 4 where memory ran out or a sum or a function overflowed. Then the text is the printed line of the
/// refusal, or has a line for each node that fails.
#[derive(Drop)]
pub struct Reply {
    pub status: u8,
    pub is_total: bool,
    pub node: Option<u32>,
    pub text: Vec<u8>,
    /// Whether the text is the line of a refusal.
    pub is_line: bool,
    /// What is said of a refusal below its line, if that was asked for.
    pub more: Vec<u8>,
}

// A reply without a text, where memory ran out.
fn no_memory(alloc: Global) -> Reply
    ensures status { result.status ≡ 4 }
    ensures node { result.node ≡ None }
    ensures text { result.text.items ≡ [] }
    ensures more { result.more.items ≡ [] }
{
    Reply {
        status: 4,
        is_total: false,
        node: None,
        text: Vec::new(alloc),
        is_line: false,
        more: Vec::new(alloc),
    }
}

/// The reply to what is refused: its status, its node and its printed line, with what is said below it in the form that is asked for.
/// Without memory for that nothing is said below it.
pub fn refusal_reply(
    alloc: Global,
    texts: &CallTexts<'_>,
    draws_all: bool,
    form: ErrorForm,
    refusal: &Refusal,
) -> Reply
    ensures reply { IsRefusalReply refusal.now result }
    ensures short { form ≡ ErrorForm.Short → result.more.items ≡ [] }
{
    let Ok(text) = line_of(alloc, refusal) else {
        return no_memory(alloc);
    };
    let more = match more_of(alloc, texts, draws_all, form, refusal) {
        Ok(more) => more,
        Err(_) => Vec::new(alloc),
    };
    Reply {
        status: status(refusal),
        is_total: false,
        node: node_of(refusal),
        text,
        is_line: true,
        more,
    }
}

// The reply that a text is.
fn text_reply(alloc: Global, text: Vec<u8>, is_total: bool) -> Reply
    ensures status { result.status ≡ 0 }
    ensures total { result.is_total ≡ is_total }
    ensures node { result.node ≡ None }
    ensures text { result.text.items ≡ text.items }
    ensures line { result.is_line ≡ false }
    ensures more { result.more.items ≡ [] }
{
    Reply {
        status: 0,
        is_total,
        node: None,
        text,
        is_line: false,
        more: Vec::new(alloc),
    }
}

// The reply that the lines of nodes that fail are.
fn failing_reply(alloc: Global, lines: String) -> Reply
    ensures status { result.status ≡ 3 }
    ensures node { result.node ≡ None }
    ensures text { result.text.items ≡ string_bytes lines }
    ensures line { result.is_line ≡ false }
    ensures more { result.more.items ≡ [] }
{
    Reply {
        status: 3,
        is_total: false,
        node: None,
        text: lines.into_bytes(),
        is_line: false,
        more: Vec::new(alloc),
    }
}

// The reply to an accepted plan.
fn accepted_reply(alloc: Global, is_total: bool) -> Result<Reply, AllocError>
    ensures status { IfOk result (λ r. r.status ≡ 0) }
    ensures total { IfOk result (λ r. r.is_total ≡ is_total) }
    ensures text { IfOk result (λ r. r.text.items ≡ accepted_text is_total) }
    ensures more { IfOk result (λ r. r.more.items ≡ []) }
{
    let text = accepted_text(alloc, is_total)?;
    Ok(text_reply(alloc, text, is_total))
}

// Whether the checker accepts a plan.
fn check_reply(alloc: Global, session: &Session, plan: &[u8]) -> Result<Reply, Refusal>
    ensures reply { IfOk result (IsCheck session.now plan.now) }
    ensures more { IfOk result (λ r. r.more.items ≡ []) }
    ensures refused { IfErr result (CheckRefuses session.now plan.now) }
{
    let is_total = session.check(alloc, plan)?;
    Ok(accepted_reply(alloc, is_total)?)
}

// What the checker says of all nodes of a plan.
fn check_all_reply(alloc: Global, session: &Session, plan: &[u8]) -> Result<Reply, Refusal>
    ensures reply { IfOk result (IsFullCheck session.now plan.now) }
    ensures more { IfOk result (λ r. r.more.items ≡ []) }
    ensures refused { IfErr result (NoPlan session.now plan.now) }
{
    match session.check_all(alloc, plan)? {
        Findings::Accepted { is_total } => Ok(accepted_reply(alloc, is_total)?),
        Findings::Failing(lines) => Ok(failing_reply(alloc, lines)),
    }
}

// An accepted plan, explained in a form.
fn explain_reply(
    alloc: Global,
    session: &Session,
    form: ExplainForm,
    plan: &[u8],
) -> Result<Reply, Refusal>
    ensures reply { IfOk result (IsExplanation form session.now plan.now) }
    ensures more { IfOk result (λ r. r.more.items ≡ []) }
    ensures refused { IfErr result (CheckRefuses session.now plan.now) }
{
    let text = session.explain(alloc, form, plan)?;
    Ok(text_reply(alloc, text, false))
}

// A plan with the claims that follow.
fn annotate_reply(
    alloc: Global,
    session: &Session,
    derive: bool,
    plan: &[u8],
) -> Result<Reply, Refusal>
    ensures reply { IfOk result (IsAnnotation derive session.now plan.now) }
    ensures more { IfOk result (λ r. r.more.items ≡ []) }
    ensures refused { IfErr result (AnnotateRefuses session.now derive plan.now) }
{
    let annotated = session.annotate(alloc, derive, plan)?;
    Ok(text_reply(alloc, annotated.text, annotated.is_total))
}

// The serial rows of a plan over tables.
fn evaluate_reply(
    alloc: Global,
    session: &Session,
    tables: &[TableText],
    plan: &[u8],
) -> Result<Reply, Refusal>
    ensures reply { IfOk result (IsEvaluation (map table_form tables.now) session.now plan.now) }
    ensures more { IfOk result (λ r. r.more.items ≡ []) }
    ensures refused { IfErr result (SerialRefuses session.now (map table_form tables.now) plan.now) }
{
    let text = session.evaluate(alloc, tables, plan)?;
    Ok(text_reply(alloc, text, false))
}

// What answers a question of a plan.
fn answer(
    alloc: Global,
    session: &Session,
    question: Question<'_>,
    plan: &[u8],
) -> Result<Reply, Refusal>
    ensures answer { IfOk result (IsAnswerTo question.entry session.now plan.now) }
    ensures more { IfOk result (λ r. r.more.items ≡ []) }
    ensures refused { IfErr result (RefusesTo question.entry session.now plan.now) }
{
    match question {
        Question::Check => check_reply(alloc, session, plan),
        Question::CheckAll => check_all_reply(alloc, session, plan),
        Question::Explain(form) => explain_reply(alloc, session, form, plan),
        Question::Annotate(derive) => annotate_reply(alloc, session, derive, plan),
        Question::Evaluate(tables) => evaluate_reply(alloc, session, tables, plan),
    }
}

// The texts of a call that asks this.
fn texts_of<'t>(session: &'t Session, question: Question<'t>, plan: &'t [u8]) -> CallTexts<'t> {
    let tables = match question {
        Question::Evaluate(tables) => tables,
        _ => &[],
    };
    CallTexts {
        catalog: session.text(),
        plan,
        tables,
    }
}

/// The reply to a question of a plan over the catalog of a session.
pub fn reply_to(
    alloc: Global,
    session: &Session,
    question: Question<'_>,
    plan: &[u8],
    form: ErrorForm,
) -> Reply
    ensures answer { AnswersTo question.entry session.now plan.now result }
    ensures short { form ≡ ErrorForm.Short → result.more.items ≡ [] }
{
    match answer(alloc, session, question, plan) {
        Ok(reply) => reply,
        Err(refusal) => {
            let draws_all = matches!(question, Question::Explain(_));
            let texts = texts_of(session, question, plan);
            refusal_reply(alloc, &texts, draws_all, form, &refusal)
        }
    }
}

/// What a code or the name of one means. `None` for what is neither.
pub fn why_reply(alloc: Global, word: &[u8]) -> Option<Reply>
    ensures reply { IfSome result (ExplainsCode word.now) }
    ensures none { IfNone result (IsNoCode word.now) }
{
    let Ok(word) = str::from_utf8(word) else {
        return None;
    };
    let text = entry(word)?;
    match Vec::from_slice(alloc, text.as_bytes()) {
        Ok(text) => Some(text_reply(alloc, text, false)),
        Err(_) => Some(no_memory(alloc)),
    }
}
