//! What is asked of a plan over a catalog's text, or over a catalog that was read.

ghost use Rattle.std.specs.Prelude.{◌≡◌};
ghost use Rattle.volcano_embedding.specs.Handle.{catalog_in};
ghost use Rattle.volcano_embedding.specs.Replies.{AnswersTo};
ghost use Rattle.volcano_embed.specs.Given.{AnswersAs, IsRefusal};
ghost use Rattle.volcano_embed.specs.Over.{AnswersOver};

use crate::answer::{Answer, errors_in, give, give_none};
use std::alloc::Global;
use volcano_embedding::{
    CallTexts, CatalogHandle, Question, Session, refusal_reply, reply_over, reply_to,
};
use volcano_refusals::Refusal;

/// Writes why the text of a catalog is none.
pub fn give_refused(alloc: Global, catalog: &[u8], refusal: &Refusal, answer: &mut Answer) -> u8
    ensures refusal { IsRefusal refusal.now result answer.new }
    ensures short { answer.old.errors ≡ 0 → answer.new.more_length ≡ 0 }
    ensures errors { answer.new.errors ≡ answer.old.errors }
{
    let texts = CallTexts {
        catalog,
        plan: b"",
        tables: &[],
    };
    let form = errors_in(answer);
    give(refusal_reply(alloc, &texts, false, form, refusal), answer)
}

/// Answers a question of a plan over the catalog of a text.
pub fn ask(
    alloc: Global,
    catalog: &[u8],
    question: Question<'_>,
    plan: &[u8],
    answer: &mut Answer,
) -> u8
    ensures answer { AnswersAs (λ relations. AnswersTo question.entry relations plan.now) catalog.now result answer.new }
    ensures short { answer.old.errors ≡ 0 → answer.new.more_length ≡ 0 }
    ensures errors { answer.new.errors ≡ answer.old.errors }
{
    let form = errors_in(answer);
    match Session::open(alloc, catalog) {
        Ok(session) => give(reply_to(alloc, &session, question, plan, form), answer),
        Err(refusal) => give_refused(alloc, catalog, &refusal, answer),
    }
}

/// Answers a question of a plan over a catalog that was read.
pub fn ask_over(
    alloc: Global,
    catalog: &mut CatalogHandle,
    question: Question<'_>,
    plan: &[u8],
    answer: &mut Answer,
) -> u8
    ensures answer { AnswersOver (λ relations. AnswersTo question.entry relations plan.now) (catalog_in catalog.old) result answer.new }
    ensures kept { catalog_in catalog.new ≡ catalog_in catalog.old }
    ensures short { answer.old.errors ≡ 0 → answer.new.more_length ≡ 0 }
    ensures errors { answer.new.errors ≡ answer.old.errors }
{
    let form = errors_in(answer);
    match reply_over(alloc, catalog, question, plan, form) {
        Some(reply) => give(reply, answer),
        None => give_none(2, answer),
    }
}
