//! What is asked of plans over a catalog that a program in another language holds.

ghost use Rattle.std.specs.Prelude.{◌≡◌, [], List, Some, None, IfSome, IfNone};
ghost use Rattle.vx_catalog_relations.specs.Relation.{Relation};
ghost use Rattle.volcano_embedding.specs.Handle.{catalog_in};
ghost use Rattle.volcano_embedding.specs.Replies.{AnswersTo};

use crate::handle::CatalogHandle;
use crate::more::ErrorForm;
use crate::replies::{Question, Reply, reply_to};
use std::alloc::Global;

/// The reply to a question of a plan over the catalog, or none where the handle is closed.
pub fn reply_over(
    alloc: Global,
    handle: &mut CatalogHandle,
    question: Question<'_>,
    plan: &[u8],
    form: ErrorForm,
) -> Option<Reply>
    ensures reply { IfSome result (λ r. (relations : List Relation) × (catalog_in handle.old ≡ Some relations) × AnswersTo question.entry relations plan.now r) }
    ensures short { form ≡ ErrorForm.Short → IfSome result (λ r. r.more.items ≡ []) }
    ensures closed { IfNone result (catalog_in handle.old ≡ None) }
    ensures kept { catalog_in handle.new ≡ catalog_in handle.old }
{
    let session = handle.take(alloc)?;
    let reply = reply_to(alloc, session.session(), question, plan, form);
    *handle = CatalogHandle::of(session);
    Some(reply)
}
