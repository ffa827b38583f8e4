//! A session that several handles have, each in a thread of its own.

ghost use Rattle.std.specs.Prelude.{◌≡◌, IfOk};

use crate::session::Session;
use std::alloc::{AllocError, Global};
use std::marker::Model;
use std::sync::Arc;

/// A session that several handles have. It is let go with the last of them.
#[derive(Drop)]
pub(crate) struct SharedSession {
    session: Arc<Session, Global>,
}

impl Model for SharedSession {
    ghost use Rattle.std.specs.Prelude.{List};
    ghost use Rattle.std.specs.Arc.{arc_value};
    ghost use Rattle.vx_catalog_relations.specs.Relation.{Relation};

    ghost Value = { List Relation };

    ghost view = { λ s. arc_value s.session };
}

impl SharedSession {
    /// A session that one handle has.
    pub(crate) fn new(alloc: Global, session: Session) -> Result<SharedSession, AllocError>
        ensures { IfOk result (λ s. s ≡ session) }
    {
        match Arc::new(alloc, session) {
            Ok(session) => Ok(SharedSession { session }),
            Err(_) => Err(AllocError),
        }
    }

    /// The same session for one handle more.
    pub(crate) fn another(&self) -> Result<SharedSession, AllocError>
        ensures { IfOk result (λ s. s ≡ self.now) }
    {
        let session = Arc::try_clone(&self.session)?;
        Ok(SharedSession { session })
    }

    /// The session.
    pub(crate) fn session(&self) -> &Session
        ensures { result.now ≡ self.now }
    {
        &self.session
    }
}
