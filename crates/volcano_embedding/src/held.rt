//! A session on the heap, or none, behind a pointer that does not show what it points to.

ghost use Rattle.std.specs.Prelude.{◌≡◌, true, List, Option, Some, None, is_some};
ghost use Rattle.vx_catalog_relations.specs.Relation.{Relation};
ghost use Rattle.volcano_embedding.specs.Held.{held_owns, held_coded};

use crate::box_parts::BoxParts;
use crate::shared::SharedSession;
use std::alloc::Global;
use std::marker::Model;
use std::ptr::null_mut;

/// A session on the heap, or none. The pointer is one to bytes, since nothing that owns a list may cross to C, not even behind
/// a pointer. The ghost field says which session it is, and what is owned says that it is behind the pointer. A value that is
/// dropped leaves its session where it is: whoever holds one takes the session out first.
#[repr(C)]
#[derive(Drop)]
pub(crate) struct Held {
    at: *mut u8,
    alloc: Global,
    pub(crate) ghost session: { Option (List Relation) } by { held_coded },
}

impl Model for Held {
    ghost also_owns = { λ h. held_owns h.alloc h.at h.session };
}

impl Held {
    /// No session, behind the null pointer.
    pub(crate) fn none(alloc: Global) -> Held
        ensures { result.session ≡ None }
    {
        let at = null_mut();
        Held { at, alloc }
    }

    // The session whose box has these parts.
    fn of_parts(parts: BoxParts<SharedSession, Global>) -> Held
        ensures { result.session ≡ Some parts.value }
    {
        let BoxParts { ptr, alloc } = parts;
        Held {
            at: ptr as *mut u8,
            alloc,
        }
    }

    // The parts of the session's box.
    fn into_parts(self) -> BoxParts<SharedSession, Global>
        requires { is_some self.session ≡ true }
        ensures { Some result.value ≡ self.session }
    {
        let Held { at, alloc } = self;
        BoxParts {
            ptr: at as *mut SharedSession,
            alloc,
        }
    }

    /// This session.
    pub(crate) fn of(session: Box<SharedSession>) -> Held
        ensures { result.session ≡ Some session.value }
    {
        Held::of_parts(BoxParts::of(session))
    }

    /// The session, which is there.
    pub(crate) fn into_session(self) -> Box<SharedSession>
        requires { is_some self.session ≡ true }
        ensures { Some result.value ≡ self.session }
    {
        self.into_parts().into_box()
    }
}

// It may go to another thread, since a box of a session may.
unsafe impl Send for Held {}
