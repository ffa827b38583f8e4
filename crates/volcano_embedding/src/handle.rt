//! A catalog that a program in another language holds.

ghost use Rattle.std.specs.Prelude.{◌≡◌, None, Some, is_some, option_map, IfOk, IfErr};
ghost use Rattle.volcano_embedding.specs.Planning.{NoCatalog};
ghost use Rattle.volcano_embedding.specs.Opened.{IsOpenOn};

use crate::held::Held;
use crate::session::Session;
use crate::shared::SharedSession;
use std::alloc::{AllocError, Global};
use std::mem::replace;
use volcano_refusals::Refusal;

/// A catalog that a program in another language holds. It is closed before a catalog is read, and after it was let go. All of
/// its bytes are zero in one that was never opened, so that a program in C can make one.
#[repr(C)]
pub struct CatalogHandle {
    held: Held,
    is_open: bool,
    ghost agrees: { is_open ≡ is_some held.session },
}

// A value that may go to another thread.
fn for_thread<T: Send>(value: T) -> T
    ensures { result ≡ value }
{
    value
}

impl CatalogHandle {
    // A handle without a catalog.
    fn closed(alloc: Global) -> CatalogHandle
        ensures { result.held.session ≡ None }
    {
        CatalogHandle {
            held: Held::none(alloc),
            is_open: false,
        }
    }

    /// A handle of this session.
    pub(crate) fn of(session: Box<SharedSession>) -> CatalogHandle
        ensures { result.held.session ≡ Some session.value }
    {
        CatalogHandle {
            held: Held::of(session),
            is_open: true,
        }
    }

    // The session, where the handle is open.
    fn into_session(self) -> Option<Box<SharedSession>>
        ensures { option_map (λ b. b.value) result ≡ self.held.session }
    {
        let CatalogHandle { held, is_open } = self;
        if is_open {
            Some(held.into_session())
        } else {
            None
        }
    }

    /// Takes the session out, where the handle is open, and leaves it closed.
    pub(crate) fn take(&mut self, alloc: Global) -> Option<Box<SharedSession>>
        ensures taken { option_map (λ b. b.value) result ≡ self.old.held.session }
        ensures left { self.new.held.session ≡ None }
    {
        replace(self, CatalogHandle::closed(alloc)).into_session()
    }

    /// The same handle. That it may go to another thread is proved here.
    pub fn for_thread(self) -> CatalogHandle
        ensures { result ≡ self }
    {
        for_thread(self)
    }

    /// Whether it holds a catalog.
    pub fn is_open(&self) -> bool
        ensures { result ≡ is_some self.now.held.session }
    {
        self.is_open
    }

    /// Another handle of the same catalog, which may go to another thread: closed where this one is.
    pub fn another(&mut self, alloc: Global) -> Result<CatalogHandle, AllocError>
        ensures same { IfOk result (λ h. h.held.session ≡ self.old.held.session) }
        ensures kept { self.new.held.session ≡ self.old.held.session }
    {
        let Some(session) = self.take(alloc) else {
            return Ok(CatalogHandle::closed(alloc));
        };
        let another = session.another();
        *self = CatalogHandle::of(session);
        match Box::new(alloc, another?) {
            Ok(another) => Ok(CatalogHandle::of(another)),
            Err(_) => Err(AllocError),
        }
    }

    /// Lets the catalog go, where the handle is open.
    pub fn close(&mut self, alloc: Global)
        ensures { self.new.held.session ≡ None }
    {
        drop(self.take(alloc));
    }

    /// Reads the catalog of a JSON text, in place of the one that was read before. If it fails, the handle is closed.
    pub fn open(&mut self, alloc: Global, catalog: &[u8]) -> Result<(), Refusal>
        ensures opened { IfOk result (λ _. IsOpenOn self.new.held.session catalog.now) }
        ensures refused { IfErr result (NoCatalog catalog.now) }
        ensures closed { IfErr result (λ _. self.new.held.session ≡ None) }
    {
        self.close(alloc);
        let session = SharedSession::new(alloc, Session::open(alloc, catalog)?)?;
        *self = CatalogHandle::of(Box::new(alloc, session)?);
        Ok(())
    }
}

impl Drop for CatalogHandle {
    fn drop(self) {
        drop(self.into_session());
    }
}
