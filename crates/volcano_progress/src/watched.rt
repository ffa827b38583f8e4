//! A store whose tables show how much of them has been read.

ghost use Rattle.std.specs.Prelude.{◌≡◌, ◌<◌, ◌≤◌, ◌⊎◌, ◌||◌, true, false, length, take, is_err, Ok, None, IfOk, IsOk, IsErr, IfSome, IsSomeAnd, IsNone};
ghost use Rattle.std.specs.Io.KnownBytes.{Appends, ReadConsumes};
ghost use Rattle.vx_catalog_bytes.specs.Stored.{MayBeAbsent, OpensAs};
ghost use Rattle.volcano_progress.specs.Name.{IsTable};
ghost use Rattle.volcano_progress.specs.Progress.{IsCounted, IsSameCount, IsUnread, progress_text, ending_text};

use crate::name::{relation_at, shown_name};
use crate::progress::Progress;
use crate::screen::Screen;
use std::alloc::Global;
use vx_catalog_bytes::{Broken, ByteIn, ByteOut, Store, write_all};

// What is shown of one table while it is read.
struct Display<'s, C: Screen> {
    alloc: Global,
    screen: &'s C,
    out: C::Out,
    progress: Progress,
}

// Erases the line, if one is shown.
fn erase<O: ByteOut>(progress: &mut Progress, out: &mut O)
    ensures hidden { progress.new.is_shown ≡ false }
    ensures same { IsSameCount progress.old progress.new }
    ensures erased { O.has_failed out.new ≡ false → Appends (O.contents out.old) (O.contents out.new) (ending_text progress.old.is_shown) }
{
    let text = progress.take_end();
    let _ = write_all(out, text);
}

impl<'s, C: Screen> Display<'s, C> {
    // Writes the line, if it is due. Where memory runs out or the writer fails, it is not written.
    fn show(&mut self, now: u64)
        ensures early { now < self.old.progress.due → self.new.out ≡ self.old.out }
        ensures same { IsSameCount self.old.progress self.new.progress }
        ensures written { C.Out.has_failed self.new.out ≡ false → (self.new.out ≡ self.old.out) ⊎ Appends (C.Out.contents self.old.out) (C.Out.contents self.new.out) (progress_text self.old.progress) }
    {
        if let Ok(Some(text)) = self.progress.take_due(self.alloc, now) {
            let _ = write_all(&mut self.out, text.as_slice());
        }
    }

    // Counts bytes that were read, and writes the line if it is due.
    fn note(&mut self, chunk: &[u8])
        ensures counted { IsCounted self.old.progress self.new.progress chunk.now }
        ensures written { C.Out.has_failed self.new.out ≡ false → (self.new.out ≡ self.old.out) ⊎ Appends (C.Out.contents self.old.out) (C.Out.contents self.new.out) (progress_text self.new.progress) }
    {
        self.progress.count(chunk);
        if let Some(now) = self.screen.now() {
            self.show(now);
        }
    }

    // Erases the line, if one is shown.
    fn end(&mut self)
        ensures hidden { self.new.progress.is_shown ≡ false }
        ensures same { IsSameCount self.old.progress self.new.progress }
        ensures erased { C.Out.has_failed self.new.out ≡ false → Appends (C.Out.contents self.old.out) (C.Out.contents self.new.out) (ending_text self.old.progress.is_shown) }
    {
        erase(&mut self.progress, &mut self.out)
    }
}

impl<C: Screen> Drop for Display<'_, C> {
    fn drop(self) {
        let Display {
            alloc: _,
            screen: _,
            mut out,
            mut progress,
        } = self;
        erase(&mut progress, &mut out);
    }
}

/// A file that shows how much of it has been read, or not.
#[derive(Drop)]
pub struct WatchedFile<'s, I, C: Screen> {
    inner: I,
    display: Option<Display<'s, C>>,
}

impl<I: ByteIn, C: Screen> ByteIn for WatchedFile<'_, I, C> {
    ghost remaining = { λ f. I.remaining f.inner };

    ghost has_failed = { λ f. I.has_failed f.inner };

    ghost is_reliable = { λ f. I.is_reliable f.inner };

    fn read(&mut self, buf: &mut [u8]) -> Result<usize, Broken>
        ensures bound { IfOk result (λ n. n ≤ length buf.new) }
        ensures bytes { ReadConsumes (I.remaining self.old.inner) (I.remaining self.new.inner) result buf.new }
        ensures fails { I.has_failed self.new.inner ≡ (I.has_failed self.old.inner || is_err result) }
        ensures stays { I.has_failed self.old.inner ≡ true → IsErr result }
        ensures reliable { I.is_reliable self.old.inner ≡ true → (I.is_reliable self.new.inner ≡ true) × IsOk result }
        ensures quiet { IsNone self.old.display → IsNone self.new.display }
        ensures counted { IfOk result (λ n. IfSome self.old.display (λ before. IsSomeAnd self.new.display (λ after. 0 < n → IsCounted before.progress after.progress (take n buf.new)))) }
        ensures hidden { IsErr result ⊎ (result ≡ Ok 0) → IfSome self.new.display (λ display. display.progress.is_shown ≡ false) }
    {
        let result = self.inner.read(buf);
        if let Some(display) = &mut self.display {
            match &result {
                Ok(n) if *n > 0 => display.note(&buf[..*n]),
                _ => display.end(),
            }
        }
        result
    }

    fn failed(&self) -> bool {
        self.inner.failed()
    }
}

/// A store whose tables show on a screen how much of them has been read, where there is a screen. Files with other
/// endings are no tables.
#[derive(Drop)]
pub struct Watched<'s, S, C> {
    alloc: Global,
    files: S,
    screen: Option<&'s C>,
    began: Option<u64>,
}

impl<'s, S: Store, C: Screen> Watched<'s, S, C> {
    /// The files of a store. The command begins now.
    pub fn new(alloc: Global, files: S, screen: Option<&'s C>) -> Watched<'s, S, C> {
        let began = match screen {
            Some(screen) => screen.now(),
            None => None,
        };
        Watched {
            alloc,
            files,
            screen,
            began,
        }
    }

    // What is shown of the file at a path: nothing of a file that is no table. Where memory runs out, nothing either.
    fn display(&self, path: &str) -> Option<Display<'s, C>>
        ensures quiet { IsNone self.now.screen → IsNone result }
        ensures other { ¬ (IsTable path.now) → IsNone result }
        ensures nothing { IfSome result (λ display. IsUnread display.progress) }
        ensures whole { IfSome result (λ display. C.Out.has_failed display.out ≡ false) }
    {
        let screen = self.screen?;
        let name = relation_at(path.as_bytes())?;
        let (began, opened) = (self.began?, screen.now()?);
        let Ok(name) = shown_name(self.alloc, name) else {
            return None;
        };
        Some(Display {
            alloc: self.alloc,
            screen,
            out: screen.out(),
            progress: Progress::new(name, screen.size(path), began, opened),
        })
    }
}

impl<'s, S: Store, C: Screen> Store for Watched<'s, S, C> {
    type In = WatchedFile<'s, S::In, C>;

    ghost holds = { λ w path. S.holds w.files path };

    ghost is_reliable = { λ w path. S.is_reliable w.files path };

    fn open(&self, path: &str) -> Option<WatchedFile<'s, S::In, C>>
        ensures bytes { IfSome result (λ file. OpensAs (S.holds self.now.files path.now) (S.In.remaining file.inner)) }
        ensures lacking { result ≡ None → MayBeAbsent (S.holds self.now.files path.now) }
        ensures whole { IfSome result (λ file. S.In.has_failed file.inner ≡ false) }
        ensures reliable { IfSome result (λ file. S.is_reliable self.now.files path.now ≡ true → S.In.is_reliable file.inner ≡ true) }
        ensures quiet { IsNone self.now.screen → IfSome result (λ file. IsNone file.display) }
        ensures other { ¬ (IsTable path.now) → IfSome result (λ file. IsNone file.display) }
    {
        Some(WatchedFile {
            inner: self.files.open(path)?,
            display: self.display(path),
        })
    }
}
