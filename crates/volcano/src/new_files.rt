//! Files of the system that are replaced by new ones.

ghost use Rattle.vx_catalog_bytes.specs.Stored.{silent};

use crate::output::Output;
use std::alloc::{AllocError, Global};
use std::fs;
use std::fs::{File, Files};
use volcano_answer::Replacing;
use vx_catalog_bytes::Broken;

/// A file of the system that is to be replaced. No clause knows what it holds.
#[derive(Drop)]
pub struct NewFiles<'r, R> {
    rt: &'r R,
    alloc: Global,
    /// The path of the new file beside it, once that is begun. `None` is that the place gets the bytes itself.
    beside: Option<String>,
}

impl<'r, R> NewFiles<'r, R> {
    /// Over the files that this runtime reaches.
    pub fn new(rt: &'r R, alloc: Global) -> NewFiles<'r, R> {
        NewFiles {
            rt,
            alloc,
            beside: None,
        }
    }
}

impl<R: Files<File = File>> NewFiles<'_, R> {
    // The path of a file beside a place. A place that has something else than a file, as a pipe or `/dev/null`, gets the bytes itself.
    fn path_beside(&self, path: &str) -> Result<Option<String>, AllocError> {
        if fs::metadata(self.rt, path).is_ok_and(|found| !found.is_file()) {
            return Ok(None);
        }
        Ok(Some(format!(in self.alloc; "{path}.part")?))
    }

    // Removes the file beside the place.
    fn remove_beside(&self) {
        if let Some(beside) = &self.beside {
            let _ = fs::remove_file(self.rt, beside.as_str());
        }
    }
}

impl<R: Files<File = File>> Replacing for NewFiles<'_, R> {
    type Part = Output<File>;

    ghost holds = { λ _ _. silent };

    fn begin(&mut self, path: &str) -> Result<Output<File>, Broken> {
        let Ok(beside) = self.path_beside(path) else {
            return Err(Broken);
        };
        self.beside = beside;
        let begun = match &self.beside {
            Some(beside) => fs::create(self.rt, beside.as_str()),
            None => fs::create(self.rt, path),
        };
        match begun {
            Ok(file) => Ok(Output::new(file)),
            Err(_) => Err(Broken),
        }
    }

    fn finish(&mut self, path: &str, part: Output<File>) -> Result<(), Broken> {
        let Some(beside) = &self.beside else {
            return Ok(());
        };
        // A disk that is full may say so here alone.
        let is_written = part.into_inner().sync_all().is_ok();
        if is_written && fs::rename(self.rt, beside.as_str(), path).is_ok() {
            return Ok(());
        }
        self.remove_beside();
        Err(Broken)
    }

    fn discard(&mut self, _part: Output<File>) {
        self.remove_beside();
    }
}
