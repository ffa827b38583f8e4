//! Why a file does not open or is not read, as the system says it.

use std::fs;
use std::fs::{File, Files};
use std::io::ErrorKind;
use vx_catalog_bytes::Store;

/// Why a file does not open or is not read.
#[derive(Clone, Copy, Debug, PartialEq, Eq)]
pub enum Reason {
    IsMissing,
    IsForbidden,
    IsFolder,
    /// A part of its path is no folder.
    IsBelowFile,
    /// It is that of a relation whose name leads out of the folder of tables.
    LeadsOut,
}

impl Reason {
    /// For people.
    pub fn text(self) -> &'static str {
        match self {
            Reason::IsMissing => "there is no such file",
            Reason::IsForbidden => "the permission to read it is missing",
            Reason::IsFolder => "it is a folder",
            Reason::IsBelowFile => "a part of its path is no folder",
            Reason::LeadsOut => "the name of the relation leads out of the folder of tables",
        }
    }
}

/// What can say why a file is not read, and whether it may be read once more. No clause says what a file system answers.
pub trait Reasons {
    /// Why the file at this path does not open or is not read, if that is known.
    fn reason(&self, path: &str) -> Option<Reason>;

    /// Whether the file at this path gives its bytes at each reading. A pipe gives them once.
    fn is_regular(&self, path: &str) -> bool;
}

fn reason_of(kind: ErrorKind) -> Option<Reason> {
    match kind {
        ErrorKind::NotFound => Some(Reason::IsMissing),
        ErrorKind::PermissionDenied => Some(Reason::IsForbidden),
        ErrorKind::NotADirectory => Some(Reason::IsBelowFile),
        ErrorKind::IsADirectory => Some(Reason::IsFolder),
        _ => None,
    }
}

/// Why the system does not read the file at this path.
pub fn system_reason<R: Files<File = File>>(rt: &R, path: &str) -> Option<Reason> {
    match rt.metadata(path) {
        Ok(found) if found.is_dir() => Some(Reason::IsFolder),
        Ok(found) if !found.is_file() => None,
        Ok(_) => match fs::open(rt, path) {
            Ok(_) => None,
            Err(e) => reason_of(e.kind()),
        },
        Err(e) => reason_of(e.kind()),
    }
}

// Whether the system has a regular file at this path.
fn is_regular<R: Files<File = File>>(rt: &R, path: &str) -> bool {
    match rt.metadata(path) {
        Ok(found) => found.is_file(),
        Err(_) => false,
    }
}

/// Files of the system, and what reaches it.
#[derive(Drop)]
pub struct SystemFiles<'r, R, S> {
    pub rt: &'r R,
    pub files: S,
}

impl<R, S: Store> Store for SystemFiles<'_, R, S> {
    type In = S::In;

    ghost holds = { λ s. S.holds s.files };

    ghost is_reliable = { λ s. S.is_reliable s.files };

    fn open(&self, path: &str) -> Option<S::In> {
        self.files.open(path)
    }
}

impl<R: Files<File = File>, S> Reasons for SystemFiles<'_, R, S> {
    fn reason(&self, path: &str) -> Option<Reason> {
        system_reason(self.rt, path)
    }

    fn is_regular(&self, path: &str) -> bool {
        is_regular(self.rt, path)
    }
}
