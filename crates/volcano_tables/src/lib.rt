//! Where the rows of a plan's relations come from: the texts of a bundle, or the files of a folder.
#![tactic(auto)]

mod folder;
mod observer;
mod tables;
mod texts;
mod threads;

pub use folder::Folder;
pub use observer::{Observer, Unobserved};
pub use tables::{Scanning, Tables, load_tables};
pub use threads::{Loading, load_scanned_in_threads, load_tables_in_threads};
