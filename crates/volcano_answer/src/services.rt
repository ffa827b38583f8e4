//! What all answers of one call are made with.

ghost use Rattle.std.specs.Prelude.{◌≡◌};

use crate::layouts::Layout;
use std::alloc::Global;
use volcano_tables::Loading;
use vx_rows_values::KeySeed;

/// What all answers of one call are made with.
#[derive(Clone, Copy)]
pub struct Services<'a, T, R, C> {
    /// Starts threads.
    pub rt: &'a T,
    /// Runs plans.
    pub engine: &'a R,
    /// Measures what statistics say.
    pub clock: &'a C,
    pub alloc: Global,
    /// Keys are hashed by it; no answer depends on it.
    pub seed: KeySeed,
    /// How many threads load a table at most, and make the text of rows.
    pub threads: usize,
    /// Whether a person reads what is said of refusals, as on a terminal.
    pub is_read: bool,
    /// How rows are written.
    pub layout: Layout,
    /// How many columns the screen has that shows the rows, if one does and that is known.
    pub columns: Option<usize>,
}

impl<'a, T, R, C> Services<'a, T, R, C> {
    /// Where one thread loads each table and makes the text of rows, which is CSV, and no person reads what is said of refusals.
    pub fn new(
        rt: &'a T,
        engine: &'a R,
        clock: &'a C,
        alloc: Global,
        seed: KeySeed,
    ) -> Services<'a, T, R, C>
        ensures engine { result.engine.now ≡ engine.now }
        ensures layout { result.layout ≡ Layout.Csv }
    {
        Services {
            rt,
            engine,
            clock,
            alloc,
            seed,
            threads: 1,
            is_read: false,
            layout: Layout::Csv,
            columns: None,
        }
    }

    /// How databases are filled.
    pub fn loading(&self) -> Loading {
        Loading {
            alloc: self.alloc,
            threads: self.threads,
            seed: self.seed,
        }
    }

    /// These services with up to `threads` threads.
    pub fn with_threads(&self, threads: usize) -> Services<'a, T, R, C>
        ensures engine { result.engine.now ≡ self.now.engine.now }
        ensures layout { result.layout ≡ self.now.layout }
        ensures columns { result.columns ≡ self.now.columns }
    {
        Services { threads, ..*self }
    }

    /// These services, where rows are written in this layout.
    pub fn with_layout(&self, layout: Layout) -> Services<'a, T, R, C>
        ensures engine { result.engine.now ≡ self.now.engine.now }
        ensures layout { result.layout ≡ layout }
        ensures columns { result.columns ≡ self.now.columns }
    {
        Services { layout, ..*self }
    }

    /// These services, where a screen of so many columns shows the rows, if that is known.
    pub fn with_columns(&self, columns: Option<usize>) -> Services<'a, T, R, C>
        ensures engine { result.engine.now ≡ self.now.engine.now }
        ensures layout { result.layout ≡ self.now.layout }
        ensures columns { result.columns ≡ columns }
    {
        Services { columns, ..*self }
    }

    /// These services, where a person reads what is said of refusals, or not.
    pub fn with_reader(&self, is_read: bool) -> Services<'a, T, R, C>
        ensures engine { result.engine.now ≡ self.now.engine.now }
        ensures read { result.is_read ≡ is_read }
        ensures layout { result.layout ≡ self.now.layout }
        ensures columns { result.columns ≡ self.now.columns }
    {
        Services { is_read, ..*self }
    }
}
