//! The files that arguments name.

/// The files that arguments name: a catalog, plans and a folder of tables, which is empty where none is named.
#[derive(Clone, Copy)]
pub struct Inputs<'a> {
    pub catalog: &'a str,
    pub plans: &'a [&'a str],
    pub folder: &'a str,
    /// Whether all of a plan is drawn, and not only the lines around a node.
    pub draws_all: bool,
}
