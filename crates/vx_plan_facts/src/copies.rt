//! The inputs of a node, and its columns that are copies of theirs.

ghost use Rattle.std.specs.Prelude.{◌≡◌};

use vx_plan_nodes::{Copying, TypedNode};

/// Of which columns of an input those of an output are copies.
#[derive(Clone, Copy)]
pub enum Copies<'p> {
    /// By an operator over one input, or of whole rows.
    Of(Copying<'p>),
    /// The first ones, so many, are those of a left input.
    Left(usize),
    /// Those behind so many are those of a right input.
    Right(usize),
}

/// An input of a node.
#[derive(Clone, Copy)]
pub struct Input<'p> {
    pub copies: Copies<'p>,
    pub node: &'p TypedNode,
}

impl Copies<'_> {
    ghost use Rattle.vx_plan_nodes.specs.Describe.{source};
    ghost use Rattle.vx_plan_facts.specs.AskingView.{copies_of};

    /// The input column that an output column is a copy of.
    pub fn source(self, column: usize) -> Option<usize>
        ensures { result ≡ source (copies_of self.entry) column }
    {
        match self {
            Copies::Of(copying) => copying.source(column),
            Copies::Left(width) => (column < width).then_some(column),
            Copies::Right(width) => column.checked_sub(width),
        }
    }
}
