//! Nodes over a catalog: columns by position, nodes by number.

ghost use Rattle.std.specs.Prelude.{◌≡◌};
ghost use Rattle.vx_plan_nodes.specs.Outline.{outline_of, plan_of, top_of, claim_of, kind_of, size_of, top};
ghost use Rattle.vx_plan_nodes.specs.Plan.{claim, number, size, target};

use crate::name::Name;
use std::sync::Arc;
use vx_rows_values::{ColType, OrderEntry, Test, Value};

/// How many workers: one, or as many as a declared size name is bound to, by the name's number.
#[derive(Clone, Copy, PartialEq, Eq)]
pub enum Size {
    /// One worker.
    One,
    /// As many as the size name with this number is bound to.
    Group(usize),
}

/// Where a key is sent: by a hash of this name, or by the declared range with this number.
#[derive(Drop)]
pub enum Route {
    /// To the worker that the router names for this route and these values.
    Hash(String),
    /// To the worker whose number is how many of the range's bounds are not above the value.
    Range(usize),
}

/// How rows lie on workers, as a claim says it.
#[derive(Drop)]
pub enum Part {
    /// All rows at one worker.
    One,
    /// Each row at one worker, whichever.
    Any,
    /// Every row at every worker.
    All,
    /// Each row at the worker to which the route sends its values in these columns.
    Routed(Route, Vec<usize>),
}

/// An optimizer's note, over the columns of the node's output.
pub struct Claim {
    pub part: Part,
    /// The order in which each stream is sorted.
    pub order: Vec<OrderEntry>,
    /// Lists of columns on which no two rows agree.
    pub keys: Vec<Vec<usize>>,
}

impl Drop for Claim {
    fn drop(self) {
        let Claim {
            part: _,
            order: _,
            keys: _,
        } = self;
    }
}

/// The right side of a condition.
#[derive(Drop)]
pub enum Side {
    Column(usize),
    Constant(Value),
}

/// A column compared with a constant or another column of its type.
#[derive(Drop)]
pub struct Condition {
    pub left: usize,
    pub test: Test,
    pub right: Side,
}

/// What is computed of a row by columns.
#[derive(Drop)]
pub enum Expression {
    /// The value in a column.
    Input(usize),
    /// The same value for every row.
    Value(Value),
    /// What the function of this name answers of these operands. The type of the answer is what the plan says.
    Call(String, ColType, Vec<Expression>),
}

/// A condition of a select.
#[derive(Drop)]
pub enum Filter {
    Compared(Condition),
    /// It holds where the answer is a number other than 0.
    Computed(Arc<Expression>),
}

/// What is computed of the rows of a group.
#[derive(Clone, Copy, PartialEq, Eq)]
pub enum Aggregate {
    /// The least value of a column.
    Least(usize),
    /// The greatest value of a column.
    Greatest(usize),
    /// The sum of a column of numbers.
    Sum(usize),
    /// How many rows there are.
    CountRows,
}

/// A column of the input that is kept, and whether the plan gives it a new name.
#[derive(Clone, Copy, PartialEq, Eq)]
pub struct Projected {
    pub column: usize,
    pub renamed: bool,
}

/// A column of a projection's output.
#[derive(Drop)]
pub enum Entry {
    /// A column of the input.
    Kept(Projected),
    /// What is computed of each row.
    Made(Arc<Expression>),
}

/// The columns of an output: as many names as types.
pub struct Columns {
    pub names: Vec<Name>,
    pub types: Vec<ColType>,
}

impl Drop for Columns {
    fn drop(self) {
        let Columns { names: _, types: _ } = self;
    }
}

/// What every node has: its number in preorder, its claim and its output. Nodes with the same columns share them.
pub struct Head {
    pub number: u32,
    pub claim: Claim,
    pub columns: Arc<Columns>,
}

impl Drop for Head {
    fn drop(self) {
        let Head {
            number: _,
            claim: _,
            columns: _,
        } = self;
    }
}

/// A scan of the relation with this number. An empty prefix is none.
pub struct ScanNode {
    pub relation: usize,
    /// The workers share the rows, or else each has all of them.
    pub shared: bool,
    pub size: Size,
    pub prefix: String,
}

impl Drop for ScanNode {
    fn drop(self) {
        let ScanNode {
            relation: _,
            shared: _,
            size: _,
            prefix: _,
        } = self;
    }
}

/// In how many steps a grouping is made, and which step this one is.
#[derive(Clone, Copy, PartialEq, Eq)]
pub enum Phase {
    /// In one step, of all rows.
    Plain,
    /// The first of two steps: of some of the rows. Its results are put together by the final one.
    Partial,
    /// The second of two steps: of the results of partial ones, with the columns and the aggregates that it takes from their output.
    Final,
}

/// Which rows a sort has.
#[derive(Clone, Copy, PartialEq, Eq)]
pub enum SortPhase {
    /// Whole rows.
    Plain,
    /// Parts of groups: it stands between a partial grouping and its final one.
    Partial,
}

/// An operator over one input, by the columns of that input.
pub enum Unary {
    /// The rows of which all conditions hold.
    Select(Vec<Filter>),
    /// These columns, kept and computed.
    Project(Vec<Entry>),
    /// These columns of each row, each list of values once.
    Distinct(Vec<Projected>),
    /// The rows in this order; rows that are equal on its columns stay as they stood.
    Sort(SortPhase, Vec<OrderEntry>),
    /// For each key the values in these columns, and then the aggregates of its rows.
    Group(Phase, Vec<usize>, Vec<Aggregate>),
    /// So many first rows, or all if there are fewer.
    Limit(u32),
}

impl Drop for Unary {
    fn drop(self) {
        match self {
            Unary::Select(_) => {}
            Unary::Project(_) => {}
            Unary::Distinct(_) => {}
            Unary::Sort(_, _) => {}
            Unary::Group(_, _, _) => {}
            Unary::Limit(_) => {}
        }
    }
}

/// An operator over two inputs. A join has pairs (left column, right column).
///
/// A right row matches a left row if they agree on all pairs and all conditions hold of the left row's columns and then the
/// right row's.
pub enum Binary {
    Union,
    HashJoin(Vec<(usize, usize)>),
    /// Over inputs that are both in order on the pairs' columns: of each pair, whether they fall.
    MergeJoin(Vec<(usize, usize)>, Vec<bool>),
    /// The left rows that some right row matches.
    SemiJoin(Vec<(usize, usize)>, Vec<Condition>),
    /// The left rows that no right row matches.
    AntiJoin(Vec<(usize, usize)>, Vec<Condition>),
}

impl Drop for Binary {
    fn drop(self) {
        match self {
            Binary::Union => {}
            Binary::HashJoin(_) => {}
            Binary::MergeJoin(_, _) => {}
            Binary::SemiJoin(_, _) => {}
            Binary::AntiJoin(_, _) => {}
        }
    }
}

/// How an exchange sends, and to a group of which size.
#[derive(Drop)]
pub enum ExchangeKind {
    /// Each row to the worker of its values in these columns.
    Route(Size, Route, Vec<usize>),
    /// Each producer's rows to the workers in turn.
    Round(Size),
    /// Every row to every worker.
    Broadcast(Size),
    /// Every row to one worker.
    Gather,
    /// Every row to one worker, which takes the producers' rows in the order of the producers' numbers.
    Concat,
}

impl ExchangeKind {
    /// The size of the group of consumers.
    pub fn target(&self) -> Size
        ensures { size_of result ≡ target (kind_of self.now) }
    {
        match self {
            ExchangeKind::Route(size, _, _) => *size,
            ExchangeKind::Round(size) => *size,
            ExchangeKind::Broadcast(size) => *size,
            ExchangeKind::Gather | ExchangeKind::Concat => Size::One,
        }
    }
}

/// An exchange. It merges by this order, if it has an entry.
pub struct Exchange {
    pub kind: ExchangeKind,
    pub merge: Vec<OrderEntry>,
}

impl Drop for Exchange {
    fn drop(self) {
        let Exchange { kind: _, merge: _ } = self;
    }
}

/// A tree of operators over a catalog.
pub enum TypedNode {
    Scan(Head, ScanNode),
    Unary(Head, Unary, Box<TypedNode>),
    Binary(Head, Binary, Box<TypedNode>, Box<TypedNode>),
    Exchange(Head, Exchange, Box<TypedNode>),
}

impl Drop for TypedNode {
    fn drop(self) {
        match self {
            TypedNode::Scan(_, _) => {}
            TypedNode::Unary(_, _, _) => {}
            TypedNode::Binary(_, _, _, _) => {}
            TypedNode::Exchange(_, _, _) => {}
        }
    }
}

impl TypedNode {
    /// What every node has: its number, its claim and its output.
    pub fn head(&self) -> &Head
        ensures top { top_of result.now ≡ top (outline_of self.now) }
        ensures number { result.now.number ≡ number (plan_of self.now) }
        ensures claim { claim_of result.now.claim ≡ claim (plan_of self.now) }
    {
        match self {
            TypedNode::Scan(head, _) => head,
            TypedNode::Unary(head, _, _) => head,
            TypedNode::Binary(head, _, _, _) => head,
            TypedNode::Exchange(head, _, _) => head,
        }
    }

    /// The size of the group of workers that has the node's rows.
    pub fn size(&self) -> Size
        ensures { size_of result ≡ size (plan_of self.now) }
    {
        match self {
            TypedNode::Scan(_, scan) => scan.size,
            TypedNode::Unary(_, _, input) => input.size(),
            TypedNode::Binary(_, _, left, _) => left.size(),
            TypedNode::Exchange(_, exchange, _) => exchange.kind.target(),
        }
    }
}
