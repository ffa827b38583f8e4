//! Plans as their documents say them: relations, columns, sizes and ranges by name.

use vx_catalog_json::OrderText;
use vx_rows_values::{ColType, Test, Value};

/// How rows lie on workers, as a claim says it.
#[derive(Drop)]
pub enum NamedPart {
    /// All rows at one worker.
    One,
    /// Each row at one worker, whichever.
    Any,
    /// Every row at every worker.
    All,
    Hash { route: String, columns: Vec<String> },
    Range { range: String, column: String },
}

/// An optimizer's note on a node. Nothing is assumed of it.
pub struct NamedClaim {
    pub part: NamedPart,
    /// The order in which each stream is sorted.
    pub order: Vec<OrderText>,
    /// Lists of columns on which no two rows agree.
    pub keys: Vec<Vec<String>>,
}

impl Drop for NamedClaim {
    fn drop(self) {
        let NamedClaim {
            part: _,
            order: _,
            keys: _,
        } = self;
    }
}

/// The right side of a condition.
#[derive(Drop)]
pub enum NamedSide {
    Column(String),
    Constant(Value),
}

/// A column compared with a constant or another column.
#[derive(Drop)]
pub struct NamedCondition {
    pub left: String,
    pub test: Test,
    pub right: NamedSide,
}

/// A column that is kept, with its new name, if it has one.
#[derive(Drop)]
pub struct NamedOutput {
    pub column: String,
    pub renamed: Option<String>,
}

/// What is computed of a row.
#[derive(Drop)]
pub enum NamedOperand {
    /// The value in a column.
    Column(String),
    /// The same value for every row.
    Constant(Value),
    /// What the function of this name answers of these operands. The type of the answer is what the plan says.
    Call(String, ColType, Vec<NamedOperand>),
}

/// A condition of a select.
#[derive(Drop)]
pub enum NamedFilter {
    Compared(NamedCondition),
    /// A function that answers a number: it holds where that is another than 0.
    Computed(NamedOperand),
}

/// A column of a projection's output.
#[derive(Drop)]
pub enum NamedEntry {
    Kept(NamedOutput),
    /// What is computed, which is no column as it is, and its name.
    Made(NamedOperand, String),
}

/// What is computed of the rows of a group.
#[derive(Drop)]
pub enum NamedFunction {
    Least(String),
    Greatest(String),
    Sum(String),
    CountRows,
}

/// An aggregate and the name of its column.
#[derive(Drop)]
pub struct NamedAggregate {
    pub function: NamedFunction,
    pub name: String,
}

/// A scan. An empty prefix is none.
pub struct NamedScan {
    pub relation: String,
    /// The workers share the rows, or else each has all of them.
    pub shared: bool,
    pub size: String,
    pub prefix: String,
}

impl Drop for NamedScan {
    fn drop(self) {
        let NamedScan {
            relation: _,
            shared: _,
            size: _,
            prefix: _,
        } = self;
    }
}

/// An operator over one input. A group in two phases is a partial group, exchanges and partial sorts, and a final group that has the columns
/// and the aggregates of the partial one.
pub enum NamedUnary {
    Select(Vec<NamedFilter>),
    Project(Vec<NamedEntry>),
    Distinct(Vec<NamedOutput>),
    Sort(Vec<OrderText>),
    PartialSort(Vec<OrderText>),
    Group(Vec<String>, Vec<NamedAggregate>),
    PartialGroup(Vec<String>, Vec<NamedAggregate>),
    FinalGroup,
    /// So many first rows, or all if there are fewer.
    Limit(u32),
}

impl Drop for NamedUnary {
    fn drop(self) {
        match self {
            NamedUnary::Select(_) => {}
            NamedUnary::Project(_) => {}
            NamedUnary::Distinct(_) => {}
            NamedUnary::Sort(_) => {}
            NamedUnary::PartialSort(_) => {}
            NamedUnary::Group(_, _) => {}
            NamedUnary::PartialGroup(_, _) => {}
            NamedUnary::FinalGroup => {}
            NamedUnary::Limit(_) => {}
        }
    }
}

/// An operator over two inputs. A join has pairs (left column, right column).
///
/// A right row matches a left row if they agree on all pairs and all conditions hold of the two; there a name that both
/// inputs have is the left one's.
pub enum NamedBinary {
    Union,
    HashJoin(Vec<(String, String)>),
    MergeJoin(Vec<(String, String)>),
    /// The left rows that some right row matches.
    SemiJoin(Vec<(String, String)>, Vec<NamedCondition>),
    /// The left rows that no right row matches.
    AntiJoin(Vec<(String, String)>, Vec<NamedCondition>),
}

impl Drop for NamedBinary {
    fn drop(self) {
        match self {
            NamedBinary::Union => {}
            NamedBinary::HashJoin(_) => {}
            NamedBinary::MergeJoin(_) => {}
            NamedBinary::SemiJoin(_, _) => {}
            NamedBinary::AntiJoin(_, _) => {}
        }
    }
}

/// How an exchange sends, and to a group of which size.
pub enum NamedKind {
    Hash {
        size: String,
        route: String,
        columns: Vec<String>,
    },
    Range {
        size: String,
        range: String,
        column: String,
    },
    Round(String),
    Broadcast(String),
    Gather,
    /// To one worker, all rows of producer 0, then all of producer 1, and so on.
    Concat,
}

impl Drop for NamedKind {
    fn drop(self) {
        match self {
            NamedKind::Hash {
                size: _,
                route: _,
                columns: _,
            } => {}
            NamedKind::Range {
                size: _,
                range: _,
                column: _,
            } => {}
            NamedKind::Round(_) => {}
            NamedKind::Broadcast(_) => {}
            NamedKind::Gather => {}
            NamedKind::Concat => {}
        }
    }
}

/// A tree of operators. An exchange merges by its order, if that is not empty.
pub enum Node {
    Scan(NamedClaim, NamedScan),
    Unary(NamedClaim, NamedUnary, Box<Node>),
    Binary(NamedClaim, NamedBinary, Box<Node>, Box<Node>),
    Exchange(NamedClaim, NamedKind, Vec<OrderText>, Box<Node>),
}

impl Drop for Node {
    fn drop(self) {
        match self {
            Node::Scan(_, _) => {}
            Node::Unary(_, _, _) => {}
            Node::Binary(_, _, _, _) => {}
            Node::Exchange(_, _, _, _) => {}
        }
    }
}
