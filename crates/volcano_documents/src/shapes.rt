//! The shapes of values in documents, and how a value of each is looked at.

ghost use Rattle.volcano_documents.specs.Shapes.{KnowsMembers};

use crate::members;
use crate::words::Words;

/// What a value in a document should be.
#[derive(Clone, Copy, PartialEq, Eq)]
pub enum Shape {
    // Values that are one thing.
    Anything,
    Flag,
    /// A whole number of 32 bits without sign.
    Count,
    /// A whole number of 64 bits with a sign, or a text.
    Constant,
    Text,
    /// A text that is not empty.
    Name,
    Word(Words),

    // Lists.
    Names,
    SomeNames,
    Order,
    SomeOrder,
    Keys,
    ClaimedKeys,
    Relations,
    Columns,
    Ranges,
    Bounds,
    Conditions,
    /// The conditions of a select: comparisons and functions.
    Filters,
    Outputs,
    /// The columns of a projection: kept and computed.
    Entries,
    Operands,
    Pairs,
    Pair,
    Aggregates,
    SomeAggregates,

    // Objects whose members have names of their own.
    Tables,
    Sizes,

    // Objects with the members that are listed for them.
    Bundle,
    Catalog,
    Relation,
    Column,
    /// Of an order's entry that says its direction.
    Directed,
    Plan,
    Range,
    Claim,
    HashPart,
    RangePart,
    OtherPart,
    Condition,
    Renamed,
    /// A function that is a condition.
    Answer,
    /// A function and the type of its answer.
    Call,
    /// A constant in an object.
    Value,
    /// An operand that is neither a function nor a constant.
    OtherOperand,
    /// A column of a projection that a function answers, and one that is a constant.
    MadeCall,
    MadeValue,
    CountedRows,
    ColumnAggregate,
    Scan,
    Select,
    Project,
    Distinct,
    Sort,
    Limit,
    Union,
    InnerJoin,
    /// Of a semi or an anti join.
    SemiJoin,
    PlainGroup,
    PartialGroup,
    FinalGroup,
    HashExchange,
    RangeExchange,
    SizedExchange,
    Gather,
    Concat,

    // One of several shapes.
    Part,
    RoutedPart,
    OrderEntry,
    Filter,
    Output,
    Entry,
    EntryObject,
    Operand,
    OperandObject,
    Aggregate,
    Node,
    Join,
    Group,
    Exchange,
}

/// A member of an object.
#[derive(Clone, Copy)]
pub struct Member {
    pub name: &'static str,
    pub shape: Shape,
    pub is_required: bool,
}

/// A member by which an object says that it has a shape.
#[derive(Clone, Copy)]
pub struct Mark {
    pub name: &'static str,
    pub shape: Shape,
}

/// What is asked of an object's members beside their own shapes.
#[derive(Clone, Copy)]
pub enum Rule {
    Free,
    /// One of these two, and not both.
    One(&'static str, &'static str),
    /// Not both of these two are empty lists.
    SomeItem(&'static str, &'static str),
}

/// How a value of a shape is looked at.
#[derive(Clone, Copy)]
pub enum Form {
    /// By itself.
    Single,
    /// A list of so many items or more.
    List(Shape, usize),
    /// A list of two names.
    Pair,
    /// An object whose members all have this shape.
    Map(Shape),
    /// An object with these members.
    Object(&'static [Member], Rule),
    /// An object that has another shape for each word of this member. It may be left out if there is a shape for that.
    Tagged(&'static str, Words, Option<Shape>),
    /// A text of the one shape, or an object of the other.
    Either(Shape, Shape),
    /// An object with the shape of the first of these members that it has, or else with the other shape.
    Marked(&'static [Mark], Shape),
}

/// How a value of a shape is looked at.
pub fn form_of(shape: Shape) -> Form
    ensures { KnowsMembers shape result }
{
    match shape {
        Shape::Names => Form::List(Shape::Name, 0),
        Shape::SomeNames => Form::List(Shape::Name, 1),
        Shape::Order => Form::List(Shape::OrderEntry, 0),
        Shape::SomeOrder => Form::List(Shape::OrderEntry, 1),
        Shape::Keys => Form::List(Shape::SomeNames, 0),
        Shape::ClaimedKeys => Form::List(Shape::Names, 0),
        Shape::Relations => Form::List(Shape::Relation, 0),
        Shape::Columns => Form::List(Shape::Column, 1),
        Shape::Ranges => Form::List(Shape::Range, 0),
        Shape::Bounds => Form::List(Shape::Constant, 0),
        Shape::Conditions => Form::List(Shape::Condition, 1),
        Shape::Filters => Form::List(Shape::Filter, 1),
        Shape::Outputs => Form::List(Shape::Output, 1),
        Shape::Entries => Form::List(Shape::Entry, 1),
        Shape::Operands => Form::List(Shape::Operand, 0),
        Shape::Pairs => Form::List(Shape::Pair, 1),
        Shape::Pair => Form::Pair,
        Shape::Aggregates => Form::List(Shape::Aggregate, 0),
        Shape::SomeAggregates => Form::List(Shape::Aggregate, 1),
        Shape::Tables => Form::Map(Shape::Text),
        Shape::Sizes => Form::Map(Shape::Count),
        _ => either_form(shape),
    }
}

// The same for values that are texts or objects, and for objects whose members say their shape.
fn either_form(shape: Shape) -> Form
    ensures { KnowsMembers shape result }
{
    match shape {
        Shape::Part => Form::Either(Shape::Word(Words::Parts), Shape::RoutedPart),
        Shape::RoutedPart => Form::Marked(members::ROUTES, Shape::OtherPart),
        Shape::OrderEntry => Form::Either(Shape::Name, Shape::Directed),
        Shape::Output => Form::Either(Shape::Name, Shape::Renamed),
        Shape::Filter => Form::Marked(members::ANSWERS, Shape::Condition),
        Shape::Entry => Form::Either(Shape::Name, Shape::EntryObject),
        Shape::EntryObject => Form::Marked(members::MADE, Shape::Renamed),
        Shape::Operand => Form::Either(Shape::Name, Shape::OperandObject),
        Shape::OperandObject => Form::Marked(members::COMPUTED, Shape::OtherOperand),
        _ => choice_form(shape),
    }
}

// The same for objects whose shape a word of theirs says.
fn choice_form(shape: Shape) -> Form
    ensures { KnowsMembers shape result }
{
    match shape {
        Shape::Aggregate => Form::Tagged("fn", Words::Functions, None),
        Shape::Node => Form::Tagged("op", Words::Operators, None),
        Shape::Join => Form::Tagged("kind", Words::JoinKinds, Some(Shape::InnerJoin)),
        Shape::Group => Form::Tagged("phase", Words::Phases, Some(Shape::PlainGroup)),
        Shape::Exchange => Form::Tagged("kind", Words::Kinds, None),
        _ => object_form(shape),
    }
}

// The same for objects, but nodes.
fn object_form(shape: Shape) -> Form
    ensures { KnowsMembers shape result }
{
    match shape {
        Shape::Bundle => Form::Object(members::BUNDLE, Rule::Free),
        Shape::Catalog => Form::Object(members::CATALOG, Rule::Free),
        Shape::Relation => Form::Object(members::RELATION, Rule::Free),
        Shape::Column => Form::Object(members::COLUMN, Rule::Free),
        Shape::Directed => Form::Object(members::DIRECTED, Rule::Free),
        Shape::Plan => Form::Object(members::PLAN, Rule::Free),
        Shape::Range => Form::Object(members::RANGE, Rule::Free),
        Shape::Claim => Form::Object(members::CLAIM, Rule::Free),
        Shape::HashPart => Form::Object(members::HASH_PART, Rule::Free),
        Shape::RangePart => Form::Object(members::RANGE_PART, Rule::Free),
        Shape::OtherPart => Form::Object(members::OTHER_PART, Rule::One("hash", "range")),
        Shape::Condition => Form::Object(members::CONDITION, Rule::One("value", "column2")),
        Shape::Renamed => Form::Object(members::RENAMED, Rule::Free),
        _ => computed_form(shape),
    }
}

// The same for functions, their operands and aggregates.
fn computed_form(shape: Shape) -> Form
    ensures { KnowsMembers shape result }
{
    match shape {
        Shape::Answer => Form::Object(members::ANSWER, Rule::Free),
        Shape::Call => Form::Object(members::CALL, Rule::Free),
        Shape::Value => Form::Object(members::VALUE, Rule::Free),
        Shape::OtherOperand => Form::Object(members::OTHER_OPERAND, Rule::One("value", "fn")),
        Shape::MadeCall => Form::Object(members::MADE_CALL, Rule::Free),
        Shape::MadeValue => Form::Object(members::MADE_VALUE, Rule::Free),
        Shape::CountedRows => Form::Object(members::COUNTED_ROWS, Rule::Free),
        Shape::ColumnAggregate => Form::Object(members::COLUMN_AGGREGATE, Rule::Free),
        _ => node_form(shape),
    }
}

// The same for nodes.
fn node_form(shape: Shape) -> Form
    ensures { KnowsMembers shape result }
{
    match shape {
        Shape::Scan => Form::Object(members::SCAN, Rule::Free),
        Shape::Select => Form::Object(members::SELECT, Rule::Free),
        Shape::Project => Form::Object(members::PROJECT, Rule::Free),
        Shape::Distinct => Form::Object(members::DISTINCT, Rule::Free),
        Shape::Sort => Form::Object(members::SORT, Rule::Free),
        Shape::Limit => Form::Object(members::LIMIT, Rule::Free),
        Shape::Union => Form::Object(members::UNION, Rule::Free),
        Shape::InnerJoin => Form::Object(members::INNER_JOIN, Rule::Free),
        Shape::SemiJoin => Form::Object(members::SEMI_JOIN, Rule::Free),
        Shape::PlainGroup => Form::Object(members::PLAIN_GROUP, members::LISTS),
        Shape::PartialGroup => Form::Object(members::PARTIAL_GROUP, members::LISTS),
        Shape::FinalGroup => Form::Object(members::FINAL_GROUP, Rule::Free),
        Shape::HashExchange => Form::Object(members::HASH_EXCHANGE, Rule::Free),
        Shape::RangeExchange => Form::Object(members::RANGE_EXCHANGE, Rule::Free),
        Shape::SizedExchange => Form::Object(members::SIZED_EXCHANGE, Rule::Free),
        Shape::Gather => Form::Object(members::GATHER, Rule::Free),
        Shape::Concat => Form::Object(members::CONCAT, Rule::Free),
        _ => Form::Single,
    }
}

/// The shape that a word chooses among those of a shape.
pub fn chosen_shape(shape: Shape, word: &str) -> Option<Shape> {
    match shape {
        Shape::Node => operator_shape(word),
        Shape::Join => join_shape(word),
        Shape::Exchange => kind_shape(word),
        Shape::Group => phase_shape(word),
        Shape::Aggregate => function_shape(word),
        _ => None,
    }
}

fn operator_shape(word: &str) -> Option<Shape> {
    match word {
        "scan" => Some(Shape::Scan),
        "select" => Some(Shape::Select),
        "project" => Some(Shape::Project),
        "distinct" => Some(Shape::Distinct),
        "sort" => Some(Shape::Sort),
        "limit" => Some(Shape::Limit),
        "union" => Some(Shape::Union),
        "join" => Some(Shape::Join),
        "group" => Some(Shape::Group),
        "exchange" => Some(Shape::Exchange),
        _ => None,
    }
}

fn join_shape(word: &str) -> Option<Shape> {
    match word {
        "inner" => Some(Shape::InnerJoin),
        "semi" => Some(Shape::SemiJoin),
        "anti" => Some(Shape::SemiJoin),
        _ => None,
    }
}

fn kind_shape(word: &str) -> Option<Shape> {
    match word {
        "hash" => Some(Shape::HashExchange),
        "range" => Some(Shape::RangeExchange),
        "round" => Some(Shape::SizedExchange),
        "broadcast" => Some(Shape::SizedExchange),
        "gather" => Some(Shape::Gather),
        "concat" => Some(Shape::Concat),
        _ => None,
    }
}

fn phase_shape(word: &str) -> Option<Shape> {
    match word {
        "partial" => Some(Shape::PartialGroup),
        "final" => Some(Shape::FinalGroup),
        _ => None,
    }
}

fn function_shape(word: &str) -> Option<Shape> {
    match word {
        "count" => Some(Shape::CountedRows),
        "min" => Some(Shape::ColumnAggregate),
        "max" => Some(Shape::ColumnAggregate),
        "sum" => Some(Shape::ColumnAggregate),
        _ => None,
    }
}
