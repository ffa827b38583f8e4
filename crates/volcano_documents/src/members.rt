//! The members of the objects in documents: those of bundles, catalogs and plans. A new member is a new line here.

use crate::shapes::{Mark, Member, Rule, Shape};
use crate::words::Words;

// A member that an object has to have.
macro_rules! member {
    ($name:literal, $shape:expr) => {
        Member { name: $name, shape: $shape, is_required: true }
    };
}

// A member that may be left out.
macro_rules! maybe {
    ($name:literal, $shape:expr) => {
        Member { name: $name, shape: $shape, is_required: false }
    };
}

pub const BUNDLE: &[Member] = &[
    member!("command", Shape::Word(Words::Commands)),
    member!("catalog", Shape::Anything),
    member!("plan", Shape::Anything),
    maybe!("tables", Shape::Tables),
    maybe!("sizes", Shape::Sizes),
    maybe!("packet", Shape::Count),
    maybe!("morsel", Shape::Count),
    maybe!("slack", Shape::Count),
    maybe!("mode", Shape::Word(Words::RunModes)),
];

pub const CATALOG: &[Member] = &[member!("relations", Shape::Relations)];

pub const RELATION: &[Member] = &[
    member!("name", Shape::Name),
    member!("columns", Shape::Columns),
    maybe!("keys", Shape::Keys),
    maybe!("order", Shape::Order),
];

pub const COLUMN: &[Member] = &[
    member!("name", Shape::Name),
    member!("type", Shape::Word(Words::Types)),
];

// An entry of an order that says its direction.
pub const DIRECTED: &[Member] = &[member!("column", Shape::Name), maybe!("desc", Shape::Flag)];

pub const PLAN: &[Member] = &[
    maybe!("sizes", Shape::Names),
    maybe!("ranges", Shape::Ranges),
    maybe!("total", Shape::Flag),
    maybe!("derive", Shape::Flag),
    member!("root", Shape::Node),
];

pub const RANGE: &[Member] = &[
    member!("name", Shape::Name),
    member!("bounds", Shape::Bounds),
];

pub const CLAIM: &[Member] = &[
    maybe!("part", Shape::Part),
    maybe!("order", Shape::Order),
    maybe!("keys", Shape::ClaimedKeys),
];

pub const HASH_PART: &[Member] = &[
    member!("hash", Shape::Name),
    member!("columns", Shape::SomeNames),
];

pub const RANGE_PART: &[Member] = &[
    member!("range", Shape::Name),
    member!("column", Shape::Name),
];

// By which members a part says how rows are routed.
pub const ROUTES: &[Mark] = &[
    Mark {
        name: "hash",
        shape: Shape::HashPart,
    },
    Mark {
        name: "range",
        shape: Shape::RangePart,
    },
];

// Of a part that has neither of the members that tell the two apart.
pub const OTHER_PART: &[Member] = &[
    maybe!("hash", Shape::Name),
    maybe!("columns", Shape::SomeNames),
    maybe!("range", Shape::Name),
    maybe!("column", Shape::Name),
];

pub const CONDITION: &[Member] = &[
    member!("column", Shape::Name),
    member!("op", Shape::Word(Words::Tests)),
    maybe!("value", Shape::Constant),
    maybe!("column2", Shape::Name),
];

pub const RENAMED: &[Member] = &[member!("column", Shape::Name), member!("as", Shape::Name)];

// By which member a condition of a select says that it is a function.
pub const ANSWERS: &[Mark] = &[Mark {
    name: "fn",
    shape: Shape::Answer,
}];

pub const ANSWER: &[Member] = &[member!("fn", Shape::Name), member!("of", Shape::Operands)];

// By which members an operand says what it is.
pub const COMPUTED: &[Mark] = &[
    Mark {
        name: "fn",
        shape: Shape::Call,
    },
    Mark {
        name: "value",
        shape: Shape::Value,
    },
];

pub const CALL: &[Member] = &[
    member!("fn", Shape::Name),
    member!("of", Shape::Operands),
    member!("type", Shape::Word(Words::Types)),
];

pub const VALUE: &[Member] = &[member!("value", Shape::Constant)];

// Of an operand that has neither of the members that tell the two apart.
pub const OTHER_OPERAND: &[Member] = &[
    maybe!("value", Shape::Constant),
    maybe!("fn", Shape::Name),
    maybe!("of", Shape::Operands),
    maybe!("type", Shape::Word(Words::Types)),
];

// By which members a column of a projection says that it is computed.
pub const MADE: &[Mark] = &[
    Mark {
        name: "fn",
        shape: Shape::MadeCall,
    },
    Mark {
        name: "value",
        shape: Shape::MadeValue,
    },
];

pub const MADE_CALL: &[Member] = &[
    member!("fn", Shape::Name),
    member!("of", Shape::Operands),
    member!("type", Shape::Word(Words::Types)),
    member!("as", Shape::Name),
];

pub const MADE_VALUE: &[Member] = &[
    member!("value", Shape::Constant),
    member!("as", Shape::Name),
];

pub const COUNTED_ROWS: &[Member] = &[
    member!("fn", Shape::Word(Words::Functions)),
    member!("as", Shape::Name),
];

pub const COLUMN_AGGREGATE: &[Member] = &[
    member!("fn", Shape::Word(Words::Functions)),
    member!("column", Shape::Name),
    member!("as", Shape::Name),
];

// The inputs of nodes come last, so that what a node says of itself is looked at before what is below it.

pub const SCAN: &[Member] = &[
    member!("op", Shape::Word(Words::Operators)),
    member!("relation", Shape::Name),
    member!("mode", Shape::Word(Words::ScanModes)),
    member!("size", Shape::Name),
    maybe!("prefix", Shape::Text),
    maybe!("claim", Shape::Claim),
];

pub const SELECT: &[Member] = &[
    member!("op", Shape::Word(Words::Operators)),
    member!("where", Shape::Filters),
    maybe!("claim", Shape::Claim),
    member!("input", Shape::Node),
];

pub const PROJECT: &[Member] = &[
    member!("op", Shape::Word(Words::Operators)),
    member!("columns", Shape::Entries),
    maybe!("claim", Shape::Claim),
    member!("input", Shape::Node),
];

pub const DISTINCT: &[Member] = &[
    member!("op", Shape::Word(Words::Operators)),
    member!("columns", Shape::Outputs),
    maybe!("claim", Shape::Claim),
    member!("input", Shape::Node),
];

pub const SORT: &[Member] = &[
    member!("op", Shape::Word(Words::Operators)),
    maybe!("phase", Shape::Word(Words::SortPhases)),
    member!("columns", Shape::SomeOrder),
    maybe!("claim", Shape::Claim),
    member!("input", Shape::Node),
];

pub const UNION: &[Member] = &[
    member!("op", Shape::Word(Words::Operators)),
    maybe!("claim", Shape::Claim),
    member!("left", Shape::Node),
    member!("right", Shape::Node),
];

pub const LIMIT: &[Member] = &[
    member!("op", Shape::Word(Words::Operators)),
    member!("rows", Shape::Count),
    maybe!("claim", Shape::Claim),
    member!("input", Shape::Node),
];

pub const INNER_JOIN: &[Member] = &[
    member!("op", Shape::Word(Words::Operators)),
    member!("method", Shape::Word(Words::Methods)),
    member!("on", Shape::Pairs),
    maybe!("kind", Shape::Word(Words::JoinKinds)),
    maybe!("claim", Shape::Claim),
    member!("left", Shape::Node),
    member!("right", Shape::Node),
];

pub const SEMI_JOIN: &[Member] = &[
    member!("op", Shape::Word(Words::Operators)),
    member!("method", Shape::Word(Words::SemiMethods)),
    member!("kind", Shape::Word(Words::JoinKinds)),
    member!("on", Shape::Pairs),
    maybe!("where", Shape::Conditions),
    maybe!("claim", Shape::Claim),
    member!("left", Shape::Node),
    member!("right", Shape::Node),
];

pub const PLAIN_GROUP: &[Member] = &[
    member!("op", Shape::Word(Words::Operators)),
    member!("by", Shape::Names),
    member!("aggregates", Shape::Aggregates),
    maybe!("phase", Shape::Word(Words::Phases)),
    maybe!("claim", Shape::Claim),
    member!("input", Shape::Node),
];

pub const PARTIAL_GROUP: &[Member] = &[
    member!("op", Shape::Word(Words::Operators)),
    member!("phase", Shape::Word(Words::Phases)),
    member!("by", Shape::Names),
    member!("aggregates", Shape::Aggregates),
    maybe!("claim", Shape::Claim),
    member!("input", Shape::Node),
];

pub const FINAL_GROUP: &[Member] = &[
    member!("op", Shape::Word(Words::Operators)),
    member!("phase", Shape::Word(Words::Phases)),
    maybe!("claim", Shape::Claim),
    member!("input", Shape::Node),
];

pub const LISTS: Rule = Rule::SomeItem("by", "aggregates");

pub const HASH_EXCHANGE: &[Member] = &[
    member!("op", Shape::Word(Words::Operators)),
    member!("kind", Shape::Word(Words::Kinds)),
    member!("size", Shape::Name),
    member!("route", Shape::Name),
    member!("columns", Shape::SomeNames),
    maybe!("merge", Shape::SomeOrder),
    maybe!("claim", Shape::Claim),
    member!("input", Shape::Node),
];

pub const RANGE_EXCHANGE: &[Member] = &[
    member!("op", Shape::Word(Words::Operators)),
    member!("kind", Shape::Word(Words::Kinds)),
    member!("size", Shape::Name),
    member!("route", Shape::Name),
    member!("column", Shape::Name),
    maybe!("merge", Shape::SomeOrder),
    maybe!("claim", Shape::Claim),
    member!("input", Shape::Node),
];

pub const SIZED_EXCHANGE: &[Member] = &[
    member!("op", Shape::Word(Words::Operators)),
    member!("kind", Shape::Word(Words::Kinds)),
    member!("size", Shape::Name),
    maybe!("merge", Shape::SomeOrder),
    maybe!("claim", Shape::Claim),
    member!("input", Shape::Node),
];

pub const GATHER: &[Member] = &[
    member!("op", Shape::Word(Words::Operators)),
    member!("kind", Shape::Word(Words::Kinds)),
    maybe!("merge", Shape::SomeOrder),
    maybe!("claim", Shape::Claim),
    member!("input", Shape::Node),
];

pub const CONCAT: &[Member] = &[
    member!("op", Shape::Word(Words::Operators)),
    member!("kind", Shape::Word(Words::Kinds)),
    maybe!("claim", Shape::Claim),
    member!("input", Shape::Node),
];
