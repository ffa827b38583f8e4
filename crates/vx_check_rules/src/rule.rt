//! What a plan's notes must show.

ghost use Rattle.std.specs.Prelude.{◌≡◌};
ghost use Rattle.vx_check_rules.specs.RuleView.{rule_of, rule_text};

use std::error::Error;
use std::fmt::{self, Display, Formatter};

/// What a node's note does not show.
#[derive(Clone, Copy, Debug, PartialEq, Eq)]
pub enum Rule {
    /// The inputs of a join or a union have different size names.
    SizeMismatch,
    /// The root has more than one worker.
    RootNotOne,
    /// The claimed part does not follow.
    PartNotShown,
    /// A distinct, a group, a join or a union over unfit parts.
    InputsNotMatched,
    /// An exchange over rows that each of several workers has.
    ReplicatedInput,
    /// The claimed order does not follow.
    OrderNotShown,
    /// A merge join or a merging exchange over an input that is not sorted so.
    OrderNeeded,
    /// A claimed key does not follow.
    KeyNotShown,
    /// The plan says total, and the order that the root claims is not total.
    TotalNotShown,
    /// A limit over rows of several workers, or over an order that is not total.
    FirstRowsOpen,
}

impl Rule {
    /// The code and the name.
    pub fn text(self) -> &'static str
        ensures { result.now ≡ rule_text (rule_of self) }
    {
        match self {
            Rule::SizeMismatch => "K1 SizeMismatch",
            Rule::RootNotOne => "K2 RootNotOne",
            Rule::PartNotShown => "K3 PartNotShown",
            Rule::InputsNotMatched => "K4 InputsNotMatched",
            Rule::ReplicatedInput => "K5 ReplicatedInput",
            Rule::OrderNotShown => "K6 OrderNotShown",
            Rule::OrderNeeded => "K7 OrderNeeded",
            Rule::KeyNotShown => "K8 KeyNotShown",
            Rule::TotalNotShown => "K9 TotalNotShown",
            Rule::FirstRowsOpen => "K11 FirstRowsOpen",
        }
    }
}

impl Display for Rule {
    fn fmt<W: fmt::Write>(&self, f: &mut Formatter<W>) -> fmt::Result {
        f.write_str(self.text())
    }
}

impl Error for Rule {}
