//! The words that the members of documents choose from.

ghost use Rattle.std.specs.Prelude.{◌≡◌, map};
ghost use Rattle.volcano_documents.specs.Words.{words_of};

/// Words of which a text has to be one.
#[derive(Clone, Copy, PartialEq, Eq)]
pub enum Words {
    Commands,
    RunModes,
    Types,
    Parts,
    Operators,
    ScanModes,
    Tests,
    Methods,
    SemiMethods,
    JoinKinds,
    SortPhases,
    Phases,
    Functions,
    Kinds,
}

const COMMANDS: &[&str] = &["run", "serial", "check", "explain"];

const RUN_MODES: &[&str] = &["rounds", "threads"];

const TYPES: &[&str] = &["int", "text"];

const PARTS: &[&str] = &["one", "any", "all"];

const OPERATORS: &[&str] = &[
    "scan", "select", "project", "distinct", "sort", "limit", "union", "join", "group", "exchange",
];

const SCAN_MODES: &[&str] = &["shared", "whole"];

const TESTS: &[&str] = &["=", "<>", "<", "<=", ">", ">="];

const METHODS: &[&str] = &["hash", "merge"];

const SEMI_METHODS: &[&str] = &["hash"];

const JOIN_KINDS: &[&str] = &["inner", "semi", "anti"];

const SORT_PHASES: &[&str] = &["partial"];

const PHASES: &[&str] = &["partial", "final"];

const FUNCTIONS: &[&str] = &["min", "max", "sum", "count"];

const KINDS: &[&str] = &["hash", "range", "round", "broadcast", "gather", "concat"];

/// The words of a set.
pub fn words_of(words: Words) -> &'static [&'static str]
    ensures { map (λ w. w.now) result.now ≡ words_of words }
{
    match words {
        Words::Commands => COMMANDS,
        Words::RunModes => RUN_MODES,
        Words::Types => TYPES,
        Words::Parts => PARTS,
        Words::Operators => OPERATORS,
        Words::ScanModes => SCAN_MODES,
        Words::Tests => TESTS,
        Words::Methods => METHODS,
        Words::SemiMethods => SEMI_METHODS,
        Words::JoinKinds => JOIN_KINDS,
        Words::SortPhases => SORT_PHASES,
        Words::Phases => PHASES,
        Words::Functions => FUNCTIONS,
        Words::Kinds => KINDS,
    }
}
