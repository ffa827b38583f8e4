//! The names of codes, and the words that codes are asked for by.

ghost use Rattle.std.specs.Prelude.{◌≡◌, true, map, option_map, IfSome};
ghost use Rattle.std.specs.List.{find, list_all};
ghost use Rattle.std.specs.Str.{str_eq_ignore_ascii_case};
ghost use Rattle.volcano_why.specs.Codes.{is_code, is_for, code_in, code_of};
ghost use Rattle.volcano_why.specs.Names.{named_is};

/// A code, and the name that stands behind it in a refusal.
#[derive(Clone, Copy)]
struct CodeName(&'static str, &'static str);

const NAMES: &[CodeName] = &[
    CodeName("C1", "BadCatalog"),
    CodeName("C2", "DuplicateName"),
    CodeName("C3", "UnknownColumn"),
    CodeName("C4", "HeaderMismatch"),
    CodeName("C5", "BadWidth"),
    CodeName("C6", "BadInt"),
    CodeName("C7", "NotUtf8"),
    CodeName("C8", "KeyBroken"),
    CodeName("C9", "OrderBroken"),
    CodeName("C10", "ReadFailed"),
    CodeName("C11", "NoMemory"),
    CodeName("C12", "TooLarge"),
    CodeName("P1", "NotJson"),
    CodeName("P2", "BadNode"),
    CodeName("P3", "TooDeep"),
    CodeName("P4", "UnknownRelation"),
    CodeName("P5", "UnknownColumn"),
    CodeName("P6", "DuplicateColumn"),
    CodeName("P7", "TypeMismatch"),
    CodeName("P8", "UnknownRange"),
    CodeName("P9", "BadRange"),
    CodeName("P10", "BadSize"),
    CodeName("P11", "NoMemory"),
    CodeName("P12", "TooWide"),
    CodeName("P13", "PhaseMismatch"),
    CodeName("K1", "SizeMismatch"),
    CodeName("K2", "RootNotOne"),
    CodeName("K3", "PartNotShown"),
    CodeName("K4", "InputsNotMatched"),
    CodeName("K5", "ReplicatedInput"),
    CodeName("K6", "OrderNotShown"),
    CodeName("K7", "OrderNeeded"),
    CodeName("K8", "KeyNotShown"),
    CodeName("K9", "TotalNotShown"),
    CodeName("K11", "FirstRowsOpen"),
    CodeName("X1", "SizeMissing"),
    CodeName("X2", "SizeOutOfRange"),
    CodeName("X3", "BadPacket"),
    CodeName("X4", "BadMorsel"),
    CodeName("X5", "BadStep"),
    CodeName("X6", "OtherCatalog"),
    CodeName("X7", "Overflow"),
    CodeName("X8", "NoMemory"),
    CodeName("X9", "NoThread"),
    CodeName("X10", "Unsorted"),
    CodeName("X11", "Stranger"),
    CodeName("X12", "TooManyWorkers"),
    CodeName("X13", "HasExchange"),
    CodeName("X14", "BadSlack"),
    CodeName("X15", "BadFunction"),
    CodeName("V1", "BadBundle"),
    CodeName("V2", "NoTable"),
    CodeName("V3", "FileUnreadable"),
    CodeName("V4", "WriteFailed"),
    CodeName("V5", "Unfinished"),
    CodeName("V6", "TooLarge"),
];

// Whether two words are the same, in any case.
fn same_word(a: &str, b: &str) -> bool
    ensures { result ≡ str_eq_ignore_ascii_case a.now b.now }
{
    a.eq_ignore_ascii_case(b)
}

// Whether a word is this code or its name, in any case.
fn is_for(word: &str, named: &CodeName) -> bool
    ensures { result ≡ is_for word.now (named_is named.now) }
{
    same_word(named.0, word) || same_word(named.1, word)
}

// The first of these codes that a word is or names.
fn first_in(names: &[CodeName], word: &str) -> Option<&'static str>
    ensures { result ≡ option_map (λ n. n.0) (find (λ n. is_for word.now (named_is n)) names.now) }
{
    names.iter().find(|n| is_for(word, n)).map(|n| n.0)
}

// The same, where each of them is a code.
fn code_in(names: &[CodeName], word: &str) -> Option<&'static str>
    requires { list_all (λ n. is_code n.0.now) names.now ≡ true }
    ensures is { option_map (λ c. c.now) result ≡ code_in word.now (map named_is names.now) }
    ensures listed { IfSome result (λ c. is_code c.now ≡ true) }
{
    first_in(names, word)
}

/// The code that a word is or names, in any case: the first, where several have the name.
pub fn code_of(word: &str) -> Option<&'static str>
    ensures is { option_map (λ c. c.now) result ≡ code_of word.now }
    ensures listed { IfSome result (λ c. is_code c.now ≡ true) }
{
    code_in(NAMES, word)
}
