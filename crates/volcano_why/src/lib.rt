//! What each code of a refusal means: what happened, the usual causes, the cure and an example.
#![tactic(auto)]

ghost use Rattle.std.specs.Prelude.{◌≡◌, ◌++◌, ◌+◌, length, take, codes, None, IfSome, MatchOption};
ghost use Rattle.std.specs.Option.{is_some};
ghost use Rattle.volcano_why.specs.Codes.{is_code, code_of, BeginsWith};

mod catalogs;
mod checker;
mod names;
mod plans;
mod program;
mod runs;

use catalogs::catalog_entry;
use checker::checker_entry;
use names::code_of;
use plans::plan_entry;
use program::program_entry;
use runs::run_entry;

// The entry of a code. `None` for what is no code.
fn entry_of(code: &str) -> Option<&'static str>
    ensures listed { is_some result ≡ is_code code.now }
    ensures begins { IfSome result (λ t. take (length code.now + 1) t.now ≡ code.now ++ codes " ") }
{
    catalog_entry(code)
        .or_else(|| plan_entry(code))
        .or_else(|| checker_entry(code))
        .or_else(|| run_entry(code))
        .or_else(|| program_entry(code))
}

/// The entry of a code, as K4, or of its name, as InputsNotMatched, in any case: a line as the program prints it, then what
/// happened, the usual cause with its cure, and an example. It begins with the code and a space. Where several codes have the
/// name, it is the entry of the first. `None` for what is no code and no name. No clause reads the rest of the texts:
/// docs/REFUSALS.md is made from them.
pub fn entry(word: &str) -> Option<&'static str>
    ensures { MatchOption result (code_of word.now ≡ None) (λ t. BeginsWith (code_of word.now) t.now) }
{
    entry_of(code_of(word)?)
}
