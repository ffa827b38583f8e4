//! Why there is no picture with statistics.

ghost use Rattle.std.specs.Prelude.{◌≡◌, codes, string_bytes};
ghost use Rattle.volcano_answer.specs.CommandLineView.{IsUsageFault, IsNoDrawing};

use crate::command_line::{ArgumentFault, usage_fault};
use crate::usage::WrongPart;
use std::alloc::{AllocError, Global};
use volcano_drawing::{Difference, DrawFault};
use volcano_refusals::Refusal;

// The article of an operator's word.
fn article(word: &str) -> &'static str {
    match word.as_bytes() {
        [b'e', ..] => "an",
        _ => "a",
    }
}

// An operator's word with its article.
fn an_operator(alloc: Global, word: &str) -> Result<String, AllocError> {
    let article = article(word);
    format!(in alloc; "{article} {word}")
}

// What is said, behind its path, of a file that is of another plan than the one whose operators have these words.
fn difference_text(
    alloc: Global,
    words: &[&str],
    difference: &Difference,
) -> Result<String, AllocError> {
    let node = difference.node;
    let there = match &difference.there {
        Some(word) => an_operator(alloc, word.as_str())?,
        None => String::from_str(alloc, "missing")?,
    };
    let here = match words.get(node as usize) {
        Some(word) => an_operator(alloc, word)?,
        None => String::from_str(alloc, "missing")?,
    };
    format!(in alloc;
        ": node {node} is {there} there, and {here} in this plan; see volcano explain --help\n"
    )
}

// What is said, behind its path, of a file that is no statistics.
const NO_STATS: &str = ": it is not what `run --stats=json` writes; see volcano explain --help\n";

// The fault of a file of statistics, with what is said behind its path.
fn file_fault(alloc: Global, path: &str, said: &str) -> ArgumentFault
    ensures { IsUsageFault (codes "volcano: --stats ") path.now said.now result }
{
    let wrong = WrongPart {
        before: "volcano: --stats ",
        argument: path,
        after: said,
    };
    usage_fault(alloc, wrong)
}

/// Why the statistics of the file at a path are not drawn into the picture of the plan whose operators have these words.
#[tactic(auto, using(crate::proofs::CommandLineFacts::no_drawing_of))]
pub fn no_drawing(alloc: Global, path: &str, words: &[&str], fault: DrawFault) -> ArgumentFault
    ensures { IsNoDrawing path.now fault result }
{
    match fault {
        DrawFault::NoMemory => ArgumentFault::Refused(Refusal::NoMemory),
        DrawFault::NotStatistics => file_fault(alloc, path, NO_STATS),
        DrawFault::OtherPlan(difference) => match difference_text(alloc, words, &difference) {
            Ok(said) => file_fault(alloc, path, said.as_str()),
            Err(_) => ArgumentFault::Refused(Refusal::NoMemory),
        },
    }
}
