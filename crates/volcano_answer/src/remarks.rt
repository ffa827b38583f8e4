//! What is said beside an answer.

ghost use Rattle.std.specs.Prelude.{◌≡◌, map, false, None, IfOk};
ghost use Rattle.volcano_arguments.specs.Asked.{asked_by};
ghost use Rattle.volcano_answer.specs.CommandLine.{with_program_name};
ghost use Rattle.volcano_answer.specs.Reports.{annotates, annotates_ask};
ghost use Rattle.volcano_arguments.specs.Asked.{asked_is};

use crate::command_line::with_program_name;
use std::alloc::Global;
use volcano_arguments::{Asked, Sources, asked_for};
use volcano_locations::{PlaceFault, Replay, dropped_total};
use vx_catalog_bytes::{ByteOut, Store, write_all};

// What is said beside a catalog that is found in files.
const OF_THESE_FILES: &str =
    "volcano: types, keys and orders are those of these files; take out what the next ones may not keep\n";

// The line that says why an annotated plan is not total though the plan said so, if it did.
fn total_remark<F: Store>(
    alloc: Global,
    files: &F,
    input: Option<&[u8]>,
    sources: Sources<'_>,
    derive: bool,
) -> Result<Option<String>, PlaceFault> {
    match dropped_total(alloc, files, input, sources.catalog, sources.plan, derive)? {
        Some(why) => {
            let line = format!(in alloc;
                "volcano: \"total\" is left out, since the order of the root is not total: {why}\n"
            )?;
            Ok(Some(line))
        }
        None => Ok(None),
    }
}

// The line beside what is asked for, if there is one.
fn remark_on<F: Store>(
    alloc: Global,
    files: &F,
    input: Option<&[u8]>,
    asked: &Asked<'_>,
) -> Result<Option<String>, PlaceFault>
    ensures { annotates_ask (asked_is asked.now) ≡ false → IfOk result (λ o. o ≡ None) }
{
    match asked {
        Asked::Annotate(sources, derive) => { total_remark(alloc, files, input, *sources, *derive) }
        Asked::Catalog(_, false) => Ok(Some(String::from_str(alloc, OF_THESE_FILES)?)),
        _ => Ok(None),
    }
}

// The line beside the answer to arguments, if there is one.
fn remark_of<F: Store>(
    alloc: Global,
    files: &F,
    input: Option<&[u8]>,
    arguments: &[&str],
) -> Result<Option<String>, PlaceFault>
    ensures { annotates (asked_by (with_program_name (map (λ a. a.now) arguments.now))) ≡ false → IfOk result (λ o. o ≡ None) }
{
    let arguments = with_program_name(alloc, arguments)?;
    match asked_for(alloc, arguments.as_slice()) {
        Ok(Some(request)) => remark_on(alloc, files, input, &request.asked),
        _ => Ok(None),
    }
}

/// Writes on `err` what is said beside the answer to arguments: where they ask for a plan with the claims that follow, whether the total
/// order that the plan says is left out, and why; where they ask for a catalog, what it rests on. A write that fails changes nothing else.
pub fn write_remark<F: Store, I: Replay, E: ByteOut>(
    alloc: Global,
    files: &F,
    input: &I,
    arguments: &[&str],
    err: &mut E,
)
    ensures { annotates (asked_by (with_program_name (map (λ a. a.now) arguments.now))) ≡ false → err.new ≡ err.old }
{
    if let Ok(Some(line)) = remark_of(alloc, files, input.replay(), arguments) {
        let _ = write_all(err, line.as_bytes());
    }
}
