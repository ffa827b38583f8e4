//! What is said of a refusal below its line, if anything is.

ghost use Rattle.std.specs.Prelude.{◌≡◌, map, true, false, None, IfOk};
ghost use Rattle.volcano_arguments.specs.Asked.{errors_by};
ghost use Rattle.volcano_answer.specs.CommandLine.{with_program_name};
ghost use Rattle.volcano_answer.specs.Reports.{form_of, is_silent};

use crate::command_line::with_program_name;
use crate::services::Services;
use std::alloc::{AllocError, Global};
use std::sync::Wait;
use std::thread::Threads;
use std::time::Clock;
use volcano_arguments::{Asked, ErrorForm, Request, Sources, asked_for};
use volcano_diagnostics::{Diagnostic, Label, Note, json_line, text_lines};
use volcano_locations::{Inputs, Origin, Reasons, Replay, diagnose};
use volcano_refusals::Refusal;
use vx_catalog_bytes::{ByteOut, Store, write_all};
use vx_exec_runs::Runs;

// What may be the cause if a file does not get the rows.
const OUTPUT_HELP: &str =
    "its folder is missing, no file may be written there, or the disk is full; what stood there is as it was.";

// The files that are read for what arguments ask for. Without tables the folder is empty.
#[derive(Drop)]
struct Named<'a> {
    catalog: &'a str,
    plans: Vec<&'a str>,
    folder: &'a str,
    draws_all: bool,
}

fn with_one_plan<'a>(
    alloc: Global,
    sources: Sources<'a>,
    folder: &'a str,
    draws_all: bool,
) -> Result<Option<Named<'a>>, AllocError> {
    let mut plans = Vec::new(alloc);
    plans.push(sources.plan)?;
    Ok(Some(Named {
        catalog: sources.catalog,
        plans,
        folder,
        draws_all,
    }))
}

fn named_by<'a>(alloc: Global, asked: &Asked<'a>) -> Result<Option<Named<'a>>, AllocError> {
    match asked {
        Asked::Check(sources) | Asked::CheckAll(sources) | Asked::Annotate(sources, _) => {
            with_one_plan(alloc, *sources, "", false)
        }
        Asked::Explain(sources, _) | Asked::Draw(sources, _) => {
            with_one_plan(alloc, *sources, "", true)
        }
        Asked::Sql(sources, _) => with_one_plan(alloc, *sources, "", false),
        Asked::Serial(sources, folder) => with_one_plan(alloc, *sources, *folder, false),
        Asked::Run(sources, folder, _) => with_one_plan(alloc, *sources, *folder, false),
        Asked::RunPlans(sources, folder, _) => Ok(Some(Named {
            catalog: sources.catalog,
            plans: Vec::from_slice(alloc, sources.plans.as_slice())?,
            folder: *folder,
            draws_all: false,
        })),
        Asked::Bundle | Asked::Catalog(_, _) | Asked::Why(_) | Asked::Generate(_) => Ok(None),
    }
}

/// In which form more is said of a refusal: as arguments ask for, or else at length if a person reads it.
pub fn form_of(asked: Option<ErrorForm>, is_read: bool) -> ErrorForm
    ensures { result ≡ form_of asked is_read }
{
    match asked {
        Some(form) => form,
        None if is_read => ErrorForm::Long,
        None => ErrorForm::Short,
    }
}

// What is said, in a form in which something is.
fn written(
    alloc: Global,
    form: ErrorForm,
    refusal: &str,
    found: &Diagnostic,
) -> Result<Vec<u8>, AllocError> {
    match form {
        ErrorForm::Short => Ok(Vec::new(alloc)),
        ErrorForm::Long => text_lines(alloc, found),
        ErrorForm::Json => json_line(alloc, refusal, found),
    }
}

// What is said of a refusal, from the files that were named or from what was read of standard input.
fn said_of<F: Store + Reasons>(
    alloc: Global,
    files: &F,
    input: Option<&[u8]>,
    origin: &Origin<'_>,
    form: ErrorForm,
    refusal: &Refusal,
) -> Result<Vec<u8>, AllocError> {
    let text = format!(in alloc; "{refusal}")?;
    let found = diagnose(alloc, files, input, origin, refusal, text.as_str())?;
    written(alloc, form, text.as_str(), &found)
}

// What is said of a refusal of what a request asks for.
fn said_of_request<F: Store + Reasons>(
    alloc: Global,
    files: &F,
    input: Option<&[u8]>,
    asked: &Asked<'_>,
    form: ErrorForm,
    refusal: &Refusal,
) -> Result<Vec<u8>, AllocError> {
    if let Asked::Bundle = asked {
        return said_of(alloc, files, input, &Origin::Bundle, form, refusal);
    }
    if let Asked::Catalog(paths, _) = asked {
        let origin = Origin::Tables(paths.as_slice());
        return said_of(alloc, files, input, &origin, form, refusal);
    }
    match named_by(alloc, asked)? {
        Some(named) => {
            let origin = Origin::Files(Inputs {
                catalog: named.catalog,
                plans: named.plans.as_slice(),
                folder: named.folder,
                draws_all: named.draws_all,
            });
            said_of(alloc, files, input, &origin, form, refusal)
        }
        None => said_of(alloc, files, input, &Origin::Neither, form, refusal),
    }
}

// What is said of a file that does not get the rows: where it is, and what may be the cause.
fn said_of_output(
    alloc: Global,
    path: &str,
    form: ErrorForm,
    refusal: &Refusal,
) -> Result<Vec<u8>, AllocError> {
    let text = format!(in alloc; "{refusal}")?;
    let mut found = Diagnostic::in_file(alloc, path)?;
    found.add_note(Note {
        label: Label::Help,
        text: String::from_str(alloc, OUTPUT_HELP)?,
    })?;
    written(alloc, form, text.as_str(), &found)
}

// What is said, if anything is.
fn said_if_asked<F: Store + Reasons>(
    alloc: Global,
    files: &F,
    input: Option<&[u8]>,
    request: &Request<'_>,
    is_read: bool,
    refusal: &Refusal,
) -> Result<Option<Vec<u8>>, AllocError>
    ensures { is_silent (form_of request.now.errors is_read) ≡ true → IfOk result (λ o. o ≡ None) }
{
    let form = form_of(request.errors, is_read);
    if let ErrorForm::Short = form {
        return Ok(None);
    }
    let unwritten = match refusal {
        Refusal::WriteFailed => request.output,
        _ => None,
    };
    let text = match unwritten {
        Some(path) => said_of_output(alloc, path, form, refusal)?,
        None => said_of_request(alloc, files, input, &request.asked, form, refusal)?,
    };
    Ok(Some(text))
}

// What is said of a refusal of what arguments ask for, if anything is.
fn said_of_arguments<F: Store + Reasons>(
    alloc: Global,
    files: &F,
    input: Option<&[u8]>,
    arguments: &[&str],
    is_read: bool,
    refusal: &Refusal,
) -> Result<Option<Vec<u8>>, AllocError>
    ensures { is_silent (form_of (errors_by (with_program_name (map (λ a. a.now) arguments.now))) is_read) ≡ true → IfOk result (λ o. o ≡ None) }
{
    let arguments = with_program_name(alloc, arguments)?;
    match asked_for(alloc, arguments.as_slice()) {
        Ok(Some(request)) => said_if_asked(alloc, files, input, &request, is_read, refusal),
        _ => Ok(None),
    }
}

/// Writes on `err` what is said of a refusal of what arguments ask for below its line, if they ask for that, or else if a person reads
/// it. A write that fails changes nothing else, and so does a text for which there is no memory.
pub fn write_more<
    T: Threads + Wait + Sync,
    R: Runs,
    C: Clock,
    F: Store + Reasons,
    I: Replay,
    E: ByteOut,
>(
    services: &Services<'_, T, R, C>,
    files: &F,
    input: &I,
    arguments: &[&str],
    refusal: &Refusal,
    err: &mut E,
)
    ensures { is_silent (form_of (errors_by (with_program_name (map (λ a. a.now) arguments.now))) services.now.is_read) ≡ true → err.new ≡ err.old }
{
    let (alloc, is_read) = (services.alloc, services.is_read);
    let said = said_of_arguments(alloc, files, input.replay(), arguments, is_read, refusal);
    if let Ok(Some(text)) = said {
        let _ = write_all(err, text.as_slice());
    }
}

/// The same of a bundle that came without arguments.
pub fn write_more_of_bundle<
    T: Threads + Wait + Sync,
    R: Runs,
    C: Clock,
    F: Store + Reasons,
    I: Replay,
    E: ByteOut,
>(services: &Services<'_, T, R, C>, files: &F, input: &I, refusal: &Refusal, err: &mut E)
    ensures { services.now.is_read ≡ false → err.new ≡ err.old }
{
    if !services.is_read {
        return;
    }
    let (alloc, form) = (services.alloc, ErrorForm::Long);
    let said = said_of(alloc, files, input.replay(), &Origin::Bundle, form, refusal);
    if let Ok(text) = said {
        let _ = write_all(err, text.as_slice());
    }
}
