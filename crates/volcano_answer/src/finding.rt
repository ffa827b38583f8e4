//! The catalog that is found in files.

ghost use Rattle.std.specs.Prelude.{◌≡◌, ◌++◌, ◌==◌, ℕ, List, false, map, IfOk, IfErr, IfSome, IfNone};
ghost use Rattle.std.specs.List.{list_any};
ghost use Rattle.vx_catalog_finding.specs.Finding.{text_of};
ghost use Rattle.volcano_answer.specs.Finding.{IsFront, IsTablePath, IsNoTablePath, IsTextAt, AreTextsAt, AnswersCatalog, refusal_of};
ghost use Rattle.volcano_answer.specs.FindingView.{IsPathFault, IsCatalogFault};

use crate::command_line::{ArgumentFault, usage_fault};
use crate::files::file_bytes;
use crate::services::Services;
use crate::usage::WrongPart;
use std::alloc::Global;
use std::sync::Wait;
use std::thread::Threads;
use std::time::Clock;
use volcano_refusals::Refusal;
use vx_catalog_bytes::Store;
use vx_catalog_finding::{FindFault, NamedText, find_catalog};
use vx_exec_runs::Runs;

// What stands behind the last slash of a path.
fn file_name(path: &str) -> &str
    ensures { (front : List ℕ) × IsFront front × (path.entry.now ≡ front ++ result.now) × (list_any (λ c. c == 47) result.now ≡ false) }
{
    let mut name = path;
    while let Some((_, rest)) = name.split_once('/') {
        name = rest;
    }
    name
}

// The name of the relation whose file is at a path, if that is NAME.csv, in a folder or in none.
fn table_name(path: &str) -> Option<&str>
    ensures name { IfSome result (λ name. IsTablePath path.entry.now name.now) }
    ensures none { IfNone result (IsNoTablePath path.entry.now) }
{
    let front = path.strip_suffix(".csv")?;
    Some(file_name(front))
}

// The bytes of the file at a path, under the name of its relation.
fn read_text<'a, F: Store>(
    alloc: Global,
    files: &F,
    path: &'a str,
) -> Result<NamedText<'a>, ArgumentFault>
    ensures text { IfOk result (λ t. IsTextAt (F.holds files.now) path.entry.now (text_of t)) }
    ensures refused { IfErr result (IsPathFault (F.holds files.now) (F.is_reliable files.now) path.entry.now) }
{
    let Some(name) = table_name(path) else {
        let wrong = WrongPart {
            before: "volcano: catalog ",
            argument: path,
            after: ": the file of a relation NAME is NAME.csv; see volcano catalog --help\n",
        };
        return Err(usage_fault(alloc, wrong));
    };
    let text = file_bytes(alloc, files, path)?;
    Ok(NamedText { name, text })
}

// The same of each path.
fn read_texts<'a, F: Store>(
    alloc: Global,
    files: &F,
    paths: &[&'a str],
) -> Result<Vec<NamedText<'a>>, ArgumentFault>
    ensures texts { IfOk result (λ v. AreTextsAt (F.holds files.now) (map (λ p. p.now) paths.now) (map text_of v.items)) }
    ensures refused { IfErr result (IsCatalogFault (F.holds files.now) (F.is_reliable files.now) (map (λ p. p.now) paths.now)) }
{
    let mut texts = Vec::new(alloc);
    for path in paths {
        let text = read_text(alloc, files, path)?;
        if texts.push(text).is_err() {
            return Err(ArgumentFault::Refused(Refusal::NoMemory));
        }
    }
    Ok(texts)
}

// The refusal that a fault is to the program.
fn refusal_of(fault: FindFault) -> Refusal
    ensures { result ≡ refusal_of fault }
{
    match fault {
        FindFault::Load { text: _, fault } => Refusal::Load(fault),
        FindFault::Catalog(fault) => Refusal::Catalog(fault),
        FindFault::NoMemory => Refusal::NoMemory,
    }
}

/// The text of the catalog that is found in the files at these paths. Each file is loaded as its relation before the catalog is
/// handed out.
pub fn answer_catalog<T: Threads + Wait + Sync, R: Runs, C: Clock, F: Store>(
    services: &Services<'_, T, R, C>,
    files: &F,
    paths: &[&str],
) -> Result<Vec<u8>, ArgumentFault>
    ensures text { IfOk result (λ text. AnswersCatalog (F.holds files.now) (map (λ p. p.now) paths.now) text.items) }
    ensures refused { IfErr result (IsCatalogFault (F.holds files.now) (F.is_reliable files.now) (map (λ p. p.now) paths.now)) }
{
    let alloc = services.alloc;
    let texts = read_texts(alloc, files, paths)?;
    match find_catalog(services.rt, alloc, services.threads, texts.as_slice()) {
        Ok(text) => Ok(text.into_bytes()),
        Err(fault) => Err(ArgumentFault::Refused(refusal_of(fault))),
    }
}
