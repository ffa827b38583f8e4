//! A catalog and a plan from files and standard input.

ghost use Rattle.std.specs.Prelude.{◌≡◌, true, false, Ok, IfOk, IfErr, IsErrOf};
ghost use Rattle.vx_catalog_bytes.specs.Ports.{IsAll};
ghost use Rattle.vx_plan_nodes.specs.TypedView.{resolved_of};
ghost use Rattle.volcano_arguments.specs.Asked.{paths_are};
ghost use Rattle.vx_catalog_bytes.specs.Stored.{IfBytes};
ghost use Rattle.vx_plan_json.specs.PlanView.{document_of};
ghost use Rattle.vx_check_directions.specs.Planned.{planned};
ghost use Rattle.volcano_answer.specs.Files.{is_input, left_of, known_at, IsFileRefusal, IsInputRefusal, IsReadRefusal, AreRead, AreNotRead, IsFilesPlan, IsFilesRefusal};

use std::alloc::Global;
use volcano_arguments::Sources;
use volcano_refusals::Refusal;
use vx_catalog_bytes::{ByteIn, ReadFault, Store, read_all};
use vx_catalog_relations::Catalog;
use vx_check_directions::planned;
use vx_plan_json::Plan;
use vx_plan_nodes::TypedPlan;
use vx_rows_values::limits::MAX_TEXT_BYTES;

// The path of standard input.
const INPUT: &str = "-";

/// Whether a path is that of standard input.
pub fn is_input(path: &str) -> bool
    ensures { result ≡ is_input path.now }
{
    path == INPUT
}

/// All bytes of a file.
pub fn file_bytes<F: Store>(alloc: Global, files: &F, path: &str) -> Result<Vec<u8>, Refusal>
    ensures bytes { IfOk result (λ v. IfBytes (F.holds files.now path.now) (λ bytes. bytes ≡ v.items)) }
    ensures refused { IfErr result (IsFileRefusal (F.holds files.now path.now) (F.is_reliable files.now path.now) path.now) }
{
    let name = String::from_str(alloc, path)?;
    let mut file = match files.open(path) {
        Some(file) => file,
        None => return Err(Refusal::FileUnreadable { path: name }),
    };
    match read_all(alloc, &mut file, MAX_TEXT_BYTES) {
        Ok(bytes) => Ok(bytes),
        Err(ReadFault::NoMemory) => Err(Refusal::NoMemory),
        Err(ReadFault::Broken) => Err(Refusal::FileUnreadable { path: name }),
        Err(ReadFault::TooLarge) => Err(Refusal::FileUnreadable { path: name }),
    }
}

/// All bytes that standard input has left.
pub fn input_bytes<I: ByteIn>(alloc: Global, input: &mut I) -> Result<Vec<u8>, Refusal>
    ensures bytes { IfOk result (λ v. IsAll (I.remaining input.old) v.items) }
    ensures refused { IfErr result (IsInputRefusal (I.remaining input.old) (I.has_failed input.new)) }
    ensures broken { I.has_failed input.new ≡ true → IsErrOf result Refusal.InputUnreadable }
{
    match read_all(alloc, input, MAX_TEXT_BYTES) {
        Ok(bytes) => Ok(bytes),
        Err(ReadFault::NoMemory) => Err(Refusal::NoMemory),
        Err(ReadFault::Broken | ReadFault::TooLarge) => Err(Refusal::InputUnreadable),
    }
}

/// All bytes under a path. Standard input is read once: where it was read before, it has nothing left.
#[tactic(auto, using(crate::proofs::FileFacts::input_all))]
pub fn bytes_at<F: Store, I: ByteIn>(
    alloc: Global,
    files: &F,
    input: &mut I,
    was_read: bool,
    path: &str,
) -> Result<Vec<u8>, Refusal>
    ensures bytes { IfOk result (λ v. IfBytes (known_at (F.holds files.now) (left_of was_read (I.remaining input.old)) path.now) (λ bytes. bytes ≡ v.items)) }
    ensures refused { IfErr result (IsReadRefusal (F.holds files.now) (F.is_reliable files.now) (left_of was_read (I.remaining input.old)) (I.has_failed input.new) path.now) }
    ensures kept { is_input path.now ≡ false → input.new ≡ input.old }
{
    if !is_input(path) {
        return file_bytes(alloc, files, path);
    }
    if was_read {
        return Ok(Vec::new(alloc));
    }
    input_bytes(alloc, input)
}

/// The catalog at one path, and the plan at the other as it was written.
pub fn document_from_files<F: Store, I: ByteIn>(
    alloc: Global,
    files: &F,
    input: &mut I,
    sources: Sources<'_>,
) -> Result<(Catalog, Plan), Refusal>
    ensures read { IfOk result (λ r. AreRead (F.holds files.now) (I.remaining input.old) (paths_are sources.entry) r.0 (document_of r.1)) }
    ensures refused { IfErr result (AreNotRead (F.holds files.now) (F.is_reliable files.now) (I.remaining input.old) (I.has_failed input.new) (paths_are sources.entry)) }
{
    let catalog_text = bytes_at(alloc, files, input, false, sources.catalog)?;
    let catalog = Catalog::read(alloc, catalog_text.as_slice())?;
    let was_read = is_input(sources.catalog);
    let plan_text = bytes_at(alloc, files, input, was_read, sources.plan)?;
    let plan = Plan::read(alloc, plan_text.as_slice())?;
    Ok((catalog, plan))
}

/// The catalog at one path, the plan at the other as it was written, and that plan over the catalog.
pub fn all_from_files<F: Store, I: ByteIn>(
    alloc: Global,
    files: &F,
    input: &mut I,
    sources: Sources<'_>,
) -> Result<(Catalog, Plan, TypedPlan), Refusal>
    ensures read { IfOk result (λ r. AreRead (F.holds files.now) (I.remaining input.old) (paths_are sources.entry) r.0 (document_of r.1)) }
    ensures directed { IfOk result (λ r. planned (document_of r.1) r.0 ≡ Ok (resolved_of r.2)) }
    ensures planned { IfOk result (λ r. IsFilesPlan (F.holds files.now) (I.remaining input.old) (paths_are sources.entry) (resolved_of r.2)) }
    ensures refused { IfErr result (IsFilesRefusal (F.holds files.now) (F.is_reliable files.now) (I.remaining input.old) (I.has_failed input.new) (paths_are sources.entry)) }
{
    let (catalog, plan) = document_from_files(alloc, files, input, sources)?;
    let typed = planned(alloc, &plan, &catalog)?;
    Ok((catalog, plan, typed))
}

/// The plan at one path, over the catalog at the other.
pub fn plan_from_files<F: Store, I: ByteIn>(
    alloc: Global,
    files: &F,
    input: &mut I,
    sources: Sources<'_>,
) -> Result<TypedPlan, Refusal>
    ensures planned { IfOk result (λ p. IsFilesPlan (F.holds files.now) (I.remaining input.old) (paths_are sources.entry) (resolved_of p)) }
    ensures refused { IfErr result (IsFilesRefusal (F.holds files.now) (F.is_reliable files.now) (I.remaining input.old) (I.has_failed input.new) (paths_are sources.entry)) }
{
    let (_catalog, _plan, typed) = all_from_files(alloc, files, input, sources)?;
    Ok(typed)
}
