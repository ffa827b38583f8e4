//! Several plans over one catalog, from files and standard input.

ghost use Rattle.std.specs.Prelude.{◌≡◌, ◌||◌, false, map, Ok, IfOk, IfErr};
ghost use Rattle.vx_catalog_relations.specs.Naming.{catalog_text};
ghost use Rattle.vx_plan_nodes.specs.TypedView.{resolved_of};
ghost use Rattle.vx_check_rules.specs.CheckedView.{typed_plan};
ghost use Rattle.volcano_answer.specs.Commands.{IsShown};
ghost use Rattle.volcano_answer.specs.Files.{is_input, known_at, left_of};
ghost use Rattle.volcano_answer.specs.Planning.{exactly, read_from, IsPlanned};
ghost use Rattle.volcano_answer.specs.Plans.{IsNoCatalog, any_scans, plan_under, AreAccepted, IsNotAccepted, AreNotAccepted, paths_of};
ghost use Rattle.volcano_answer.specs.PlansView.{named_is, plans_are};

use crate::command::accepted;
use crate::files::{bytes_at, is_input};
use std::alloc::Global;
use volcano_refusals::Refusal;
use volcano_tables::Scanning;
use vx_catalog_bytes::{ByteIn, Store};
use vx_catalog_relations::Catalog;
use vx_check_directions::planned;
use vx_check_rules::CheckedPlan;
use vx_plan_json::Plan;

/// A plan that the checker accepts, and the path that it was read from.
#[derive(Drop)]
pub struct AcceptedPlan {
    pub path: String,
    pub plan: CheckedPlan,
}

/// Plans that the checker accepts, over one catalog.
#[derive(Drop)]
pub struct AcceptedPlans {
    pub plans: Vec<AcceptedPlan>,
}

/// The catalog under a path.
pub fn catalog_under<F: Store, I: ByteIn>(
    alloc: Global,
    files: &F,
    input: &mut I,
    path: &str,
) -> Result<Catalog, Refusal>
    ensures catalog { IfOk result (λ c. read_from (known_at (F.holds files.now) (I.remaining input.old) path.now) catalog_text (λ r. r ≡ Ok c)) }
    ensures refused { IfErr result (IsNoCatalog (F.holds files.now) (F.is_reliable files.now) (I.remaining input.old) (I.has_failed input.new) path.now) }
    ensures kept { is_input path.now ≡ false → input.new ≡ input.old }
{
    let text = bytes_at(alloc, files, input, false, path)?;
    Ok(Catalog::read(alloc, text.as_slice())?)
}

// Whether one of the plans scans the relation with this number.
fn any_scans(plans: &[AcceptedPlan], relation: usize) -> bool
    ensures { result ≡ any_scans (map named_is plans.now) relation }
{
    for accepted in plans {
        if accepted.plan.plan().scans(relation) {
            return true;
        }
    }
    false
}

impl Scanning for AcceptedPlans {
    ghost use Rattle.volcano_answer.specs.Plans.{any_scans};
    ghost use Rattle.volcano_answer.specs.PlansView.{plans_are};

    ghost scanned = { λ ps. any_scans (plans_are ps) };

    fn scans(&self, relation: usize) -> bool {
        any_scans(self.plans.as_slice(), relation)
    }
}

// The plan under a path, once the checker has accepted it.
fn plan_under<F: Store, I: ByteIn>(
    alloc: Global,
    files: &F,
    input: &mut I,
    was_read: bool,
    catalog: &Catalog,
    path: &str,
) -> Result<CheckedPlan, Refusal>
    ensures planned { IfOk result (λ c. IsPlanned (exactly (Ok catalog.now)) (plan_under (F.holds files.now) (left_of was_read (I.remaining input.old)) path.now) (resolved_of (typed_plan c))) }
    ensures shown { IfOk result (λ c. IsShown (resolved_of (typed_plan c))) }
    ensures refused { IfErr result (IsNotAccepted (F.holds files.now) (F.is_reliable files.now) (left_of was_read (I.remaining input.old)) (I.has_failed input.new) catalog.now path.now) }
    ensures kept { is_input path.now ≡ false → input.new ≡ input.old }
{
    let text = bytes_at(alloc, files, input, was_read, path)?;
    let plan = Plan::read(alloc, text.as_slice())?;
    accepted(alloc, planned(alloc, &plan, catalog)?)
}

// Whether standard input was read, once the bytes under a path were.
fn is_read(was_read: bool, path: &str) -> bool
    ensures { result ≡ (was_read || is_input path.now) }
{
    was_read || is_input(path)
}

/// The plans under these paths, in order, once the checker has accepted each. Standard input is read once.
pub fn accepted_plans<F: Store, I: ByteIn>(
    alloc: Global,
    files: &F,
    input: &mut I,
    was_read: bool,
    catalog: &Catalog,
    paths: &[&str],
) -> Result<AcceptedPlans, Refusal>
    ensures named { IfOk result (λ ps. paths_of (plans_are ps) ≡ map (λ p. p.now) paths.now) }
    ensures accepted { IfOk result (λ ps. AreAccepted (F.holds files.now) (left_of was_read (I.remaining input.old)) catalog.now (plans_are ps)) }
    ensures refused { IfErr result (AreNotAccepted (F.holds files.now) (F.is_reliable files.now) (left_of was_read (I.remaining input.old)) (I.has_failed input.new) catalog.now (map (λ p. p.now) paths.now)) }
{
    let mut plans = Vec::new(alloc);
    let mut was_read = was_read;
    for path in paths {
        let plan = plan_under(alloc, files, input, was_read, catalog, path)?;
        let name = String::from_str(alloc, path)?;
        plans.push(AcceptedPlan { path: name, plan })?;
        was_read = is_read(was_read, path);
    }
    Ok(AcceptedPlans { plans })
}
