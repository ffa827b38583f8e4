//! The status with which the program ends after a refusal: 3 for input that is refused, 4 where the machine or the run failed.

ghost use Rattle.std.specs.Prelude.{◌≡◌};
ghost use Rattle.volcano_refusals.specs.Status.{catalog_status, load_status, plan_status, rule_status, run_status, eval_status, status_of};

use crate::refusal::Refusal;
use vx_catalog::LoadFault;
use vx_catalog_relations::CatalogFault;
use vx_check_rules::Rule;
use vx_exec_setup::{EvalFault, RunFault};
use vx_plan_json::PlanFault;

fn catalog_status(fault: &CatalogFault) -> u8
    ensures { result ≡ catalog_status fault.now }
{
    match fault {
        CatalogFault::BadCatalog
        | CatalogFault::DuplicateName { .. }
        | CatalogFault::UnknownColumn { .. }
        | CatalogFault::TooLarge => 3,
        CatalogFault::NoMemory => 4,
    }
}

fn load_status(fault: &LoadFault) -> u8
    ensures { result ≡ load_status fault.now }
{
    match fault {
        LoadFault::HeaderMismatch
        | LoadFault::BadWidth { .. }
        | LoadFault::BadInt { .. }
        | LoadFault::NotUtf8 { .. }
        | LoadFault::KeyBroken { .. }
        | LoadFault::OrderBroken { .. }
        | LoadFault::ReadFailed
        | LoadFault::TooLarge => 3,
        LoadFault::NoMemory => 4,
    }
}

fn plan_status(fault: &PlanFault) -> u8
    ensures { result ≡ plan_status fault.now }
{
    match fault {
        PlanFault::NotJson
        | PlanFault::BadNode { .. }
        | PlanFault::TooDeep
        | PlanFault::UnknownRelation { .. }
        | PlanFault::UnknownColumn { .. }
        | PlanFault::DuplicateColumn { .. }
        | PlanFault::TypeMismatch { .. }
        | PlanFault::UnknownRange { .. }
        | PlanFault::BadRange { .. }
        | PlanFault::BadSize { .. }
        | PlanFault::TooWide { .. }
        | PlanFault::PhaseMismatch { .. } => 3,
        PlanFault::NoMemory => 4,
    }
}

fn rule_status(rule: Rule) -> u8
    ensures { result ≡ rule_status rule }
{
    match rule {
        Rule::SizeMismatch
        | Rule::RootNotOne
        | Rule::PartNotShown
        | Rule::InputsNotMatched
        | Rule::ReplicatedInput
        | Rule::OrderNotShown
        | Rule::OrderNeeded
        | Rule::KeyNotShown
        | Rule::TotalNotShown
        | Rule::FirstRowsOpen => 3,
    }
}

fn run_status(fault: &RunFault) -> u8
    ensures { result ≡ run_status fault.now }
{
    match fault {
        RunFault::SizeMissing { .. }
        | RunFault::SizeOutOfRange { .. }
        | RunFault::BadPacket
        | RunFault::BadMorsel
        | RunFault::BadStep { .. }
        | RunFault::OtherCatalog
        | RunFault::TooManyWorkers { .. }
        | RunFault::BadSlack
        | RunFault::BadFunction { .. } => 3,
        RunFault::Overflow { .. }
        | RunFault::NoMemory
        | RunFault::NoThread
        | RunFault::Unsorted { .. }
        | RunFault::Stranger { .. } => 4,
    }
}

fn eval_status(fault: &EvalFault) -> u8
    ensures { result ≡ eval_status fault.now }
{
    match fault {
        EvalFault::OtherCatalog | EvalFault::HasExchange { .. } | EvalFault::BadFunction { .. } =>
            3,
        EvalFault::Overflow { .. } | EvalFault::NoMemory => 4,
    }
}

/// The status after a refusal.
pub fn status(refusal: &Refusal) -> u8
    ensures { result ≡ status_of refusal.now }
{
    match refusal {
        Refusal::Catalog(fault) => catalog_status(fault),
        Refusal::Load(fault) => load_status(fault),
        Refusal::Plan(fault) => plan_status(fault),
        Refusal::Check { rule, .. } => rule_status(*rule),
        Refusal::Run(fault) => run_status(fault),
        Refusal::Eval(fault) => eval_status(fault),
        Refusal::BadBundle
        | Refusal::NoTable { .. }
        | Refusal::FileUnreadable { .. }
        | Refusal::InputUnreadable
        | Refusal::TooLarge => 3,
        Refusal::WriteFailed | Refusal::Unfinished | Refusal::NoMemory => 4,
    }
}
