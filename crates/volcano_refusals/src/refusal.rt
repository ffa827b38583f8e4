//! Why the program has no answer.

use std::alloc::{AllocError, AllocFailed};
use std::fmt;
use std::fmt::Write;
use thiserror::Error;
use vx_catalog::LoadFault;
use vx_catalog_bytes::{ByteOut, write_all};
use vx_catalog_relations::CatalogFault;
use vx_check_rules::Rule;
use vx_exec_setup::{EvalFault, RunFault};
use vx_plan_json::PlanFault;

/// The first reason why the program has no answer.
#[derive(Debug, Drop, Error)]
pub enum Refusal {
    /// The catalog is refused.
    #[error(transparent)]
    Catalog(CatalogFault),
    /// A relation's text does not hold its rows.
    #[error(transparent)]
    Load(LoadFault),
    /// The plan is refused: its form, or it does not fit the catalog.
    #[error(transparent)]
    Plan(PlanFault),
    /// A claim of the plan does not follow.
    #[error("{rule} node={node}")]
    Check { rule: Rule, node: u32 },
    /// The setup does not fit the plan, or the run failed.
    #[error(transparent)]
    Run(RunFault),
    /// The plan without its exchanges has no rows over the tables.
    #[error(transparent)]
    Eval(EvalFault),
    /// The input is not of a bundle's form.
    #[error("V1 BadBundle")]
    BadBundle,
    /// A bundle has no text for a relation that its plan scans.
    #[error("V2 NoTable name={name}")]
    NoTable { name: String },
    /// A file does not open, or a catalog's or plan's file fails while it is read or has over 2^40 bytes.
    #[error("V3 FileUnreadable path={path}")]
    FileUnreadable { path: String },
    /// The standard input fails, or has over 2^40 bytes.
    #[error("V3 FileUnreadable path=-")]
    InputUnreadable,
    /// The output failed.
    #[error("V4 WriteFailed")]
    WriteFailed,
    /// The rounds were over before the last worker had ended.
    #[error("V5 Unfinished")]
    Unfinished,
    /// A generated relation may not have so many rows.
    #[error("V6 TooLarge")]
    TooLarge,
    /// Out of memory, where no layer has a code of its own for that.
    #[error("X8 NoMemory")]
    NoMemory,
}

impl From<AllocError> for Refusal {
    ghost use Rattle.std.specs.Prelude.{◌≡◌};
    ghost use Rattle.volcano_refusals.specs.declared.refusal.Refusal.TheVariants.{NoMemory};

    ghost from_gives = { λ _ e. e ≡ NoMemory };

    fn from(_e: AllocError) -> Refusal {
        Refusal::NoMemory
    }
}

impl<T: Drop> From<AllocFailed<T>> for Refusal {
    ghost use Rattle.std.specs.Prelude.{◌≡◌};
    ghost use Rattle.volcano_refusals.specs.declared.refusal.Refusal.TheVariants.{NoMemory};

    ghost from_gives = { λ _ e. e ≡ NoMemory };

    fn from(_e: AllocFailed<T>) -> Refusal {
        Refusal::NoMemory
    }
}

impl From<CatalogFault> for Refusal {
    ghost use Rattle.std.specs.Prelude.{◌≡◌};
    ghost use Rattle.volcano_refusals.specs.declared.refusal.Refusal.TheVariants as refusal;

    ghost from_gives = { λ fault e. e ≡ refusal.Catalog fault };

    fn from(fault: CatalogFault) -> Refusal {
        Refusal::Catalog(fault)
    }
}

impl From<LoadFault> for Refusal {
    ghost use Rattle.std.specs.Prelude.{◌≡◌};
    ghost use Rattle.volcano_refusals.specs.declared.refusal.Refusal.TheVariants as refusal;

    ghost from_gives = { λ fault e. e ≡ refusal.Load fault };

    fn from(fault: LoadFault) -> Refusal {
        Refusal::Load(fault)
    }
}

impl From<PlanFault> for Refusal {
    ghost use Rattle.std.specs.Prelude.{◌≡◌};
    ghost use Rattle.volcano_refusals.specs.declared.refusal.Refusal.TheVariants as refusal;

    ghost from_gives = { λ fault e. e ≡ refusal.Plan fault };

    fn from(fault: PlanFault) -> Refusal {
        Refusal::Plan(fault)
    }
}

impl From<RunFault> for Refusal {
    ghost use Rattle.std.specs.Prelude.{◌≡◌};
    ghost use Rattle.volcano_refusals.specs.declared.refusal.Refusal.TheVariants as refusal;

    ghost from_gives = { λ fault e. e ≡ refusal.Run fault };

    fn from(fault: RunFault) -> Refusal {
        Refusal::Run(fault)
    }
}

impl From<EvalFault> for Refusal {
    ghost use Rattle.std.specs.Prelude.{◌≡◌};
    ghost use Rattle.volcano_refusals.specs.declared.refusal.Refusal.TheVariants as refusal;

    ghost from_gives = { λ fault e. e ≡ refusal.Eval fault };

    fn from(fault: EvalFault) -> Refusal {
        Refusal::Eval(fault)
    }
}

// Text that goes to a writer of bytes as it is made, so that it needs no memory.
#[derive(Drop)]
struct Printer<'w, W> {
    out: &'w mut W,
}

impl<W: ByteOut> Write for Printer<'_, W> {
    fn write_str(&mut self, text: &str) -> fmt::Result {
        match write_all(self.out, text.as_bytes()) {
            Ok(()) => Ok(()),
            Err(_) => Err(fmt::Error),
        }
    }
}

/// Reports a refusal in one line. That the writer fails changes nothing else.
pub fn report<E: ByteOut>(refusal: &Refusal, err: &mut E) {
    let _ = writeln!(Printer { out: err }, "volcano: {refusal}");
}
