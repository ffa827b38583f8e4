//! What is said of a refusal below its line.

ghost use Rattle.std.specs.Prelude.{◌≡◌, [], IfOk};
ghost use Rattle.volcano_diagnostics.specs.Text.{diagnostic_text};
ghost use Rattle.volcano_diagnostics.specs.declared.diagnostic.Diagnostic.{Diagnostic};

use crate::files::{CATALOG, CallTexts, PLAN, TABLES};
use std::alloc::{AllocError, Global};
use volcano_diagnostics::{json_line, text_lines};
use volcano_locations::{Inputs, Origin, diagnose};
use volcano_refusals::Refusal;

/// In which form more is said of a refusal than its line.
#[derive(Clone, Copy)]
pub enum ErrorForm {
    /// Nothing more is said.
    Short,
    /// Lines for people.
    Long,
    /// One line of JSON.
    Json,
}

/// What is said of a refusal below its line: where in the texts of the call it is, what was expected there, and what would help. All
/// of the plan is drawn if that is asked for, and else the lines around the node at fault.
pub(crate) fn more_of(
    alloc: Global,
    texts: &CallTexts<'_>,
    draws_all: bool,
    form: ErrorForm,
    refusal: &Refusal,
) -> Result<Vec<u8>, AllocError>
    ensures short { form ≡ ErrorForm.Short → IfOk result (λ v. v.items ≡ []) }
    ensures long { form ≡ ErrorForm.Long → IfOk result (λ v. (d : Diagnostic) × (v.items ≡ diagnostic_text d)) }
{
    if let ErrorForm::Short = form {
        return Ok(Vec::new(alloc));
    }
    let origin = Origin::Files(Inputs {
        catalog: CATALOG,
        plans: &[PLAN],
        folder: TABLES,
        draws_all,
    });
    let text = format!(in alloc; "{refusal}")?;
    let found = diagnose(alloc, texts, None, &origin, refusal, text.as_str())?;
    match form {
        ErrorForm::Short => Ok(Vec::new(alloc)),
        ErrorForm::Long => text_lines(alloc, &found),
        ErrorForm::Json => json_line(alloc, text.as_str(), &found),
    }
}
