//! The picture of a plan with the counts of a run.

ghost use Rattle.std.specs.Prelude.{map, IfOk, IfErr};
ghost use Rattle.vx_plan_nodes.specs.TypedView.{resolved_of};
ghost use Rattle.vx_check_rules.specs.CheckedView.{typed_plan};
ghost use Rattle.volcano_drawing.specs.Drawing.{IsDrawn};
ghost use Rattle.volcano_drawing.specs.Fault.{IsDrawFault};

use crate::fault::DrawFault;
use crate::totals::totals_in;
use std::alloc::Global;
use vx_check_formats::explain_dot_with;
use vx_check_rules::CheckedPlan;

/// The picture of a plan whose nodes' operators have these words, by the nodes' numbers, in the language of Graphviz, with what
/// `run --stats=json` wrote of each node.
pub fn draw(
    alloc: Global,
    checked: &CheckedPlan,
    words: &[&str],
    stats: &[u8],
) -> Result<Vec<u8>, DrawFault>
    ensures drawn { IfOk result (λ v. IsDrawn (map (λ w. w.now) words.now) (resolved_of (typed_plan checked.now)) stats.now v.items) }
    ensures refused { IfErr result (IsDrawFault (map (λ w. w.now) words.now) stats.now) }
{
    let counts = totals_in(alloc, words, stats)?;
    let picture = explain_dot_with(alloc, checked, counts.as_slice())?;
    Ok(picture.into_bytes())
}
