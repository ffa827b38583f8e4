//! The lines of a plan with marks at some of them.

ghost use Rattle.std.specs.Prelude.{◌≡◌, ◌++◌, ◌==◌, ◌≤◌, map, length, take, drop, string_bytes, IfOk};
ghost use Rattle.std.specs.List.{list_any};
ghost use Rattle.vx_plan_json.specs.Document.{tree_nodes};
ghost use Rattle.vx_plan_json.specs.PlanView.{document_of};
ghost use Rattle.vx_plan_drawing.specs.Drawing.{mark, with_marks, marked_lines, window_start, WindowLaw, lines_around};

use crate::drawing::plan_lines;
use std::alloc::{AllocError, Global};
use vx_plan_json::Plan;

// Whether the node with this number is marked.
fn is_marked(marked: &[u32], number: usize) -> bool
    ensures { result ≡ list_any (λ m. m == number) marked.now }
{
    marked.iter().any(|m| *m as usize == number)
}

// The mark of the node with this number.
fn mark(marked: &[u32], number: usize) -> &'static str
    ensures { result.now ≡ mark marked.now number }
{
    if is_marked(marked, number) {
        "> "
    } else {
        "  "
    }
}

// The line behind its mark.
fn with_mark(alloc: Global, mark: &str, line: &str) -> Result<String, AllocError>
    ensures { IfOk result (λ s. string_bytes s ≡ mark.now ++ line.now) }
{
    let mut text = String::from_str(alloc, mark)?;
    text.push_str(line)?;
    Ok(text)
}

// Lines of nodes that are numbered from 0, behind their marks.
fn with_marks(alloc: Global, marked: &[u32], lines: &[String]) -> Result<Vec<String>, AllocError>
    ensures { IfOk result (λ v. map string_bytes v.items ≡ with_marks marked.now 0 (map string_bytes lines.now)) }
{
    let mut list = Vec::new(alloc);
    for (i, line) in lines.iter().enumerate() {
        list.push(with_mark(alloc, mark(marked, i), line.as_str())?)?;
    }
    Ok(list)
}

/// The lines of a plan with a margin of two characters: `> ` at the nodes with these numbers, two spaces at the others.
pub fn marked_lines(alloc: Global, plan: &Plan, marked: &[u32]) -> Result<Vec<String>, AllocError>
    ensures lines { IfOk result (λ v. map string_bytes v.items ≡ marked_lines marked.now (document_of plan.now).root) }
    ensures count { IfOk result (λ v. length v.items ≡ tree_nodes (document_of plan.now).root) }
{
    let lines = plan_lines(alloc, plan)?;
    with_marks(alloc, marked, lines.as_slice())
}

// Where a window of at most so many of the lines begins that has the node's.
fn window_start(lines: usize, node: usize, most: usize) -> usize
    ensures { result ≡ window_start lines node most }
{
    node.saturating_sub(most / 2)
        .min(lines.saturating_sub(most))
}

// At most so many of the lines, from this one on.
fn window(
    alloc: Global,
    lines: Vec<String>,
    start: usize,
    most: usize,
) -> Result<Vec<String>, AllocError>
    ensures lines { IfOk result (λ v. v.items ≡ take most (drop start lines.items)) }
    ensures few { IfOk result (λ v. length v.items ≤ most) }
{
    lines.into_iter().skip(start).take(most).collect(alloc)
}

/// At most so many of the marked lines around the node with this number: as many before as behind where there are so many, and one more before if the
/// number is even. Only this node is marked. A plan without the node gives its last lines.
pub fn lines_around(
    alloc: Global,
    plan: &Plan,
    node: u32,
    most: usize,
) -> Result<Vec<String>, AllocError>
    ensures lines { IfOk result (λ v. map string_bytes v.items ≡ lines_around node most (document_of plan.now).root) }
    ensures few { IfOk result (λ v. length v.items ≤ most) }
{
    let lines = marked_lines(alloc, plan, &[node])?;
    let start = window_start(lines.len(), node as usize, most);
    window(alloc, lines, start, most)
}

/// Where the plan has the node and there is room for a line, the lines around the node have its own.
pub fn lines_around_have_the_node()
    ensures { WindowLaw }
{}
