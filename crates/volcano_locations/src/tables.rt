//! Which table is at fault, and where.

ghost use Rattle.std.specs.Prelude.{◌≡◌, ◌<◌, IfOk, IfSome, length, string_bytes};
ghost use Rattle.vx_catalog_bytes.specs.Stored.{IfBytes};
ghost use Rattle.volcano_locations.specs.Spots.{number_of, IsOnLine};

use crate::expected::add_expected;
use crate::fault::PlaceFault;
use crate::files::{catalog_at, plan_at, shown_name};
use crate::inputs::Inputs;
use crate::quotes::open_quote;
use crate::reasons::{Reason, Reasons};
use crate::spots::{CellAt, FaultSpot, spot_of};
use std::alloc::{AllocError, Global};
use volcano_diagnostics::{Cell, Diagnostic, Label, Note};
use vx_catalog::{LoadFault, path_in};
use vx_catalog_bytes::Store;
use vx_catalog_relations::{Catalog, Relation};
use vx_plan_json::{Node, Plan};

// A table that is at fault: its number in the catalog, its file and where in it.
#[derive(Drop)]
struct TableSpot {
    relation: usize,
    path: String,
    spot: FaultSpot,
}

/// Whether a node or one below it scans the relation of this name.
pub fn scans(node: &Node, name: &str) -> bool {
    match node {
        Node::Scan(_, scan) => scan.relation.as_str() == name,
        Node::Unary(_, _, input) => scans(input, name),
        Node::Binary(_, _, left, right) => scans(left, name) || scans(right, name),
        Node::Exchange(_, _, _, input) => scans(input, name),
    }
}

fn any_scans(plans: &[Plan], name: &str) -> bool {
    for plan in plans {
        if scans(plan.root(), name) {
            return true;
        }
    }
    false
}

// The plans at these paths, if all are there.
fn plans_at<F: Store>(
    alloc: Global,
    files: &F,
    paths: &[&str],
) -> Result<Option<Vec<Plan>>, PlaceFault> {
    let mut plans = Vec::new(alloc);
    for path in paths {
        match plan_at(alloc, files, path)? {
            Some(plan) => plans.push(plan)?,
            None => return Ok(None),
        }
    }
    Ok(Some(plans))
}

// Where the table of the relation with this number is at fault, if it is.
fn table_spot<F: Store>(
    alloc: Global,
    files: &F,
    catalog: &Catalog,
    relation: usize,
    folder: &str,
    fault: LoadFault,
) -> Result<Option<TableSpot>, PlaceFault>
    requires { relation < length catalog.now }
    ensures number { IfOk result (λ o. IfSome o (λ t. t.relation ≡ relation)) }
    ensures line { IfOk result (λ o. IfSome o (λ t. IfSome t.spot.line (λ line. IfBytes (F.holds files.now (string_bytes t.path)) (λ bytes. IsOnLine bytes (number_of fault) line)))) }
{
    let path = path_in(alloc, folder, catalog.get(relation).name())?;
    match spot_of(alloc, files, path.as_str(), catalog.get(relation), fault)? {
        Some(spot) => Ok(Some(TableSpot {
            relation,
            path,
            spot,
        })),
        None => Ok(None),
    }
}

// The first table that is at fault so, of the relations that the plans scan, in the catalog's order.
fn first_spot<F: Store>(
    alloc: Global,
    files: &F,
    catalog: &Catalog,
    plans: &[Plan],
    folder: &str,
    fault: LoadFault,
) -> Result<Option<TableSpot>, PlaceFault>
    ensures number { IfOk result (λ o. IfSome o (λ t. t.relation < length catalog.now)) }
    ensures line { IfOk result (λ o. IfSome o (λ t. IfSome t.spot.line (λ line. IfBytes (F.holds files.now (string_bytes t.path)) (λ bytes. IsOnLine bytes (number_of fault) line)))) }
{
    for relation in 0..catalog.len() {
        if any_scans(plans, catalog.get(relation).name()) {
            match table_spot(alloc, files, catalog, relation, folder, fault)? {
                Some(found) => return Ok(Some(found)),
                None => {}
            }
        }
    }
    Ok(None)
}

// The lines of a spot: one, or two where two rows are at fault together.
fn lines_of(alloc: Global, spot: &FaultSpot) -> Result<Vec<u64>, AllocError> {
    let mut lines = Vec::new(alloc);
    if let Some(earlier) = spot.earlier {
        lines.push(earlier)?;
    }
    if let Some(line) = spot.line {
        lines.push(line)?;
    }
    Ok(lines)
}

// Adds the values of a spot, each with the name of its column.
fn add_cells(
    alloc: Global,
    found: &mut Diagnostic,
    relation: &Relation,
    cells: &[CellAt],
) -> Result<(), AllocError> {
    for cell in cells {
        let column = match relation.names().get(cell.column) {
            Some(name) => name.as_str(),
            None => "",
        };
        found.add_cell(Cell {
            column: String::from_str(alloc, column)?,
            value: Vec::from_slice(alloc, cell.value.as_slice())?,
        })?;
    }
    Ok(())
}

// Adds how many fields a row has.
fn add_width(alloc: Global, found: &mut Diagnostic, width: usize) -> Result<(), AllocError> {
    let text = if width == 1 {
        String::from_str(alloc, "1 field")?
    } else {
        format!(in alloc; "{width} fields")?
    };
    found.add_note(Note {
        label: Label::Found,
        text,
    })
}

// Whether a quote that does not close may be the reason: a record has another number of fields than its relation, or a value at fault has
// several lines. For others the text is not read once more.
fn may_be_open(spot: &FaultSpot, fault: LoadFault) -> bool {
    let has_other_width = matches!(
        fault,
        LoadFault::HeaderMismatch | LoadFault::BadWidth { .. }
    );
    has_other_width || spot.cells.iter().any(|cell| cell.value.contains(&b'\n'))
}

// Adds the line on which a quote opens that does not close, if there is one.
fn add_quote<F: Store>(
    alloc: Global,
    files: &F,
    path: &str,
    found: &mut Diagnostic,
) -> Result<(), PlaceFault> {
    let Some(file) = files.open(path) else {
        return Ok(());
    };
    if let Some(line) = open_quote(alloc, file)? {
        let text = format!(in alloc; "the quote that opens on line {line} does not close")?;
        found.add_note(Note {
            label: Label::Reason,
            text,
        })?;
    }
    Ok(())
}

/// What is said of the table at a path, which is at fault here.
pub fn table_diagnostic<F: Store>(
    alloc: Global,
    files: &F,
    relation: &Relation,
    path: &str,
    spot: &FaultSpot,
    fault: LoadFault,
) -> Result<Diagnostic, PlaceFault> {
    let mut found = Diagnostic::in_file(alloc, path)?;
    found.lines = lines_of(alloc, spot)?;
    add_cells(alloc, &mut found, relation, spot.cells.as_slice())?;
    if let Some(width) = spot.width {
        add_width(alloc, &mut found, width)?;
    }
    if may_be_open(spot, fault) {
        add_quote(alloc, files, path, &mut found)?;
    }
    add_expected(alloc, &mut found, relation, fault)?;
    Ok(found)
}

// What is said of a table that is not read, with the reason if the system gives one: the first of those that the plans scan.
fn unread_diagnostic<F: Reasons>(
    alloc: Global,
    files: &F,
    catalog: &Catalog,
    plans: &[Plan],
    folder: &str,
) -> Result<Option<Diagnostic>, PlaceFault> {
    for relation in 0..catalog.len() {
        let name = catalog.get(relation).name();
        if any_scans(plans, name) {
            let path = path_in(alloc, folder, name)?;
            if let Some(reason) = files.reason(path.as_str()) {
                return Ok(Some(file_diagnostic(alloc, path.as_str(), Some(reason))?));
            }
        }
    }
    Ok(None)
}

/// What is said of a file that is not read, with the reason if there is one.
pub fn file_diagnostic(
    alloc: Global,
    path: &str,
    reason: Option<Reason>,
) -> Result<Diagnostic, AllocError> {
    let mut found = Diagnostic::in_file(alloc, shown_name(path))?;
    if let Some(reason) = reason {
        let text = String::from_str(alloc, reason.text())?;
        found.add_note(Note {
            label: Label::Reason,
            text,
        })?;
    }
    Ok(found)
}

/// What is said of a refusal of a load: the first table that is at fault so, of those that the plans at these paths scan. There is
/// nothing where a file is not read again as it was.
pub fn load_diagnostic<F: Store + Reasons>(
    alloc: Global,
    files: &F,
    inputs: &Inputs<'_>,
    fault: LoadFault,
) -> Result<Option<Diagnostic>, PlaceFault> {
    let Some(catalog) = catalog_at(alloc, files, inputs.catalog)? else {
        return Ok(None);
    };
    let Some(plans) = plans_at(alloc, files, inputs.plans)? else {
        return Ok(None);
    };
    let (plans, folder) = (plans.as_slice(), inputs.folder);
    if fault == LoadFault::ReadFailed {
        return unread_diagnostic(alloc, files, &catalog, plans, folder);
    }
    match first_spot(alloc, files, &catalog, plans, folder, fault)? {
        Some(at) => {
            let relation = catalog.get(at.relation);
            let path = at.path.as_str();
            let found = table_diagnostic(alloc, files, relation, path, &at.spot, fault)?;
            Ok(Some(found))
        }
        None => Ok(None),
    }
}
