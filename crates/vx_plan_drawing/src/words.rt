//! Words of a line: names, lists of columns, orders, parts and claims.

ghost use Rattle.std.specs.Prelude.{◌≡◌, ◌++◌, [], map, string_bytes, OnOk, cond, codes, false};
ghost use Rattle.vx_plan_json.specs.Document.{part_form, claim_form};
ghost use Rattle.vx_plan_drawing.specs.Description.{separated, list_text, entry_text, order_text, hash_text, range_text, part_text, keys_text, claim_text};

use std::alloc::AllocError;
use vx_catalog_json::OrderText;
use vx_plan_json::{NamedClaim, NamedPart};

/// Adds the separator, unless nothing was added before.
pub fn push_between(text: &mut String, between: &str, is_later: bool) -> Result<(), AllocError>
    ensures { OnOk result (string_bytes text.new ≡ string_bytes text.old ++ cond is_later between.now []) }
{
    if is_later {
        text.push_str(between)
    } else {
        Ok(())
    }
}

// Adds names.
fn push_names(text: &mut String, names: &[String]) -> Result<(), AllocError>
    ensures { OnOk result (string_bytes text.new ≡ string_bytes text.old ++ separated (codes ",") false (map string_bytes names.now)) }
{
    for (i, name) in names.iter().enumerate() {
        push_between(text, ",", i > 0)?;
        text.push_str(name.as_str())?;
    }
    Ok(())
}

/// Adds names in brackets.
pub fn push_list(text: &mut String, names: &[String]) -> Result<(), AllocError>
    ensures { OnOk result (string_bytes text.new ≡ string_bytes text.old ++ list_text (map string_bytes names.now)) }
{
    text.push_str("[")?;
    push_names(text, names)?;
    text.push_str("]")
}

// Adds a column of an order by its name, and whether it falls.
fn push_entry(text: &mut String, entry: &OrderText) -> Result<(), AllocError>
    ensures { OnOk result (string_bytes text.new ≡ string_bytes text.old ++ entry_text entry.now) }
{
    text.push_str(entry.name.as_str())?;
    if entry.falling {
        text.push_str(" desc")?;
    }
    Ok(())
}

// Adds the columns of an order, and which of them fall.
fn push_entries(text: &mut String, order: &[OrderText]) -> Result<(), AllocError>
    ensures { OnOk result (string_bytes text.new ≡ string_bytes text.old ++ separated (codes ",") false (map entry_text order.now)) }
{
    for (i, entry) in order.iter().enumerate() {
        push_between(text, ",", i > 0)?;
        push_entry(text, entry)?;
    }
    Ok(())
}

/// Adds an order in brackets.
pub fn push_order(text: &mut String, order: &[OrderText]) -> Result<(), AllocError>
    ensures { OnOk result (string_bytes text.new ≡ string_bytes text.old ++ order_text order.now) }
{
    text.push_str("[")?;
    push_entries(text, order)?;
    text.push_str("]")
}

/// Adds a hash route and the columns by which it sends.
pub fn push_hash(text: &mut String, route: &str, columns: &[String]) -> Result<(), AllocError>
    ensures { OnOk result (string_bytes text.new ≡ string_bytes text.old ++ hash_text route.now (map string_bytes columns.now)) }
{
    text.push_str("hash:")?;
    text.push_str(route)?;
    push_list(text, columns)
}

/// Adds a range and the column by which it sends.
pub fn push_range(text: &mut String, range: &str, column: &str) -> Result<(), AllocError>
    ensures { OnOk result (string_bytes text.new ≡ string_bytes text.old ++ range_text range.now column.now) }
{
    text.push_str("range:")?;
    text.push_str(range)?;
    text.push_str("[")?;
    text.push_str(column)?;
    text.push_str("]")
}

// Adds a part.
fn push_part(text: &mut String, part: &NamedPart) -> Result<(), AllocError>
    ensures { OnOk result (string_bytes text.new ≡ string_bytes text.old ++ part_text (part_form part.now)) }
{
    match part {
        NamedPart::One => text.push_str("one"),
        NamedPart::Any => text.push_str("any"),
        NamedPart::All => text.push_str("all"),
        NamedPart::Hash { route, columns } => push_hash(text, route.as_str(), columns.as_slice()),
        NamedPart::Range { range, column } => push_range(text, range.as_str(), column.as_str()),
    }
}

// Adds lists of columns.
fn push_lists(text: &mut String, keys: &[Vec<String>]) -> Result<(), AllocError>
    ensures { OnOk result (string_bytes text.new ≡ string_bytes text.old ++ separated (codes ";") false (map list_text (map (λ k. map string_bytes k.items) keys.now))) }
{
    for (i, key) in keys.iter().enumerate() {
        push_between(text, ";", i > 0)?;
        push_list(text, key.as_slice())?;
    }
    Ok(())
}

// Adds keys, or a dash where there is none.
fn push_keys(text: &mut String, keys: &[Vec<String>]) -> Result<(), AllocError>
    ensures { OnOk result (string_bytes text.new ≡ string_bytes text.old ++ keys_text (map (λ k. map string_bytes k.items) keys.now)) }
{
    if keys.is_empty() {
        text.push_str("-")
    } else {
        push_lists(text, keys)
    }
}

/// Adds a claim.
pub fn push_claim(text: &mut String, claim: &NamedClaim) -> Result<(), AllocError>
    ensures { OnOk result (string_bytes text.new ≡ string_bytes text.old ++ claim_text (claim_form claim.now)) }
{
    text.push_str(" part=")?;
    push_part(text, &claim.part)?;
    text.push_str(" order=")?;
    push_order(text, claim.order.as_slice())?;
    text.push_str(" keys=")?;
    push_keys(text, claim.keys.as_slice())
}
