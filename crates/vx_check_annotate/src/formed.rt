//! Claims of the form that a document has.

ghost use Rattle.std.specs.Prelude.{◌≡◌, true, map, string_bytes};
ghost use Rattle.std.specs.List.{list_all};
ghost use Rattle.vx_rows_values.specs.Lists.{is_some_list};
ghost use Rattle.vx_plan_json.specs.Document.{part_form, claim_form};
ghost use Rattle.vx_check_annotate.specs.Unclaimed.{no_claim};
ghost use Rattle.vx_plan_json.specs.Formed.{are_names, are_some_names, is_order_entry, is_order, is_part_form, is_claim_form};

use std::alloc::Global;
use vx_catalog_json::OrderText;
use vx_plan_json::{NamedClaim, NamedPart};

/// A claim in which no name is empty, and no route is without columns.
pub struct FormedClaim {
    claim: NamedClaim,
    ghost formed: { is_claim_form (claim_form claim) ≡ true },
}

impl Drop for FormedClaim {
    fn drop(self) {
        let FormedClaim { claim: _ } = self;
    }
}

fn is_name(name: &String) -> bool
    ensures { result ≡ is_some_list (string_bytes name.now) }
{
    !name.is_empty()
}

fn are_names(names: &[String]) -> bool
    ensures { result ≡ are_names (map string_bytes names.now) }
{
    for name in names {
        if !is_name(name) {
            return false;
        }
    }
    true
}

fn are_keys(keys: &[Vec<String>]) -> bool
    ensures { result ≡ list_all are_names (map (λ k. map string_bytes k.items) keys.now) }
{
    for key in keys {
        if !are_names(key.as_slice()) {
            return false;
        }
    }
    true
}

fn are_some_names(names: &[String]) -> bool
    ensures { result ≡ are_some_names (map string_bytes names.now) }
{
    !names.is_empty() && are_names(names)
}

fn is_order_entry(entry: &OrderText) -> bool
    ensures { result ≡ is_order_entry entry.now }
{
    is_name(&entry.name)
}

fn is_order(order: &[OrderText]) -> bool
    ensures { result ≡ is_order order.now }
{
    for entry in order {
        if !is_order_entry(entry) {
            return false;
        }
    }
    true
}

fn is_part(part: &NamedPart) -> bool
    ensures { result ≡ is_part_form (part_form part.now) }
{
    match part {
        NamedPart::One | NamedPart::Any | NamedPart::All => true,
        NamedPart::Hash { route, columns } => is_name(route) && are_some_names(columns.as_slice()),
        NamedPart::Range { range, column } => is_name(range) && is_name(column),
    }
}

fn is_formed(claim: &NamedClaim) -> bool
    ensures { result ≡ is_claim_form (claim_form claim.now) }
{
    is_part(&claim.part) && is_order(claim.order.as_slice()) && are_keys(claim.keys.as_slice())
}

/// A claim that says nothing.
pub fn no_claim(alloc: Global) -> NamedClaim
    ensures { claim_form result ≡ no_claim }
{
    NamedClaim {
        part: NamedPart::Any,
        order: Vec::new(alloc),
        keys: Vec::new(alloc),
    }
}

impl FormedClaim {
    ghost use Rattle.vx_check_annotate.specs.Claimed.{form_of, kept_form};

    /// The claim, or one that says nothing where no document can say it.
    pub fn new(alloc: Global, claim: NamedClaim) -> FormedClaim
        ensures { form_of result ≡ kept_form (claim_form claim) }
    {
        if is_formed(&claim) {
            return FormedClaim { claim };
        }
        FormedClaim {
            claim: no_claim(alloc),
        }
    }

    /// The claim.
    pub fn into_claim(self) -> NamedClaim
        ensures formed { is_claim_form (claim_form result) ≡ true }
        ensures same { claim_form result ≡ form_of self }
    {
        let FormedClaim { claim } = self;
        claim
    }
}
