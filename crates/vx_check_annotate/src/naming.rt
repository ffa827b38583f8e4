//! Claims with the names of columns in place of their positions.

ghost use Rattle.std.specs.Prelude.{◌≡◌, ◌++◌, map, drop, IfOk};
ghost use Rattle.vx_rows_values.specs.Ranges.{range_form};
ghost use Rattle.vx_plan_nodes.specs.Names.{Names};
ghost use Rattle.vx_plan_nodes.specs.Numbering.{nodes};
ghost use Rattle.vx_plan_nodes.specs.Outline.{claim_of, columns_of, outline_of, plan_of};
ghost use Rattle.vx_plan.specs.ByName.{claim_by_name};
ghost use Rattle.vx_check_annotate.specs.Claimed.{form_of, forms_in, kept_form, claims_in, first_named, later_claims, named_forms, own_forms};

use crate::formed::{FormedClaim, no_claim};
use std::alloc::{AllocError, Global};
use vx_plan::named_claim;
use vx_plan_nodes::{Claim, Columns, TypedNode};
use vx_rows_values::NamedRange;

/// What names the routes of claims.
#[derive(Clone, Copy)]
pub struct Naming<'a> {
    pub ranges: &'a [NamedRange],
}

impl Naming<'_> {
    /// The claim by the names of these columns.
    pub fn named(
        &self,
        alloc: Global,
        columns: &Columns,
        claim: &Claim,
    ) -> Result<FormedClaim, AllocError>
        ensures { (s : Names) → s.ranges ≡ map range_form self.now.ranges.now → IfOk result (λ f. form_of f ≡ kept_form (claim_by_name s (columns_of columns.now).names (claim_of claim.now))) }
    {
        let named = named_claim(alloc, self.ranges, columns.names.as_slice(), claim)?;
        Ok(FormedClaim::new(alloc, named))
    }

    // The last of the claims, which is taken from them, or one that says nothing.
    fn next_named(
        &self,
        alloc: Global,
        columns: &Columns,
        claims: &mut Vec<Claim>,
    ) -> Result<FormedClaim, AllocError>
        ensures first { (s : Names) → s.ranges ≡ map range_form self.now.ranges.now → IfOk result (λ f. form_of f ≡ first_named s (columns_of columns.now).names (claims_in claims.old.items)) }
        ensures later { claims_in claims.new.items ≡ later_claims (claims_in claims.old.items) }
    {
        match claims.pop() {
            Some(claim) => self.named(alloc, columns, &claim),
            None => Ok(FormedClaim::new(alloc, no_claim(alloc))),
        }
    }

    // Puts the claims of a node and of those below it behind the others, in preorder. They are taken from the end.
    fn put_named(
        &self,
        alloc: Global,
        claims: &mut Vec<Claim>,
        node: &TypedNode,
        found: &mut Vec<FormedClaim>,
    ) -> Result<(), AllocError>
        ensures forms { (s : Names) → s.ranges ≡ map range_form self.now.ranges.now → IfOk result (λ u. map form_of found.new.items ≡ map form_of found.old.items ++ named_forms s (claims_in claims.old.items) (outline_of node.now)) }
        ensures later { IfOk result (λ u. claims_in claims.new.items ≡ drop (nodes (plan_of node.now)) (claims_in claims.old.items)) }
    {
        let claim = self.next_named(alloc, &node.head().columns, claims)?;
        found.push(claim)?;
        match node {
            TypedNode::Scan(_, _) => Ok(()),
            TypedNode::Unary(_, _, input) => self.put_named(alloc, claims, input, found),
            TypedNode::Binary(_, _, left, right) => {
                self.put_named(alloc, claims, left, found)?;
                self.put_named(alloc, claims, right, found)
            }
            TypedNode::Exchange(_, _, input) => self.put_named(alloc, claims, input, found),
        }
    }

    /// The claims by the names of the columns of these nodes, both in preorder from the last one on. A node for which
    /// there is none says nothing.
    pub fn named_claims(
        &self,
        alloc: Global,
        claims: Vec<Claim>,
        root: &TypedNode,
    ) -> Result<Vec<FormedClaim>, AllocError>
        ensures { (s : Names) → s.ranges ≡ map range_form self.now.ranges.now → IfOk result (λ v. forms_in v.items ≡ named_forms s (claims_in claims.items) (outline_of root.now)) }
    {
        let mut claims = claims;
        let mut found = Vec::new(alloc);
        self.put_named(alloc, &mut claims, root, &mut found)?;
        found.reverse();
        Ok(found)
    }

    // Puts the claims that a node and those below it have behind the others, in preorder.
    fn put_own(
        &self,
        alloc: Global,
        node: &TypedNode,
        found: &mut Vec<FormedClaim>,
    ) -> Result<(), AllocError>
        ensures { (s : Names) → s.ranges ≡ map range_form self.now.ranges.now → IfOk result (λ u. map form_of found.new.items ≡ map form_of found.old.items ++ own_forms s (outline_of node.now)) }
    {
        let head = node.head();
        let claim = self.named(alloc, &head.columns, &head.claim)?;
        found.push(claim)?;
        match node {
            TypedNode::Scan(_, _) => Ok(()),
            TypedNode::Unary(_, _, input) => self.put_own(alloc, input, found),
            TypedNode::Binary(_, _, left, right) => {
                self.put_own(alloc, left, found)?;
                self.put_own(alloc, right, found)
            }
            TypedNode::Exchange(_, _, input) => self.put_own(alloc, input, found),
        }
    }

    /// The claims that these nodes have, by the names of their columns, in preorder from the last one on.
    pub fn own_claims(
        &self,
        alloc: Global,
        root: &TypedNode,
    ) -> Result<Vec<FormedClaim>, AllocError>
        ensures { (s : Names) → s.ranges ≡ map range_form self.now.ranges.now → IfOk result (λ v. forms_in v.items ≡ own_forms s (outline_of root.now)) }
    {
        let mut found = Vec::new(alloc);
        self.put_own(alloc, root, &mut found)?;
        found.reverse();
        Ok(found)
    }
}
