//! Copies of the inputs' keys in an output.

ghost use Rattle.std.specs.Prelude.{◌≡◌, ℕ, List, ◌∷◌, [], map, option_map, option_to_list, IfOk, OnOk};
ghost use Rattle.std.specs.List.{list_all};
ghost use Rattle.vx_plan_nodes.specs.DescribeView.{copying_of};
ghost use Rattle.vx_check_rules.specs.Behaviour.{has_key, keys_give, keyed_by};
ghost use Rattle.vx_check_rules.specs.KeyedView.{keys_seen, copied_keys, keyed_of, keyed_in, all_keyed_in};
ghost use Rattle.vx_check_rules.specs.Seen.{columns_seen};
ghost use Rattle.vx_check_options.specs.FoundKeys.{show, both_give};
ghost use Rattle.vx_check_shown.specs.ShownKeys.{firsts_of, copies_by, Gathers};

use std::alloc::{AllocError, Global};
use vx_check_options::{Lists, put_choices};
use vx_check_rules::{ColumnsSeen, CopiedKeys, Keyed, KeysSeen, are_covered};
use vx_plan_nodes::Copying;

// The first column of each of the choices.
fn firsts_of(alloc: Global, choices: &[Vec<usize>]) -> Result<Vec<usize>, AllocError>
    ensures { IfOk result (λ v. v.items ≡ firsts_of (map (λ k. k.items) choices.now)) }
{
    let mut firsts = Vec::new(alloc);
    for choice in choices {
        if let Some(first) = choice.first() {
            firsts.push(*first)?;
        }
    }
    Ok(firsts)
}

// The keys of both inputs, and how many columns an output has.
#[derive(Clone, Copy)]
struct Search<'p> {
    first: CopiedKeys<'p>,
    second: CopiedKeys<'p>,
    width: usize,
}

impl Search<'_> {
    // Puts the first copies of all columns of both keys behind the lists that are there, if each column has one.
    fn put_both(
        &self,
        alloc: Global,
        found: &mut Lists,
        key: ColumnsSeen<'_>,
        other: ColumnsSeen<'_>,
    ) -> Result<(), AllocError>
        ensures { OnOk result (Gathers (both_give (copying_of self.now.first.copying) (copying_of self.now.second.copying) (columns_seen key.entry ∷ []) (columns_seen other.entry ∷ []))
            (both_give (copying_of self.now.first.copying) (copying_of self.now.second.copying) (columns_seen key.entry ∷ []) (columns_seen other.entry ∷ []))
            (copies_by (keyed_by (copied_keys self.now.first ∷ copied_keys self.now.second ∷ []) ∷ [])) self.now.width (map (λ k. k.items) found.old.items) (map (λ k. k.items) found.new.items)) }
    {
        let mut choices = Vec::new(alloc);
        put_choices(alloc, &mut choices, self.first.copying, self.width, key)?;
        put_choices(alloc, &mut choices, self.second.copying, self.width, other)?;
        // A choice without columns is within no columns.
        if are_covered(KeysSeen::Listed(choices.as_slice()), ColumnsSeen::First(0)) {
            return Ok(());
        }
        found.push(firsts_of(alloc, choices.as_slice())?)?;
        Ok(())
    }

    // The same for the key and each of the second input's.
    fn put_beside(
        &self,
        alloc: Global,
        found: &mut Lists,
        key: ColumnsSeen<'_>,
    ) -> Result<(), AllocError>
        ensures { OnOk result (Gathers (both_give (copying_of self.now.first.copying) (copying_of self.now.second.copying) (columns_seen key.entry ∷ []) (keys_seen self.now.second.keys))
            (both_give (copying_of self.now.first.copying) (copying_of self.now.second.copying) (columns_seen key.entry ∷ []) (keys_seen self.now.second.keys))
            (copies_by (keyed_by (copied_keys self.now.first ∷ copied_keys self.now.second ∷ []) ∷ [])) self.now.width (map (λ k. k.items) found.old.items) (map (λ k. k.items) found.new.items)) }
    {
        for other in 0..self.second.keys.count() {
            self.put_both(alloc, found, key, self.second.keys.at(other))?;
        }
        Ok(())
    }

    // And for each of the first input's.
    fn put_all(&self, alloc: Global, found: &mut Lists) -> Result<(), AllocError>
        ensures { OnOk result (Gathers (both_give (copying_of self.now.first.copying) (copying_of self.now.second.copying) (keys_seen self.now.first.keys) (keys_seen self.now.second.keys))
            (both_give (copying_of self.now.first.copying) (copying_of self.now.second.copying) (keys_seen self.now.first.keys) (keys_seen self.now.second.keys))
            (copies_by (keyed_by (copied_keys self.now.first ∷ copied_keys self.now.second ∷ []) ∷ [])) self.now.width (map (λ k. k.items) found.old.items) (map (λ k. k.items) found.new.items)) }
    {
        for key in 0..self.first.keys.count() {
            self.put_beside(alloc, found, self.first.keys.at(key))?;
        }
        Ok(())
    }
}

// The keys of the second input. Of one input's keys alone it is the key of no columns, which any columns contain.
fn other_keys<'p>(keyed: Keyed<'p>) -> CopiedKeys<'p>
    ensures gives { (x : List ℕ) → has_key (copied_keys result).0 (copied_keys result).1 x ≡ list_all (λ f. has_key f.0 f.1 x) (option_to_list (option_map copied_keys keyed.entry.second)) }
    ensures copies { (d x : ℕ) → copies_by (keyed_by (copied_keys keyed.entry.first ∷ copied_keys result ∷ []) ∷ []) d x ≡ copies_by (keyed_of keyed.entry ∷ []) d x }
{
    match keyed.second {
        Some(keys) => keys,
        None => CopiedKeys {
            copying: Copying::WholeRows,
            keys: KeysSeen::First(0),
        },
    }
}

// Puts the copies of the keys that `keyed` gives among the first `width` columns.
fn put_keyed(
    alloc: Global,
    found: &mut Lists,
    keyed: Keyed<'_>,
    width: usize,
) -> Result<(), AllocError>
    ensures { OnOk result (Gathers (keys_give (keyed_of keyed.entry)) (keys_give (keyed_of keyed.entry)) (copies_by (keyed_of keyed.entry ∷ [])) width (map (λ k. k.items) found.old.items) (map (λ k. k.items) found.new.items)) }
{
    let search = Search {
        first: keyed.first,
        second: other_keys(keyed),
        width,
    };
    search.put_all(alloc, found)
}

// The same, if they are there.
fn put_some(
    alloc: Global,
    found: &mut Lists,
    keyed: Option<Keyed<'_>>,
    width: usize,
) -> Result<(), AllocError>
    ensures { OnOk result (Gathers (show (keyed_in keyed.entry)) (show (keyed_in keyed.entry)) (copies_by (keyed_in keyed.entry)) width (map (λ k. k.items) found.old.items) (map (λ k. k.items) found.new.items)) }
{
    match keyed {
        Some(keyed) => put_keyed(alloc, found, keyed, width),
        None => Ok(()),
    }
}

/// The keys that these give among the first `width` columns, each by the first copies of its columns.
pub(crate) fn key_copies(
    alloc: Global,
    keyed: &[Option<Keyed<'_>>],
    width: usize,
) -> Result<Lists, AllocError>
    ensures { IfOk result (λ v. Gathers (show (all_keyed_in keyed.now)) (show (all_keyed_in keyed.now)) (copies_by (all_keyed_in keyed.now)) width [] (map (λ k. k.items) v.items)) }
{
    let mut found = Vec::new(alloc);
    for each in keyed {
        put_some(alloc, &mut found, *each, width)?;
    }
    Ok(found)
}
