//! Names of output columns, which share their texts.

ghost use Rattle.std.specs.Prelude.{◌≡◌, ◌<◌, ◌++◌, map, length, position, bytes_eq, string_bytes, IfOk, OnOk, Some, refl};
ghost use Rattle.std.specs.Arc.{arc_value};
ghost use Rattle.std.specs.Ordering.{nat_cmp};
ghost use Rattle.std.specs.Cmp.{partial_equiv_from_equiv};
ghost use Rattle.std.specs.Cmp.Lexicographic.{slice_cmp, nat_list_eq_equiv, nat_list_cmp_total, texts_ties, texts_po};
ghost use Rattle.vx_catalog_relations.specs.Naming.{name_at};

use crate::halves::{compare_halves, is_text_of};
use std::alloc::{AllocError, Global};
use std::cmp::Ordering;
use std::marker::Model;
use std::sync::Arc;

/// The name of an output column: a prefix, which may be empty, and a name of a list.
///
/// It has no text of its own. The names of a scan share the scan's prefix and the names of its relation, and those of a join share the texts of
/// its inputs' names, so a long name is held once, however many nodes have it.
pub struct Name {
    prefix: Arc<String>,
    names: Arc<Vec<String>>,
    place: usize,
}

impl Drop for Name {
    fn drop(self) {
        let Name {
            prefix: _,
            names: _,
            place: _,
        } = self;
    }
}

impl Model for Name {
    ghost use Rattle.std.specs.Prelude.{◌<◌, ◌++◌, map, length, string_bytes};
    ghost use Rattle.std.specs.Arc.{arc_value};
    ghost use Rattle.vx_rows_values.specs.Values.{Name};
    ghost use Rattle.vx_catalog_relations.specs.Naming.{name_at};

    ghost Value = { Name };

    ghost view = { λ n. string_bytes (arc_value n.prefix) ++ name_at (map string_bytes (arc_value n.names).items) n.place };

    ghost invariant = { λ n. n.place < length (arc_value n.names).items };
}

impl Name {
    // The prefix before the name in this place.
    fn at(prefix: &Arc<String>, names: &Arc<Vec<String>>, place: usize) -> Result<Name, AllocError>
        requires { place < length (arc_value names.now).items }
        ensures { IfOk result (λ n. n ≡ string_bytes (arc_value prefix.now) ++ name_at (map string_bytes (arc_value names.now).items) place) }
    {
        let prefix = Arc::try_clone(prefix)?;
        let names = Arc::try_clone(names)?;
        Ok(Name {
            prefix,
            names,
            place,
        })
    }

    /// A name for each of these, with the prefix before it.
    pub fn with_prefix(
        alloc: Global,
        prefix: &Arc<String>,
        names: &Arc<Vec<String>>,
    ) -> Result<Vec<Name>, AllocError>
        ensures { IfOk result (λ v. v.items ≡ map (λ n. string_bytes (arc_value prefix.now) ++ n) (map string_bytes (arc_value names.now).items)) }
    {
        let mut list = Vec::new(alloc);
        for place in 0..names.len() {
            list.push(Name::at(prefix, names, place)?)?;
        }
        Ok(list)
    }

    /// A name for each of these, without a prefix.
    pub fn without_prefix(alloc: Global, names: Vec<String>) -> Result<Vec<Name>, AllocError>
        ensures { IfOk result (λ v. v.items ≡ map string_bytes names.items) }
    {
        let prefix = Arc::new(alloc, String::new(alloc))?;
        let names = Arc::new(alloc, names)?;
        Name::with_prefix(alloc, &prefix, &names)
    }

    /// The same name, with the same texts. Only 2^63 of them would make it fail.
    pub fn share(&self) -> Result<Name, AllocError>
        ensures { IfOk result (λ n. n ≡ self.now) }
    {
        Name::at(&self.prefix, &self.names, self.place)
    }

    /// The prefix, and the name after it.
    pub fn parts(&self) -> (&str, &str)
        ensures { self.now ≡ result.0.now ++ result.1.now }
    {
        (self.prefix.as_str(), self.names[self.place].as_str())
    }

    /// Whether this is the name.
    pub fn is(&self, text: &str) -> bool
        ensures { result ≡ bytes_eq text.now self.now }
    {
        let (prefix, name) = self.parts();
        is_text_of(text.as_bytes(), prefix.as_bytes(), name.as_bytes())
    }

    /// Writes the name at the end of a text.
    pub fn push_to(&self, text: &mut String) -> Result<(), AllocError>
        ensures { OnOk result (string_bytes text.new ≡ string_bytes text.old ++ self.now) }
    {
        let (prefix, name) = self.parts();
        text.push_str(prefix)?;
        text.push_str(name)
    }

    /// A text of its own with the name.
    pub fn to_text(&self, alloc: Global) -> Result<String, AllocError>
        ensures { IfOk result (λ s. string_bytes s ≡ self.now) }
    {
        let mut text = String::new(alloc);
        self.push_to(&mut text)?;
        Ok(text)
    }
}

impl PartialEq for Name {
    ghost eq = { λ a b. bytes_eq a b };

    ghost laws = { partial_equiv_from_equiv nat_list_eq_equiv };

    fn eq(&self, other: &Name) -> bool {
        self.cmp(other).is_eq()
    }
}

impl Eq for Name {
    ghost laws = { nat_list_eq_equiv };
}

impl PartialOrd for Name {
    ghost partial_cmp = { λ a b. Some (slice_cmp nat_cmp a b) };

    ghost laws = { texts_po };

    fn partial_cmp(&self, other: &Name) -> Option<Ordering> {
        Some(self.cmp(other))
    }
}

impl Ord for Name {
    ghost cmp = { λ a b. slice_cmp nat_cmp a b };

    ghost total = { nat_list_cmp_total };

    ghost matches_partial_cmp = { λ a b. refl };

    ghost matches_eq = { λ a b. texts_ties a b };

    fn cmp(&self, other: &Name) -> Ordering {
        let (prefix, name) = self.parts();
        let (other_prefix, other_name) = other.parts();
        compare_halves(
            prefix.as_bytes(),
            name.as_bytes(),
            other_prefix.as_bytes(),
            other_name.as_bytes(),
        )
    }
}

/// The position of the first of these names that is this text, counted from 0.
pub fn find_output_name(names: &[Name], text: &str) -> Option<usize>
    ensures { result ≡ position (bytes_eq text.now) names.now }
{
    names.iter().position(|name| name.is(text))
}

/// Names that have the texts of these.
pub fn share_names(list: &mut Vec<Name>, names: &[Name]) -> Result<(), AllocError>
    ensures { OnOk result (list.new.items ≡ list.old.items ++ names.now) }
{
    for name in names {
        list.push(name.share()?)?;
    }
    Ok(())
}

/// Texts of their own with these names.
pub fn name_texts(alloc: Global, names: &[Name]) -> Result<Vec<String>, AllocError>
    ensures { IfOk result (λ v. map string_bytes v.items ≡ names.now) }
{
    let mut texts = Vec::new(alloc);
    for name in names {
        texts.push(name.to_text(alloc)?)?;
    }
    Ok(texts)
}
