//! The rows of the relations that a plan scans.

ghost use Rattle.std.specs.Prelude.{◌≡◌, ◌<◌, length, IfOk, IfErr, OnOk, List};
ghost use Rattle.vx_rows_values.specs.Values.{Row};
ghost use Rattle.vx_catalog_relations.specs.Catalog.{relation_at};
ghost use Rattle.vx_catalog.specs.Database.{with_rows};
ghost use Rattle.vx_plan_nodes.specs.Outline.{plan_of};
ghost use Rattle.vx_plan_nodes.specs.TypedView.{scope, plan as plan_of_typed};
ghost use Rattle.volcano_tables.specs.Filled.{scans, IsFilledBy, IsFirstMissingOf, IsFilled, IsFirstMissing};

use std::alloc::Global;
use std::thread::Threads;
use volcano_refusals::Refusal;
use vx_catalog::{Database, Loaded};
use vx_catalog_relations::Catalog;
use vx_plan_nodes::{TypedNode, TypedPlan};
use vx_rows_values::KeySeed;

/// What has the rows of relations: the texts of a bundle, or the files of a folder.
pub trait Tables {
    ghost use Rattle.std.specs.Thread.{IsSync};
    ghost use Rattle.std.specs.Prelude.{◌≡◌, ◌<◌, List, length, IfOk, IfErr};
    ghost use Rattle.vx_rows_values.specs.Values.{Row};
    ghost use Rattle.vx_catalog_relations.specs.Relation.{Relation};
    ghost use Rattle.vx_catalog_relations.specs.Catalog.{relation_at};
    ghost use Rattle.volcano_refusals.specs.declared.refusal.Refusal.{Refusal};

    // That these are the rows of a relation.
    ghost holds: { Self → Relation → List Row → Type 0 };

    // That this is why there are no rows of a relation.
    ghost lacks: { Self → Relation → Refusal → Type 0 };

    /// The rows of the relation with this number in its catalog.
    fn load(&self, alloc: Global, catalog: &Catalog, relation: usize) -> Result<Loaded, Refusal>
        requires { relation < length catalog.now }
        ensures rows { IfOk result (λ l. holds self.now (relation_at catalog.now relation) l.rows) }
        ensures catalog { IfOk result (λ l. l.catalog ≡ catalog.now) }
        ensures relation { IfOk result (λ l. l.relation ≡ relation) }
        ensures refused { IfErr result (λ e. lacks self.now (relation_at catalog.now relation) e) };

    /// The same rows, read by up to `_threads` threads. The default reads them in one thread.
    fn load_in_threads<P: Threads + Sync>(
        &self,
        _rt: &P,
        alloc: Global,
        _threads: usize,
        catalog: &Catalog,
        relation: usize,
    ) -> Result<Loaded, Refusal>
        // That the handle may be shared: its bound says it to callers, and not to the methods of an `impl`.
        requires shared { IsSync P.row }
        requires there { relation < length catalog.now }
        ensures rows { IfOk result (λ l. holds self.now (relation_at catalog.now relation) l.rows) }
        ensures catalog { IfOk result (λ l. l.catalog ≡ catalog.now) }
        ensures relation { IfOk result (λ l. l.relation ≡ relation) }
        ensures refused { IfErr result (λ e. lacks self.now (relation_at catalog.now relation) e) }
    {
        self.load(alloc, catalog, relation)
    }
}

// Gives a relation of a database its rows.
fn fill<T: Tables>(
    alloc: Global,
    database: &mut Database,
    relation: usize,
    tables: &T,
) -> Result<(), Refusal>
    requires { relation < length database.old.catalog }
    ensures filled { OnOk result ((rows : List Row) × T.holds tables.now (relation_at database.old.catalog relation) rows × (database.new ≡ with_rows database.old relation rows)) }
    ensures refused { IfErr result (λ e. T.lacks tables.now (relation_at database.old.catalog relation) e) }
{
    let loaded = tables.load(alloc, database.catalog(), relation)?;
    database.replace(loaded);
    Ok(())
}

// Whether a node or one below it scans the relation with this number.
fn scans(node: &TypedNode, relation: usize) -> bool
    ensures { result ≡ scans (plan_of node.now) relation }
{
    match node {
        TypedNode::Scan(_, scan) => scan.relation == relation,
        TypedNode::Unary(_, _, input) => scans(input, relation),
        TypedNode::Binary(_, _, left, right) => scans(left, relation) || scans(right, relation),
        TypedNode::Exchange(_, _, input) => scans(input, relation),
    }
}

/// What says which relations of a catalog it scans: a plan, or several.
pub trait Scanning {
    ghost use Rattle.std.specs.Prelude.{◌≡◌, ℕ, Bool};

    // Whether it scans the relation with this number.
    ghost scanned: { Self → ℕ → Bool };

    /// Whether it scans the relation with this number in its catalog.
    fn scans(&self, relation: usize) -> bool
        ensures { result ≡ scanned self.now relation };
}

impl Scanning for TypedPlan {
    ghost use Rattle.vx_plan_nodes.specs.TypedView.{plan};
    ghost use Rattle.volcano_tables.specs.Filled.{scans};

    ghost scanned = { λ p. scans (plan p) };

    fn scans(&self, relation: usize) -> bool {
        scans(self.root(), relation)
    }
}

// A database of the relations of a catalog that are scanned, filled in the catalog's order, each from its tables once. The others
// stay empty. Whoever reads it hashes keys by the seed.
fn load_scanned<S: Scanning, T: Tables>(
    alloc: Global,
    seed: KeySeed,
    catalog: &Catalog,
    scanning: &S,
    tables: &T,
) -> Result<Database, Refusal>
    ensures catalog { IfOk result (λ d. d.catalog ≡ catalog.now) }
    ensures filled { IfOk result (λ d. IsFilledBy (S.scanned scanning.now) (T.holds tables.now) d) }
    ensures refused { IfErr result (λ e. IsFirstMissingOf (S.scanned scanning.now) (T.holds tables.now) (T.lacks tables.now) catalog.now e) }
{
    let empty = Database::empty(alloc, catalog)?;
    let mut database = empty.seeded(seed);
    for relation in 0..catalog.len() {
        if scanning.scans(relation) {
            fill(alloc, &mut database, relation, tables)?;
        }
    }
    Ok(database)
}

/// A database of the relations that a plan scans, filled in the catalog's order by one thread. The others stay empty. Whoever
/// reads it hashes keys by the seed.
pub fn load_tables<T: Tables>(
    alloc: Global,
    seed: KeySeed,
    plan: &TypedPlan,
    tables: &T,
) -> Result<Database, Refusal>
    ensures catalog { IfOk result (λ d. d.catalog ≡ (scope plan.now).catalog) }
    ensures filled { IfOk result (λ d. IsFilled (plan_of_typed plan.now) (T.holds tables.now) d) }
    ensures refused { IfErr result (λ e. IsFirstMissing (plan_of_typed plan.now) (T.holds tables.now) (T.lacks tables.now) (scope plan.now).catalog e) }
{
    load_scanned(alloc, seed, plan.catalog(), plan, tables)
}
