//! The rows of the relations that plans scan, each relation's read by several threads.

ghost use Rattle.std.specs.Prelude.{◌≡◌, ◌++◌, ◌<◌, length, option_map, IfOk, IfErr, OnOk, List};
ghost use Rattle.vx_rows_values.specs.Values.{Row};
ghost use Rattle.vx_catalog_relations.specs.Catalog.{relation_at};
ghost use Rattle.vx_catalog.specs.Database.{with_rows};
ghost use Rattle.vx_plan_nodes.specs.TypedView.{scope, plan as plan_of_typed};
ghost use Rattle.volcano_tables.specs.Filled.{scans, scanned_below, IsFilledBy, IsFirstMissingOf, IsFilled, IsFirstMissing};

use crate::observer::Observer;
use crate::tables::{Scanning, Tables};
use std::alloc::Global;
use std::thread::Threads;
use volcano_refusals::Refusal;
use vx_catalog::Database;
use vx_catalog_relations::Catalog;
use vx_plan_nodes::TypedPlan;
use vx_rows_values::KeySeed;

/// How databases are filled.
#[derive(Clone, Copy)]
pub struct Loading {
    pub alloc: Global,
    /// How many threads read a table at most.
    pub threads: usize,
    /// Whoever reads the database hashes keys by it.
    pub seed: KeySeed,
}

// Gives a relation of a database its rows.
fn fill_in_threads<P: Threads + Sync, T: Tables>(
    rt: &P,
    loading: Loading,
    database: &mut Database,
    relation: usize,
    tables: &T,
) -> Result<(), Refusal>
    requires { relation < length database.old.catalog }
    ensures filled { OnOk result ((rows : List Row) × T.holds tables.now (relation_at database.old.catalog relation) rows × (database.new ≡ with_rows database.old relation rows)) }
    ensures refused { IfErr result (λ e. T.lacks tables.now (relation_at database.old.catalog relation) e) }
{
    let (alloc, threads) = (loading.alloc, loading.threads);
    let loaded = tables.load_in_threads(rt, alloc, threads, database.catalog(), relation)?;
    database.replace(loaded);
    Ok(())
}

/// A database of the relations of a catalog that are scanned, filled in the catalog's order, each from its tables once. The others
/// stay empty. The observer hears of each behind its load.
pub fn load_scanned_in_threads<P: Threads + Sync, S: Scanning, T: Tables, O: Observer>(
    rt: &P,
    loading: Loading,
    catalog: &Catalog,
    scanning: &S,
    tables: &T,
    observer: &mut O,
) -> Result<Database, Refusal>
    ensures catalog { IfOk result (λ d. d.catalog ≡ catalog.now) }
    ensures filled { IfOk result (λ d. IsFilledBy (S.scanned scanning.now) (T.holds tables.now) d) }
    ensures refused { IfErr result (λ e. IsFirstMissingOf (S.scanned scanning.now) (T.holds tables.now) (T.lacks tables.now) catalog.now e) }
    ensures seen { IfOk result (λ _. O.seen observer.new ≡ option_map (λ rs. rs ++ scanned_below (S.scanned scanning.now) (length catalog.now)) (O.seen observer.old)) }
{
    let empty = Database::empty(loading.alloc, catalog)?;
    let mut database = empty.seeded(loading.seed);
    for relation in 0..catalog.len() {
        if scanning.scans(relation) {
            fill_in_threads(rt, loading, &mut database, relation, tables)?;
            observer.loaded(relation)?;
        }
    }
    Ok(database)
}

/// A database of the relations that a plan scans, filled in the catalog's order. The others stay empty. The observer hears of each
/// behind its load.
pub fn load_tables_in_threads<P: Threads + Sync, T: Tables, O: Observer>(
    rt: &P,
    loading: Loading,
    plan: &TypedPlan,
    tables: &T,
    observer: &mut O,
) -> Result<Database, Refusal>
    ensures catalog { IfOk result (λ d. d.catalog ≡ (scope plan.now).catalog) }
    ensures filled { IfOk result (λ d. IsFilled (plan_of_typed plan.now) (T.holds tables.now) d) }
    ensures refused { IfErr result (λ e. IsFirstMissing (plan_of_typed plan.now) (T.holds tables.now) (T.lacks tables.now) (scope plan.now).catalog e) }
    ensures seen { IfOk result (λ _. O.seen observer.new ≡ option_map (λ rs. rs ++ scanned_below (scans (plan_of_typed plan.now)) (length (scope plan.now).catalog)) (O.seen observer.old)) }
{
    let catalog = plan.catalog();
    load_scanned_in_threads(rt, loading, catalog, plan, tables, observer)
}
