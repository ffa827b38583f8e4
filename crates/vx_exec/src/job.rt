//! What a run works on.

ghost use Rattle.std.specs.Prelude.{◌≡◌, ◌≤◌, ◌<◌, ℕ, length, slice_index_or, IfOk};
ghost use Rattle.std.specs.List.{All};
ghost use Rattle.vx_catalog.specs.Database.{rows_at, MeetsAll};
ghost use Rattle.vx_plan_nodes.specs.Numbering.{relation_in};
ghost use Rattle.vx_plan_nodes.specs.Outline.{size_of};
ghost use Rattle.vx_plan_nodes.specs.Streams.{workers};
ghost use Rattle.vx_plan_nodes.specs.TypedView.{scope, plan as whole_plan};
ghost use Rattle.vx_check_rules.specs.Checked.{relations};
ghost use Rattle.vx_worker.specs.Morsels.{morsel_of, morsel_count};
ghost use Rattle.vx_plan_nodes.specs.Workers.{crew_size, IsWithin, worker_group_at};
ghost use Rattle.vx_exec_layout.specs.Layout.{spans_of};
ghost use Rattle.vx_exec_runs.specs.Sizes.{AreWithin};
ghost use Rattle.vx_rows_values.specs.Limits.{max_group_workers, max_packet_rows, max_rows, max_slack, max_workers};

use std::alloc::{AllocError, Global};
use vx_catalog::Database;
use vx_catalog_relations::Catalog;
use vx_exec_layout::{Layout, NodeSpan};
use vx_plan_nodes::{Size, TypedPlan};
use vx_rows_values::{ColType, KeySeed};
use vx_rows_views::Rows;
use vx_worker::Morsels;

/// A plan with a database of its catalog, the functions by which it computes, and the sizes of a run, each within its limits.
#[derive(Drop)]
pub struct Job<'j, F> {
    alloc: Global,
    functions: F,
    plan: &'j TypedPlan,
    layout: Layout,
    database: &'j Database,
    packet: usize,
    morsel: usize,
    // The packets by which a producer may run ahead, where workers are threads.
    slack: u32,
    ghost laid_out: { layout.spans.items ≡ spans_of (worker_group_at layout.worker_groups.items) (whole_plan plan.now) 0 1 },
    ghost same_catalog: { database.now.catalog ≡ (scope plan.now).catalog },
    ghost named: { length layout.worker_groups.items ≡ (scope plan.now).sizes },
    ghost within: { AreWithin (record { worker_groups = layout.worker_groups.items; packet = packet; morsel = morsel }) },
    ghost room: { IsWithin 1 max_slack slack },
    ghost crew: { layout.workers ≡ crew_size (worker_group_at layout.worker_groups.items) (whole_plan plan.now) },
    ghost few_workers: { crew_size (worker_group_at layout.worker_groups.items) (whole_plan plan.now) ≤ max_workers },
}

impl<'j, F: Copy> Job<'j, F> {
    ghost use Rattle.vx_exec.specs.Job.{sizes_of};

    /// A plan over a database, under these functions, with sizes within their limits.
    pub(crate) fn new(
        alloc: Global,
        functions: F,
        plan: &'j TypedPlan,
        layout: Layout,
        database: &'j Database,
        packet: usize,
        morsel: usize,
        slack: u32,
    ) -> Job<'j, F>
        requires laid_out { layout.spans.items ≡ spans_of (worker_group_at layout.worker_groups.items) (whole_plan plan.now) 0 1 }
        requires catalog { database.now.catalog ≡ (scope plan.now).catalog }
        requires named { length layout.worker_groups.items ≡ (scope plan.now).sizes }
        requires within { AreWithin (record { worker_groups = layout.worker_groups.items; packet = packet; morsel = morsel }) }
        requires room { IsWithin 1 max_slack slack }
        requires crew { layout.workers ≡ crew_size (worker_group_at layout.worker_groups.items) (whole_plan plan.now) }
        requires few { crew_size (worker_group_at layout.worker_groups.items) (whole_plan plan.now) ≤ max_workers }
        ensures functions { result.functions ≡ functions }
        ensures plan { result.plan.now ≡ plan.now }
        ensures database { result.database.now ≡ database.now }
        ensures sizes { sizes_of result ≡ record { worker_groups = layout.worker_groups.items; packet = packet; morsel = morsel } }
    {
        Job {
            alloc,
            functions,
            plan,
            layout,
            database,
            packet,
            morsel,
            slack,
        }
    }

    /// How many workers a size has.
    pub fn workers(&self, size: Size) -> u32
        ensures value { result ≡ workers (worker_group_at self.now.layout.worker_groups.items) (size_of size) }
        ensures some { 1 ≤ result }
        ensures few { result ≤ max_group_workers }
    {
        self.layout.workers_of(size)
    }

    /// The functions by which the plan computes.
    pub fn functions(&self) -> F
        ensures { result ≡ self.now.functions }
    {
        self.functions
    }

    /// The plan.
    pub fn plan(&self) -> &TypedPlan
        ensures same { result.now ≡ self.now.plan.now }
    {
        self.plan
    }

    /// The rows of each relation meet all that the catalog declares of it. It does nothing: a caller who needs the
    /// fact calls it.
    pub fn meets(&self)
        ensures { MeetsAll self.now.database.now }
    {
        let _catalog = self.database.catalog();
    }

    /// Which workers the nodes of the plan have.
    pub fn layout(&self) -> &Layout
        ensures value { result.now ≡ self.now.layout }
        ensures spans { result.now.spans.items ≡ spans_of (worker_group_at self.now.layout.worker_groups.items) (whole_plan self.now.plan.now) 0 1 }
    {
        &self.layout
    }

    /// How many workers the plan has.
    pub(crate) fn crew_size(&self) -> u32
        ensures { result ≡ crew_size (worker_group_at self.now.layout.worker_groups.items) (whole_plan self.now.plan.now) }
    {
        self.layout.workers()
    }

    /// The packets by which a producer may run ahead of a consumer, where workers are threads.
    pub fn slack(&self) -> u32
        ensures some { 1 ≤ result }
        ensures few { result ≤ max_slack }
    {
        self.slack
    }

    /// The seed by which the operators hash keys: the database's.
    pub fn seed(&self) -> KeySeed {
        self.database.seed()
    }

    /// The rows of a packet.
    pub fn packet(&self) -> usize
        ensures value { result ≡ self.now.packet }
        ensures some { 1 ≤ result }
        ensures few { result ≤ max_packet_rows }
    {
        self.packet
    }

    /// How many morsels a relation has. One past the last has none.
    pub fn morsel_count(&self, relation: usize) -> u64
        ensures value { result ≡ morsel_count self.now.morsel (length (rows_at self.now.database.now relation)) }
        ensures few { result ≤ max_rows }
    {
        if relation >= self.database.catalog().len() {
            return 0;
        }
        let rows = self.database.rows(relation).len();
        ((rows + (self.morsel - 1)) / self.morsel) as u64
    }

    /// How many morsels each relation of the catalog has, by its number.
    pub fn morsel_counts(&self, alloc: Global) -> Result<Vec<u64>, AllocError>
        ensures counts { IfOk result (λ v. (r : ℕ) → slice_index_or v.items r 0 ≡ morsel_count self.now.morsel (length (rows_at self.now.database.now r))) }
        ensures few { IfOk result (λ v. All (λ n. n ≤ max_rows) v.items) }
    {
        let relations = self.database.catalog().len();
        let mut counts = Vec::with_capacity(alloc, relations)?;
        for relation in 0..relations {
            counts.push(self.morsel_count(relation))?;
        }
        Ok(counts)
    }

    // A morsel of a relation: the rows from the morsel's first on, as many as there are. They are lent: none is copied.
    fn lend_morsel(&self, relation: usize, number: u64) -> Result<Rows, AllocError>
        requires { relation < length (scope self.now.plan.now).catalog }
        ensures rows { IfOk result (λ r. r.rows ≡ morsel_of self.now.morsel (rows_at self.now.database.now relation) number) }
        ensures types { IfOk result (λ r. r.types ≡ (relations self.now.plan.now relation).types) }
    {
        let rows = self.database.rows(relation);
        let count = rows.len();
        let from = (number as usize).saturating_mul(self.morsel).min(count);
        let to = from + self.morsel.min(count - from);
        rows.slice(self.alloc, from, to)
    }
}

impl<F: Copy> Morsels for Job<'_, F> {
    ghost use Rattle.vx_exec.specs.Job.{types_at};

    ghost morsel_of = { λ j n k. morsel_of j.morsel (rows_at j.database.now (relation_in (whole_plan j.plan.now) n)) k };

    ghost types_of = { types_at };

    /// A morsel, lent. Only scans read morsels: a number of another leaf gets none.
    fn morsel(&self, scan: u32, number: u64) -> Result<Rows, AllocError> {
        match self.layout.spans().get(scan as usize) {
            Some(NodeSpan::Scan(span)) => self.lend_morsel(span.relation, number),
            _ => Err(AllocError),
        }
    }
}
