//! A catalog that was read once, and what is asked of plans over it.

ghost use Rattle.std.specs.Prelude.{◌≡◌, [], map, IfOk, IfErr, Ok};
ghost use Rattle.vx_catalog_relations.specs.Naming.{catalog_text};
ghost use Rattle.vx_catalog.specs.Csv.{csv_text};
ghost use Rattle.vx_plan_json.specs.PlanView.{document_of};
ghost use Rattle.vx_plan_json.specs.Reading.{document_of_text};
ghost use Rattle.vx_check_directions.specs.Planned.{planned};
ghost use Rattle.vx_plan_nodes.specs.Names.{TypedPlanView};
ghost use Rattle.vx_plan_nodes.specs.Outline.{columns};
ghost use Rattle.vx_plan_nodes.specs.TypedView.{resolved_of};
ghost use Rattle.vx_check_rules.specs.CheckedView.{typed_plan};
ghost use Rattle.volcano_embedding.specs.Planning.{plan_text, IsAccepted, NoCatalog, NoPlan, CheckRefuses};
ghost use Rattle.volcano_embedding.specs.Forms.{text_in_form};
ghost use Rattle.volcano_embedding.specs.Annotated.{Annotates, AnnotateRefuses};
ghost use Rattle.volcano_embedding.specs.Verdict.{IsVerdict};
ghost use Rattle.volcano_embedding.specs.Serial.{IsSerial, SerialRefuses};
ghost use Rattle.volcano_embedding.specs.Texts.{table_form};

use crate::annotating::{Annotated, annotated_plan, asking_if};
use crate::forms::{ExplainForm, explained};
use crate::tables::{TableText, TextTables};
use std::alloc::{AllocError, Global};
use std::marker::Model;
use volcano_refusals::Refusal;
use volcano_tables::load_tables;
use vx_catalog::format_rows;
use vx_catalog_relations::Catalog;
use vx_check_causes::report;
use vx_check_directions::planned;
use vx_check_rules::{CheckFault, CheckedPlan, check};
use vx_plan::erase;
use vx_plan_json::{Plan, PlanFault};
use vx_plan_nodes::{StandardFunctions, TypedPlan, name_texts};
use vx_rows_values::KeySeed;
use vx_rows_views::Rows;
use vx_serial::eval;

/// What the checker says of all nodes of a plan.
#[derive(Drop)]
pub enum Findings {
    /// Each claim follows.
    Accepted { is_total: bool },
    /// A line for each node that fails, a cause before the failures that come of it.
    Failing(String),
}

// The text of rows under the names of a plan's output.
fn text_of(alloc: Global, plan: &TypedPlan, rows: &Rows) -> Result<Vec<u8>, AllocError>
    ensures { IfOk result (λ v. v.items ≡ csv_text (columns (resolved_of plan.now).root).names rows.now.rows) }
{
    let names = name_texts(alloc, plan.root().head().columns.names.as_slice())?;
    format_rows(alloc, names.as_slice(), rows)
}

/// A catalog that was read once, and the text of which it was read.
#[derive(Drop)]
pub struct Session {
    catalog: Catalog,
    text: Vec<u8>,
    ghost reads: { catalog_text text.items ≡ Ok catalog },
}

impl Model for Session {
    ghost use Rattle.std.specs.Prelude.{List};
    ghost use Rattle.vx_catalog_relations.specs.Relation.{Relation};

    ghost Value = { List Relation };

    ghost view = { λ s. s.catalog };
}

impl Session {
    /// A session over the catalog of a JSON text.
    pub fn open(alloc: Global, catalog: &[u8]) -> Result<Session, Refusal>
        ensures catalog { IfOk result (λ s. catalog_text catalog.now ≡ Ok s) }
        ensures refused { IfErr result (NoCatalog catalog.now) }
    {
        let text = Vec::from_slice(alloc, catalog)?;
        let catalog = Catalog::read(alloc, catalog)?;
        Ok(Session { catalog, text })
    }

    /// The catalog.
    pub fn catalog(&self) -> &Catalog
        ensures { result.now ≡ self.now }
    {
        &self.catalog
    }

    /// The text of the catalog.
    pub fn text(&self) -> &[u8]
        ensures { catalog_text result.now ≡ Ok self.now }
    {
        self.text.as_slice()
    }

    // The plan that a JSON text is, as it was written and over the catalog.
    fn read(&self, alloc: Global, text: &[u8]) -> Result<(Plan, TypedPlan), Refusal>
        ensures document { IfOk result (λ r. document_of_text text.now ≡ Ok (document_of r.0)) }
        ensures planned { IfOk result (λ r. planned (document_of r.0) self.now ≡ Ok (resolved_of r.1)) }
        ensures plan { IfOk result (λ r. plan_text self.now text.now ≡ Ok (resolved_of r.1)) }
        ensures refused { IfErr result (NoPlan self.now text.now) }
    {
        let document = Plan::read(alloc, text)?;
        let plan = planned(alloc, &document, self.catalog())?;
        Ok((document, plan))
    }

    // The plan that a JSON text is over the catalog.
    fn plan(&self, alloc: Global, text: &[u8]) -> Result<TypedPlan, Refusal>
        ensures plan { IfOk result (λ p. plan_text self.now text.now ≡ Ok (resolved_of p)) }
        ensures refused { IfErr result (NoPlan self.now text.now) }
    {
        let (_document, plan) = self.read(alloc, text)?;
        Ok(plan)
    }

    // The plan that a JSON text is over the catalog, once the checker has accepted it.
    fn accepted(&self, alloc: Global, text: &[u8]) -> Result<CheckedPlan, Refusal>
        ensures accepted { IfOk result (λ c. IsAccepted self.now text.now (resolved_of (typed_plan c))) }
        ensures refused { IfErr result (CheckRefuses self.now text.now) }
    {
        let plan = self.plan(alloc, text)?;
        match check(alloc, plan) {
            Ok(checked) => Ok(checked),
            Err(CheckFault::Refused(refused)) => Err(Refusal::Check {
                rule: refused.rule,
                node: refused.node,
            }),
            Err(CheckFault::NoMemory(_)) => Err(Refusal::Plan(PlanFault::NoMemory)),
        }
    }

    /// Whether the plan that a JSON text is says that its list is in a total order, once the checker has accepted the plan.
    pub fn check(&self, alloc: Global, text: &[u8]) -> Result<bool, Refusal>
        ensures accepted { IfOk result (λ total. (p : TypedPlanView) × IsAccepted self.now text.now p × (total ≡ p.total)) }
        ensures refused { IfErr result (CheckRefuses self.now text.now) }
    {
        let checked = self.accepted(alloc, text)?;
        Ok(checked.is_total())
    }

    /// What the checker says of all nodes of the plan that a JSON text is. It is no refusal if some of them fail.
    pub fn check_all(&self, alloc: Global, text: &[u8]) -> Result<Findings, Refusal>
        ensures findings { IfOk result (IsVerdict self.now text.now) }
        ensures refused { IfErr result (NoPlan self.now text.now) }
    {
        let (document, plan) = self.read(alloc, text)?;
        match report(alloc, self.catalog(), document, &plan)? {
            None => Ok(Findings::Accepted {
                is_total: plan.is_total(),
            }),
            Some(lines) => Ok(Findings::Failing(lines)),
        }
    }

    /// The text that explains the plan that a JSON text is, in a form, once the checker has accepted the plan.
    pub fn explain(&self, alloc: Global, form: ExplainForm, text: &[u8]) -> Result<Vec<u8>, Refusal>
        ensures text { IfOk result (λ v. (p : TypedPlanView) × IsAccepted self.now text.now p × (v.items ≡ text_in_form form p)) }
        ensures refused { IfErr result (CheckRefuses self.now text.now) }
    {
        let checked = self.accepted(alloc, text)?;
        Ok(explained(alloc, form, &checked)?.into_bytes())
    }

    /// The plan that a JSON text is, with the claims that follow in place of its own. It asks for what is known of its columns where
    /// that is said.
    pub fn annotate(&self, alloc: Global, derive: bool, text: &[u8]) -> Result<Annotated, Refusal>
        ensures text { IfOk result (λ a. Annotates self.now derive text.now a.text.items a.is_total) }
        ensures refused { IfErr result (AnnotateRefuses self.now derive text.now) }
    {
        let plan = Plan::read(alloc, text)?;
        annotated_plan(alloc, self.catalog(), asking_if(alloc, derive, plan))
    }

    /// The text of the rows of a plan without its exchanges over these texts of tables, under the names of the plan. Of two texts
    /// of one table the first counts. The checker is not asked.
    pub fn evaluate(
        &self,
        alloc: Global,
        tables: &[TableText],
        text: &[u8],
    ) -> Result<Vec<u8>, Refusal>
        ensures text { IfOk result (λ v. IsSerial self.now (map table_form tables.now) text.now v.items) }
        ensures refused { IfErr result (SerialRefuses self.now (map table_form tables.now) text.now) }
    {
        let plan = self.plan(alloc, text)?;
        let texts = TextTables { texts: tables };
        let database = load_tables(alloc, KeySeed::fixed(), &plan, &texts)?;
        let Ok(erased) = erase(alloc, &plan) else {
            return Err(Refusal::NoMemory);
        };
        let rows = eval(alloc, &StandardFunctions, &erased, &database)?;
        Ok(text_of(alloc, &plan, &rows)?)
    }
}
