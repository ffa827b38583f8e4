//! All workers of a plan, one node after the other.

ghost use Rattle.std.specs.Prelude.{◌≡◌, ◌≤◌, ◌+◌, length, IfOk, OnOk};
ghost use Rattle.std.specs.List.{All};
ghost use Rattle.vx_rows_values.specs.Limits.{max_group_workers, max_rows, max_slack};
ghost use Rattle.vx_plan_nodes.specs.Workers.{IsWithin};
ghost use Rattle.vx_exec_layout.specs.Order.{AreInOrder, Follows};
ghost use Rattle.vx_exec_layout.specs.declared.span.NodeSpan.TheVariants.{Scan};
ghost use Rattle.vx_exec_wiring.specs.Making.{counts_in};

use crate::rings::rings_of;
use crate::scans::{deal_hands, give_seats};
use crate::share::Share;
use std::alloc::{AllocError, Global};
use vx_exec_layout::{ExchangeSpan, NodeSpan, ScanSpan};
use vx_exec_threads::DeckPlace;
use vx_morsel_decks::SharedDeck;

/// What was made so far: the workers' shares by their numbers, the decks, and whose they are.
#[derive(Drop)]
pub struct Making {
    pub shares: Vec<Share>,
    pub decks: Vec<SharedDeck>,
    pub places: Vec<DeckPlace>,
}

// The number of morsels of `relation`. `morsels` holds that of each relation; a relation past the last has none.
fn morsels_of(morsels: &[u64], relation: usize) -> u64
    requires { All (λ m. m ≤ max_rows) morsels.now }
    ensures count { result ≡ counts_in morsels.now relation }
    ensures few { result ≤ max_rows }
{
    match morsels.get(relation) {
        Some(morsels) => *morsels,
        None => 0,
    }
}

impl Making {
    ghost use Rattle.vx_exec_wiring.specs.Making.{AddsDeck, AddsProducer, AddsProducers, AddsSpan, AreMade, made_of, root_alone};

    // The worker at the root, with nothing yet.
    fn at_root(alloc: Global) -> Result<Making, AllocError>
        ensures { IfOk result (λ m. made_of m ≡ root_alone) }
    {
        let mut shares = Vec::new(alloc);
        shares.push(Share {
            outs: Vec::new(alloc),
            consumers: 0,
            ins: Vec::new(alloc),
            draws: Vec::new(alloc),
        })?;
        Ok(Making {
            shares,
            decks: Vec::new(alloc),
            places: Vec::new(alloc),
        })
    }

    // Adds a deck for a shared scan, and gives its seats to the scan's workers.
    fn add_deck(&mut self, alloc: Global, scan: ScanSpan, morsels: u64) -> Result<(), AllocError>
        requires there { scan.first + scan.workers ≤ length self.old.shares.items }
        requires few { (1 ≤ scan.workers) × (scan.workers ≤ max_group_workers) }
        requires small { morsels ≤ max_rows }
        ensures { OnOk result (AddsDeck scan morsels (made_of self.old) (made_of self.new)) }
    {
        let made = SharedDeck::new(alloc, morsels, scan.workers)?;
        let (deck, seats) = made;
        let number = self.decks.len();
        give_seats(&mut self.shares, scan, number, seats)?;
        self.decks.push(deck)?;
        self.places.push(DeckPlace {
            scan: scan.number,
            first: scan.first,
            workers: scan.workers,
        })?;
        Ok(())
    }

    // Adds what the workers of a scan draw from.
    fn add_scan(&mut self, alloc: Global, morsels: &[u64], scan: ScanSpan) -> Result<(), AllocError>
        requires follows { Follows (length self.old.shares.items) (Scan scan) }
        requires small { All (λ m. m ≤ max_rows) morsels.now }
        ensures { OnOk result (AddsSpan (counts_in morsels.now) (Scan scan) (made_of self.old) (made_of self.new)) }
    {
        let morsels = morsels_of(morsels, scan.relation);
        if scan.is_shared {
            self.add_deck(alloc, scan, morsels)?;
            return Ok(());
        }
        deal_hands(&mut self.shares, scan, morsels)?;
        Ok(())
    }

    // Adds the producer at a place of an exchange, with a ring to each consumer.
    fn add_producer(
        &mut self,
        alloc: Global,
        exchange: ExchangeSpan,
        from: u32,
        slack: u32,
    ) -> Result<(), AllocError>
        requires there { exchange.above + exchange.consumers ≤ length self.old.shares.items }
        requires slack { IsWithin 1 max_slack slack }
        ensures { OnOk result (AddsProducer exchange from (made_of self.old) (made_of self.new)) }
    {
        let outs = rings_of(alloc, &mut self.shares, exchange, from, slack)?;
        self.shares.push(Share {
            outs,
            consumers: exchange.above,
            ins: Vec::new(alloc),
            draws: Vec::new(alloc),
        })?;
        Ok(())
    }

    // Adds all producers of an exchange, each with a ring to each consumer.
    fn add_producers(
        &mut self,
        alloc: Global,
        exchange: ExchangeSpan,
        slack: u32,
    ) -> Result<(), AllocError>
        requires there { exchange.above + exchange.consumers ≤ length self.old.shares.items }
        requires slack { IsWithin 1 max_slack slack }
        ensures { OnOk result (AddsProducers exchange exchange.producers (made_of self.old) (made_of self.new)) }
    {
        for from in 0..exchange.producers {
            self.add_producer(alloc, exchange, from, slack)?;
        }
        Ok(())
    }

    // Adds what a node needs, by its span.
    fn add_span(
        &mut self,
        alloc: Global,
        morsels: &[u64],
        slack: u32,
        span: NodeSpan,
    ) -> Result<(), AllocError>
        requires follows { Follows (length self.old.shares.items) span }
        requires small { All (λ m. m ≤ max_rows) morsels.now }
        requires slack { IsWithin 1 max_slack slack }
        ensures { OnOk result (AddsSpan (counts_in morsels.now) span (made_of self.old) (made_of self.new)) }
    {
        match span {
            NodeSpan::Inner => return Ok(()),
            NodeSpan::Exchange(exchange) => {
                self.add_producers(alloc, exchange, slack)?;
                return Ok(());
            }
            NodeSpan::Scan(scan) => {
                self.add_scan(alloc, morsels, scan)?;
                return Ok(());
            }
        }
    }

    /// What all nodes of a plan need, by their spans, and all workers of the plan. `morsels` holds the number of morsels of each
    /// relation. A ring has room for `slack` packets.
    pub fn of(
        alloc: Global,
        morsels: &[u64],
        slack: u32,
        spans: &[NodeSpan],
    ) -> Result<Making, AllocError>
        requires ordered { AreInOrder 0 1 spans.now }
        requires small { All (λ m. m ≤ max_rows) morsels.now }
        requires slack { IsWithin 1 max_slack slack }
        ensures { IfOk result (λ m. AreMade (counts_in morsels.now) spans.now (length spans.now) (made_of m)) }
    {
        let mut making = Making::at_root(alloc)?;
        for node in 0..spans.len() {
            making.add_span(alloc, morsels, slack, spans[node])?;
        }
        Ok(making)
    }
}
