//! Sending ends of exchanges.

use std::alloc::AllocError;
use vx_ops::Polled;
use vx_plan_nodes::Router;
use vx_ports::Packet;

/// What accepts the rows that the top of a fragment returns: the sending end of an exchange, which returns packets for the consumers, or the root's rows.
pub trait Sends {
    ghost use Rattle.std.specs.Prelude.{◌≡◌, ◌≤◌, ◌+◌, ℕ, Bool, true, false, List, OnOk, OnErr, IfSome, IfNone, Some};
    ghost use Rattle.vx_rows_values.specs.Values.{Val};
    ghost use Rattle.vx_plan_nodes.specs.Routes.{Routing};
    ghost use Rattle.vx_ports.specs.Packets.{PacketView, closes};
    ghost use Rattle.vx_ops.specs.Ledger.{Stream};
    ghost use Rattle.vx_ops.specs.Turn.{heard, GivesRows, with_packet, rows_in};
    ghost use Rattle.vx_ops.specs.declared.fault.StreamState.TheVariants.{Ended, Failed};
    ghost use Rattle.vx_ops.specs.declared.fault.Fault.{Fault};
    ghost use Rattle.vx_exchange_ends.specs.Tasks.{Task, Post, post_types, Finished, Stopped, BeganSending, IsAt};
    ghost use Rattle.vx_exchange_ends.specs.Sending.{RoutesAs, is_open_after};
    ghost use Rattle.vx_exchange_ends.specs.Queued.{consumers_of, IsTakenOut, IsNoMore};
    ghost use Rattle.vx_exchange_ends.specs.Streams.{AreStreams};

    // Invariant `Stands s goes a g`: under routing `goes`, having accepted stream `a`, `s` has returned packets `g j`
    // for each consumer `j`.
    ghost Stands: { Self → Routing → Stream → (ℕ → List PacketView) → Type 0 };

    // What it does with the rows: it sends them, or keeps them.
    ghost task: { Self → Task };

    // What stays of the task while rows come.
    ghost post: { Self → Post };

    // The bounds of its range, none if it is not by range.
    ghost bounds: { Self → List Val };

    // Whether it accepts more: neither the end nor a fault was accepted, and memory has not run out.
    ghost is_open: { Self → Bool };

    // Whether a closing packet was returned.
    ghost has_closed: { Self → Bool };

    // How many rows it has accepted for each consumer and not returned yet: a packet of rows takes some of them out.
    ghost held: { Self → ℕ → ℕ };

    // For how many consumers it has not returned the closing packet yet: each is returned once.
    ghost unclosed: { Self → ℕ };

    /// Accepts what the fragment's top returned. After an `Err` it stands as after a fault.
    fn accept<R: Router>(&mut self, router: &R, polled: Polled) -> Result<(), AllocError>
        requires open { is_open self.old ≡ true }
        requires typed { GivesRows (post_types (post self.old)) polled }
        ensures ok { OnOk result ((goes : Routing) → RoutesAs (post self.old) (bounds self.old) (R.route_of router.now) goes
            → (a : Stream) (g : ℕ → List PacketView) → Stands self.old goes a g → Stands self.new goes (heard a polled) g) }
        ensures err { OnErr result ((goes : Routing) (a : Stream) (g : ℕ → List PacketView) → Stands self.old goes a g
            → (f : Fault) → Stands self.new goes (record { rows = a.rows; over = Failed f }) g) }
        ensures held { (j : ℕ) → held self.new j ≤ held self.old j + rows_in polled }
        ensures unclosed { unclosed self.new ≤ unclosed self.old }
        ensures open { OnOk result (is_open self.new ≡ is_open_after polled) }
        ensures closed { has_closed self.new ≡ has_closed self.old }
        ensures post { post self.new ≡ post self.old }
        ensures bounds { bounds self.new ≡ bounds self.old };

    /// The next packet and its consumer, if there is one now. Last goes to any consumer only after every row of every consumer.
    fn next(&mut self) -> Option<(u32, Packet)>
        ensures some { IfSome result (λ x. (goes : Routing) (a : Stream) (g : ℕ → List PacketView) → Stands self.old goes a g → Stands self.new goes a (with_packet g x.0 (Some x.1))) }
        ensures none { IfNone result ((goes : Routing) (a : Stream) (g : ℕ → List PacketView) → Stands self.old goes a g → Stands self.new goes a g) }
        ensures drained { IfNone result ((goes : Routing) (a : Stream) (g : ℕ → List PacketView) → Stands self.old goes a g → a.over ≡ Ended → Finished goes (task self.new) a.rows g) }
        ensures cut { IfNone result ((goes : Routing) (a : Stream) (g : ℕ → List PacketView) → Stands self.old goes a g → (f : Fault) → a.over ≡ Failed f → Stopped goes (task self.new) a.rows g) }
        ensures takes { IfSome result (λ x. IsTakenOut x.0 x.1 (held self.old) (held self.new) (unclosed self.old) (unclosed self.new)) }
        ensures keeps { IfNone result (IsNoMore (held self.old) (held self.new) (unclosed self.old) (unclosed self.new)) }
        ensures open { is_open self.new ≡ is_open self.old }
        ensures closing { IfSome result (λ x. has_closed self.new ≡ closes x.1.content) }
        ensures closed { IfNone result (has_closed self.new ≡ has_closed self.old) }
        ensures post { post self.new ≡ post self.old }
        ensures bounds { bounds self.new ≡ bounds self.old };

    // While it accepts more, it has not closed.
    ghost open_first: { (s : Self) → is_open s ≡ true → has_closed s ≡ false };

    // Until it closes, what it returned is packets of a prefix of what its rows send.
    ghost begun: { (s : Self) (goes : Routing) (a : Stream) (g : ℕ → List PacketView) → Stands s goes a g → has_closed s ≡ false → BeganSending goes (task s) a.rows g };

    // The task is that of the post.
    ghost at_post: { (s : Self) → IsAt (post s) (task s) };

    // It holds rows for its consumers only.
    ghost held_for: { (s : Self) (j : ℕ) → consumers_of (post s) ≤ j → held s j ≡ 0 };

    // Each consumer is closed once at most.
    ghost few_closings: { (s : Self) → unclosed s ≤ consumers_of (post s) };

    // What it returned for each consumer is a stream, also after it has closed some, and nothing went to anyone else.
    ghost streams: { (s : Self) (goes : Routing) (a : Stream) (g : ℕ → List PacketView) → Stands s goes a g → AreStreams (consumers_of (post s)) g };
}
