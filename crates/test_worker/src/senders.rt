//! What sending ends send, by the definitions of their kinds.

ghost use Rattle.std.specs.Prelude.{◌≡◌, ◌≤◌, ℕ, [], ◌∷◌, true, IfOk, IfSome, OnSome};
ghost use Rattle.vx_rows_values.specs.declared.value.ColType.TheVariants as kind;
ghost use Rattle.vx_rows.specs.View.{AreColumns};
ghost use Rattle.vx_exchange_ends.specs.Tasks.{post_types};
ghost use Rattle.vx_exchange.specs.Lanes.{serves, columns_of};
ghost use Rattle.vx_exchange.specs.Sender.{sender_is_open, sender_post};

use crate::rows::rows_of;
use std::alloc::{AllocError, Global};
use vx_exchange::{ByteRouter, Deal, KeyRoute, Ranges, Sender};
use vx_exchange_ends::Sends;
use vx_ops::{Fault, Polled};
use vx_plan_nodes::{Router, Size};
use vx_ports::{Body, Packet, StreamEnd};
use vx_rows_values::{Cell, ColType, Value};
use vx_rows_views::Rows;

// What was sent, as text: each packet's numbers behind a label, which has its consumer and its size, as `0/2:0-1`. One label serves all packets
// that follow each other with the same, and `0-4` five numbers that rise by one. Closing packets have a label with their consumers as numbers.
#[derive(Drop)]
struct Sent {
    alloc: Global,
    text: String,
    label: String,
    // the number that came last, and whether it is to be written yet
    last: i64,
    is_open: bool,
}

impl Sent {
    // Nothing was sent.
    fn new(alloc: Global) -> Sent {
        Sent {
            alloc,
            text: String::new(alloc),
            label: String::new(alloc),
            last: 0,
            is_open: false,
        }
    }

    // Writes the last number, if it is not written yet.
    fn close(&mut self) -> Result<(), AllocError> {
        if self.is_open {
            write!(self.text, "-{}", self.last)?;
        }
        self.is_open = false;
        Ok(())
    }

    // Adds a `number` with its `label`.
    fn add(&mut self, label: &str, number: i64) -> Result<(), AllocError> {
        let is_same = self.label.as_str() == label;
        if is_same && self.last.checked_add(1) == Some(number) {
            self.last = number;
            self.is_open = true;
            return Ok(());
        }
        self.close()?;
        if is_same {
            write!(self.text, ",{number}")?;
        } else {
            write!(self.text, " {label}:{number}")?;
            self.label = String::from_str(self.alloc, label)?;
        }
        self.last = number;
        Ok(())
    }

    // Adds the `rows` of a packet to `consumer`.
    fn add_rows(&mut self, consumer: u32, rows: &Rows) -> Result<(), AllocError> {
        let label = format!(in self.alloc; "{consumer}/{}", rows.len())?;
        if rows.types().len() != 1 {
            return self.add("rows of other types", 0);
        }
        for row in 0..rows.len() {
            if let Cell::Int(number) = rows.cell(row, 0) {
                self.add(label.as_str(), number)?;
            }
        }
        Ok(())
    }

    // Adds a `packet` to `consumer`.
    fn add_packet(&mut self, consumer: u32, packet: Packet) -> Result<(), AllocError> {
        match packet.into_body() {
            Body::Rows(rows) => self.add_rows(consumer, &rows),
            Body::End(StreamEnd::Last) => self.add("last", i64::from(consumer)),
            Body::End(StreamEnd::Fault) => self.add("fault", i64::from(consumer)),
        }
    }
}

// The deal by the hash route `h` on the one column.
fn by_hash(alloc: Global) -> Result<Deal, AllocError>
    ensures served { IfOk result (λ d. (n : ℕ) → 1 ≤ n → serves d n ≡ true) }
    ensures columns { IfOk result (λ d. AreColumns 1 (columns_of d)) }
{
    let name = String::from_str(alloc, "h")?;
    let columns = Vec::from_slice(alloc, &[0])?;
    Ok(Deal::Route(Size::One, KeyRoute::Hash(name, columns)))
}

// The deal by the bounds 2, 10, 20 and 30 on the one column: a number goes to the consumer whose place is how many of them are not above it,
// or to the last one where there are fewer.
fn by_range(alloc: Global) -> Result<Deal, AllocError>
    ensures served { IfOk result (λ d. (n : ℕ) → 1 ≤ n → serves d n ≡ true) }
    ensures columns { IfOk result (λ d. AreColumns 1 (columns_of d)) }
{
    let bounds = vec![in alloc;
        Value::Int(2),
        Value::Int(10),
        Value::Int(20),
        Value::Int(30),
    ]?;
    Ok(Deal::Route(Size::One, KeyRoute::Range(0, Ranges::new(bounds), 0)))
}

// The deal of a `kind` to so many `consumers`.
fn deal_of(alloc: Global, kind: &str, consumers: u32) -> Option<Deal>
    requires { 1 ≤ consumers }
    ensures served { IfSome result (λ d. serves d consumers ≡ true) }
    ensures columns { IfSome result (λ d. AreColumns 1 (columns_of d)) }
{
    match kind {
        "round" => Some(Deal::Round(Size::One)),
        "broadcast" => Some(Deal::Broadcast(Size::One)),
        "gather" if consumers == 1 => Some(Deal::Gather),
        "concat" if consumers == 1 => Some(Deal::Concat),
        "hash" => match by_hash(alloc) {
            Ok(deal) => Some(deal),
            Err(_) => None,
        },
        "range" => match by_range(alloc) {
            Ok(deal) => Some(deal),
            Err(_) => None,
        },
        _ => None,
    }
}

// Adds to `sent` what `sender` returns until it has no more.
fn drain(sender: &mut Sender, sent: &mut Sent) -> Result<(), AllocError> {
    for _ in 0..10_000 {
        let Some((consumer, packet)) = sender.next() else {
            break;
        };
        sent.add_packet(consumer, packet)?;
    }
    sent.close()
}

// Makes the step of a `word`: for `next` one packet is asked for, and any other word has the numbers that come.
fn make_step(alloc: Global, sender: &mut Sender, word: &str, sent: &mut Sent) -> Option<()>
    requires open { sender_is_open sender.old ≡ true }
    requires types { post_types (sender_post sender.old) ≡ kind.Int ∷ [] }
    ensures open { OnSome result (sender_is_open sender.new ≡ true) }
    ensures types { post_types (sender_post sender.new) ≡ kind.Int ∷ [] }
{
    if word == "next" {
        let (consumer, packet) = sender.next()?;
        return sent.add_packet(consumer, packet).ok();
    }
    let rows = rows_of(alloc, word)?;
    match sender.accept(&ByteRouter, Polled::Gave(rows)) {
        Ok(()) => Some(()),
        Err(_) => None,
    }
}

// Makes the steps of `words` up to the last, which says how the stream ends: by `end` or by `fault`. Then it asks for all packets.
fn make_steps(alloc: Global, sender: &mut Sender, words: &str, sent: &mut Sent) -> Option<()>
    requires open { sender_is_open sender.old ≡ true }
    requires types { post_types (sender_post sender.old) ≡ kind.Int ∷ [] }
{
    let (steps, ending) = words.rsplit_once(' ').unwrap_or(("", words));
    for word in steps.split_whitespace() {
        make_step(alloc, sender, word, sent)?;
    }
    match ending {
        "end" => sender.accept(&ByteRouter, Polled::End).ok()?,
        "fault" => sender
            .accept(&ByteRouter, Polled::Fault(Fault::Passed))
            .ok()?,
        _ => return None,
    }
    drain(sender, sent).ok()
}

/// What is sent by the sending end of a `kind` at the exchange `exchange`, to so many `consumers`, in packets of up to `size` rows, where
/// `words` come. None where it cannot be read, or memory ran out.
pub fn sent_by(
    alloc: Global,
    kind: &str,
    exchange: u32,
    consumers: u32,
    size: u32,
    words: &str,
) -> Option<String> {
    if consumers < 1 || size < 1 || size > 4096 {
        return None;
    }
    let deal = deal_of(alloc, kind, consumers)?;
    let types = [ColType::Int];
    let made = Sender::new(alloc, exchange, 0, consumers, size as usize, &types, deal);
    let Ok(mut sender) = made else {
        return None;
    };
    let mut sent = Sent::new(alloc);
    make_steps(alloc, &mut sender, words, &mut sent)?;
    Some(sent.text)
}

/// The consumer of each of these `words` among three, by the hash route `h`.
pub fn routed(alloc: Global, words: &str) -> Result<String, AllocError> {
    let mut text = String::new(alloc);
    for word in words.split_whitespace() {
        let key = [Value::Text(String::from_str(alloc, word)?)];
        let consumer = ByteRouter.route("h", &key, 3);
        write!(text, " {consumer}")?;
    }
    Ok(text)
}
