//! What was counted at a node in a run, in the words of a picture.

ghost use Rattle.std.specs.Prelude.{◌≡◌, ◌++◌, string_bytes, decimal, slice_get, OnOk};
ghost use Rattle.vx_check_formats.specs.Totals.{counted, rows_line, packets_line, node_line, exchange_lines};

use itoa::Buffer;
use std::alloc::AllocError;

/// What all workers together counted at a node.
#[derive(Clone, Copy, PartialEq, Eq)]
pub struct NodeTotals {
    /// How many workers ran it.
    pub workers: u64,
    /// The rows that it returned.
    pub rows: u64,
    /// How often a worker waited at it, for a packet or for room to send one.
    pub waits: u64,
    /// The packets that its workers sent, where it is the top of its fragment.
    pub put: u64,
    /// The packets that its workers received, if it is an exchange.
    pub taken: u64,
}

fn push_number(text: &mut String, number: u64) -> Result<(), AllocError>
    ensures { OnOk result (string_bytes text.new ≡ string_bytes text.old ++ decimal number) }
{
    let mut digits = Buffer::new();
    text.push_str(digits.format(number))
}

// Adds a number of things that one word names.
fn push_counted(text: &mut String, number: u64, word: &str) -> Result<(), AllocError>
    ensures { OnOk result (string_bytes text.new ≡ string_bytes text.old ++ counted number word.now) }
{
    push_number(text, number)?;
    text.push_str(word)?;
    if number == 1 {
        return Ok(());
    }
    text.push_str("s")
}

// Adds the rows that a node returned and how often a worker waited there, as a line of a label.
#[tactic(auto, unfolding(crate::specs::Totals::rows_line))]
fn push_rows_line(text: &mut String, counts: &NodeTotals) -> Result<(), AllocError>
    ensures { OnOk result (string_bytes text.new ≡ string_bytes text.old ++ rows_line counts.now) }
{
    text.push_str("\\n")?;
    push_counted(text, counts.rows, " row")?;
    text.push_str(", ")?;
    push_counted(text, counts.waits, " wait")
}

// Adds the packets that were put into an exchange and those that were taken from it, as a line of a label.
#[tactic(auto, unfolding(crate::specs::Totals::packets_line))]
fn push_packets_line(text: &mut String, put: u64, taken: u64) -> Result<(), AllocError>
    ensures { OnOk result (string_bytes text.new ≡ string_bytes text.old ++ packets_line put taken) }
{
    text.push_str("\\n")?;
    push_counted(text, put, " packet")?;
    text.push_str(" put, ")?;
    push_number(text, taken)?;
    text.push_str(" taken")
}

/// What was counted at the node with this number, if it was.
pub fn totals_at(counts: &[NodeTotals], node: u32) -> Option<NodeTotals>
    ensures { result ≡ slice_get counts.now node }
{
    counts.get(node as usize).copied()
}

/// Adds what stands in a node's box, where it was counted.
pub fn push_node_line(text: &mut String, counts: Option<NodeTotals>) -> Result<(), AllocError>
    ensures { OnOk result (string_bytes text.new ≡ string_bytes text.old ++ node_line counts) }
{
    match counts {
        Some(totals) => push_rows_line(text, &totals),
        None => Ok(()),
    }
}

/// Adds what stands at the arrow to an exchange, by what was counted at the node that sends and at the exchange.
pub fn push_exchange_lines(
    text: &mut String,
    from: Option<NodeTotals>,
    to: Option<NodeTotals>,
) -> Result<(), AllocError>
    ensures { OnOk result (string_bytes text.new ≡ string_bytes text.old ++ exchange_lines from to) }
{
    match (from, to) {
        (Some(sender), Some(receiver)) => {
            push_rows_line(text, &receiver)?;
            push_packets_line(text, sender.put, receiver.taken)
        }
        _ => Ok(()),
    }
}
