//! What `run --stats=json` wrote, as a list of entries.

ghost use Rattle.std.specs.Prelude.{◌≡◌, map, is_some, string_bytes};
ghost use Rattle.std.specs.List.{list_all};
ghost use Rattle.serde_json.specs.Find.{get};
ghost use Rattle.serde_json.specs.View.{view};
ghost use Rattle.vx_catalog_json.specs.Look.{Finds, Parses};
ghost use Rattle.volcano_drawing.specs.Entries.{entry_of, entries_of, number_at, is_letter, word_at, counted_in, has_numbers, entry_in, entries_in, entries_in_text};

use serde_json::Value as Json;
use std::alloc::Global;
use volcano_bundle::value_of_text;
use vx_catalog_json::{Misread, Reader, get_member, read_list, read_name};

/// What one worker counted at a node, as far as a picture shows it.
#[derive(Clone, Copy)]
pub struct Counted {
    /// The rows that the node's operator returned.
    pub gave: u64,
    /// The packets that the worker received.
    pub taken: u64,
    /// The packets that it sent.
    pub put: u64,
    /// How often it waited for a packet.
    pub waits: u64,
    /// How often it waited for anything else.
    pub full: u64,
}

/// A node in one worker.
#[derive(Drop)]
pub struct Entry {
    /// The node's number.
    pub node: u64,
    /// Its operator in a word.
    pub op: String,
    /// What was counted there.
    pub counted: Counted,
}

// A number among the members of an object.
#[tactic(auto, unfolding(crate::specs::Entries::number_at))]
fn number_at(object: &Json, key: &str) -> Result<u64, Misread>
    ensures { Finds (λ n. n) result (number_at key.now (view object.now)) }
{
    let value = get_member(object, key)?;
    value.as_u64().ok_or(Misread::NotOfForm)
}

// Whether each of these members of an object is a number.
fn has_numbers(object: &Json, keys: &[&str]) -> bool
    ensures { result ≡ has_numbers (map (λ k. k.now) keys.now) (view object.now) }
{
    for key in keys {
        if number_at(object, key).is_err() {
            return false;
        }
    }
    true
}

// Whether a byte is a small letter or a hyphen.
fn is_letter(byte: u8) -> bool
    ensures { result ≡ is_letter byte }
{
    byte.is_ascii_lowercase() || byte == b'-'
}

// Whether a text is made of these.
fn is_word(text: &[u8]) -> bool
    ensures { result ≡ list_all is_letter text.now }
{
    text.iter().all(|byte| is_letter(*byte))
}

// A word among the members of an object.
#[tactic(auto, unfolding(crate::specs::Entries::word_at))]
fn word_at(alloc: Global, object: &Json, key: &str) -> Result<String, Misread>
    ensures { Parses string_bytes result (word_at key.now (view object.now)) }
{
    let name = read_name(alloc, get_member(object, key)?)?;
    if is_word(name.as_bytes()) {
        return Ok(name);
    }
    Err(Misread::NotOfForm)
}

#[tactic(auto, unfolding(crate::specs::Entries::counted_in))]
fn read_counted(object: &Json) -> Result<Counted, Misread>
    ensures { Finds (λ c. c) result (counted_in (view object.now)) }
{
    let gave = number_at(object, "gave")?;
    let taken = number_at(object, "taken")?;
    let put = number_at(object, "put")?;
    let waits = number_at(object, "waits")?;
    let full = number_at(object, "full")?;
    Ok(Counted {
        gave,
        taken,
        put,
        waits,
        full,
    })
}

#[tactic(auto, unfolding(crate::specs::Entries::entry_in))]
fn read_entry(alloc: Global, object: &Json) -> Result<Entry, Misread>
    ensures { Parses entry_of result (entry_in (view object.now)) }
{
    if !has_numbers(object, &["worker", "left", "right", "morsels"]) {
        return Err(Misread::NotOfForm);
    }
    let node = number_at(object, "node")?;
    let op = word_at(alloc, object, "op")?;
    let counted = read_counted(object)?;
    Ok(Entry { node, op, counted })
}

// Reads nodes in workers.
struct EntryReader;

impl Reader for EntryReader {
    ghost use Rattle.volcano_drawing.specs.Entries as entries;

    type Item = Entry;

    ghost Form = { entries.Entry };

    ghost look = { entries.entry_of };

    ghost form = { entries.entry_in };

    fn read(alloc: Global, value: &Json) -> Result<Entry, Misread> {
        read_entry(alloc, value)
    }
}

#[tactic(auto, unfolding(crate::specs::Entries::entries_in))]
fn read_entries(alloc: Global, stats: &Json) -> Result<Vec<Entry>, Misread>
    ensures { Parses (λ v. entries_of v.items) result (entries_in (view stats.now)) }
{
    read_list::<EntryReader>(alloc, get_member(stats, "nodes")?)
}

/// The entries that a text of statistics lists.
pub fn entries_in_text(alloc: Global, text: &[u8]) -> Result<Vec<Entry>, Misread>
    ensures { Parses (λ v. entries_of v.items) result (entries_in_text text.now) }
{
    match value_of_text(alloc, text)? {
        Some(stats) => read_entries(alloc, &stats),
        None => Err(Misread::NotOfForm),
    }
}
