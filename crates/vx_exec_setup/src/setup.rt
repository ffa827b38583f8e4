//! How a run is set up.

ghost use Rattle.std.specs.Prelude.{◌≡◌, map, not, option_map, is_none, string_bytes, bytes_eq, IfOk};
ghost use Rattle.std.specs.List.{find};
ghost use Rattle.vx_exec_setup.specs.Setup.{entry_of, number_of, workers_named, worker_groups_named, first_missing, first_out_of_range, is_within};
ghost use Rattle.vx_rows_values.specs.Limits.{max_group_workers};

use std::alloc::{AllocError, Global};
use std::marker::Model;
use vx_rows_values::limits::MAX_GROUP_WORKERS;

/// The rows of a packet where none is said.
pub const DEFAULT_PACKET_ROWS: u32 = 256;

/// The rows of a morsel where none is said.
pub const DEFAULT_MORSEL_ROWS: u32 = 1024;

/// The slack in packets where none is said.
pub const DEFAULT_SLACK: u32 = 8;

/// Whether a number is from 1 to another.
pub fn is_within(most: u32, number: u32) -> bool
    ensures { result ≡ is_within most number }
{
    1 <= number && number <= most
}

/// How a run is set up: the workers of size names, the rows of a packet and of a morsel, and by how many packets a
/// producer may run ahead, the slack. Names that the plan does not declare are ignored; of several entries of a name
/// the first counts.
#[derive(Drop)]
pub struct Setup {
    sizes: Vec<(String, u32)>,
    packet: u32,
    morsel: u32,
    slack: u32,
}

impl Model for Setup {
    ghost use Rattle.std.specs.Prelude.{map};
    ghost use Rattle.vx_exec_setup.specs.Setup.{SetupView, entry_of};

    ghost Value = { SetupView };

    ghost view = { λ s. record { sizes = map entry_of s.sizes.items; packet = s.packet; morsel = s.morsel; slack = s.slack } };
}

// The first entry of a name.
fn find_entry<'e>(entries: &'e [(String, u32)], name: &str) -> Option<&'e (String, u32)>
    ensures { option_map (λ e. e.now) result ≡ find (λ e. bytes_eq (string_bytes e.0) name.now) entries.now }
{
    entries.iter().find(|entry| entry.0.as_str() == name)
}

impl Setup {
    /// A setup of its parts. Nothing is tested yet.
    pub fn new(sizes: Vec<(String, u32)>, packet: u32, morsel: u32, slack: u32) -> Setup
        ensures { result ≡ record { sizes = map entry_of sizes.items; packet = packet; morsel = morsel; slack = slack } }
    {
        Setup {
            sizes,
            packet,
            morsel,
            slack,
        }
    }

    /// The size names, with their numbers of workers.
    pub fn sizes(&self) -> &[(String, u32)]
        ensures { map entry_of result.now ≡ self.now.sizes }
    {
        self.sizes.as_slice()
    }

    /// The most rows of a packet.
    pub fn packet(&self) -> u32
        ensures { result ≡ self.now.packet }
    {
        self.packet
    }

    /// The rows of a morsel; the last of a relation may have less.
    pub fn morsel(&self) -> u32
        ensures { result ≡ self.now.morsel }
    {
        self.morsel
    }

    /// By how many packets a producer may run ahead.
    pub fn slack(&self) -> u32
        ensures { result ≡ self.now.slack }
    {
        self.slack
    }

    // The number that the first entry of a name has.
    fn number(&self, name: &str) -> Option<u32>
        ensures { result ≡ number_of self.now.sizes name.now }
    {
        match find_entry(self.sizes.as_slice(), name) {
            Some(entry) => Some(entry.1),
            None => None,
        }
    }

    // The workers of a name, 0 where it has no entry.
    fn workers(&self, name: &str) -> u32
        ensures { result ≡ workers_named self.now.sizes name.now }
    {
        self.number(name).unwrap_or(0)
    }

    fn find_missing<'n>(&self, names: &'n [String]) -> Option<&'n String>
        ensures { option_map (λ n. n.now) result ≡ find (λ n. is_none (number_of self.now.sizes (string_bytes n))) names.now }
    {
        names
            .iter()
            .find(|name| self.number(name.as_str()).is_none())
    }

    /// The first of these names without an entry.
    pub fn first_missing<'n>(&self, names: &'n [String]) -> Option<&'n String>
        ensures { option_map (λ n. string_bytes n.now) result ≡ first_missing self.now.sizes (map string_bytes names.now) }
    {
        self.find_missing(names)
    }

    fn find_out_of_range<'n>(&self, names: &'n [String]) -> Option<&'n String>
        ensures { option_map (λ n. n.now) result ≡ find (λ n. not (is_within max_group_workers (workers_named self.now.sizes (string_bytes n)))) names.now }
    {
        names.iter().find(|name| !is_within(MAX_GROUP_WORKERS, self.workers(name.as_str())))
    }

    /// The first of these names whose number is not 1 to 64.
    pub fn first_out_of_range<'n>(&self, names: &'n [String]) -> Option<&'n String>
        ensures { option_map (λ n. string_bytes n.now) result ≡ first_out_of_range self.now.sizes (map string_bytes names.now) }
    {
        self.find_out_of_range(names)
    }

    /// The workers of each of these names, 0 for a name without an entry.
    pub fn worker_groups(&self, alloc: Global, names: &[String]) -> Result<Vec<u32>, AllocError>
        ensures { IfOk result (λ v. v.items ≡ worker_groups_named self.now.sizes (map string_bytes names.now)) }
    {
        let mut worker_groups = Vec::new(alloc);
        for name in names {
            worker_groups.push(self.workers(name.as_str()))?;
        }
        Ok(worker_groups)
    }
}
