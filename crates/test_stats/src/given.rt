//! The times that a case gives.

use anyhow::{Context, Error, bail};
use std::alloc::Global;
use std::str::SplitWhitespace;
use volcano_stats::{LoadTime, PhaseTime, StatsForm, WorkPhase};

/// The form of this name.
pub fn form_named(name: &str) -> Result<StatsForm, Error> {
    match name {
        "table" => Ok(StatsForm::Table),
        "json" => Ok(StatsForm::Json),
        _ => bail!("no form has the name {name}"),
    }
}

/// A number, which is not known where `-` stands for it.
pub fn number_in(word: &str) -> Result<Option<u64>, Error> {
    if word == "-" {
        return Ok(None);
    }
    Ok(Some(word.parse::<u64>()?))
}

// The phase of this name.
fn phase_named(name: &str) -> Option<WorkPhase> {
    match name {
        "read" => Some(WorkPhase::Read),
        "plan" => Some(WorkPhase::Plan),
        "check" => Some(WorkPhase::Check),
        "load" => Some(WorkPhase::Load),
        "run" => Some(WorkPhase::Run),
        _ => None,
    }
}

/// The times that a case gives.
#[derive(Drop)]
pub struct Given {
    /// The phases but the write, in order.
    pub phases: Vec<PhaseTime>,
    /// The loads of relations.
    pub loads: Vec<LoadTime>,
    /// How long the write takes.
    pub write: Option<u64>,
}

impl Given {
    // Adds the time of a phase, or of the load of a relation.
    fn add(&mut self, name: &str, microseconds: Option<u64>) -> Result<(), Error> {
        if let Ok(relation) = name.parse::<usize>() {
            self.loads.push(LoadTime {
                relation,
                microseconds,
            })?;
        } else if name == "write" {
            self.write = microseconds;
        } else {
            let phase = phase_named(name).context("no phase has the name")?;
            self.phases.push(PhaseTime {
                phase,
                microseconds,
            })?;
        }
        Ok(())
    }

    /// The times of these words.
    pub fn read(alloc: Global, words: SplitWhitespace<'_>) -> Result<Given, Error> {
        let mut given = Given {
            phases: Vec::new(alloc),
            loads: Vec::new(alloc),
            write: None,
        };
        for word in words {
            let (name, time) = word.split_once('=').unwrap_or((word, "-"));
            given.add(name, number_in(time)?)?;
        }
        Ok(given)
    }
}
