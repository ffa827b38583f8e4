//! How a run is asked for.

ghost use Rattle.std.specs.Prelude.{◌≡◌};

use crate::setup::Setup;
use std::marker::Model;

/// How a plan's workers are run.
#[derive(Clone, Copy, PartialEq, Eq)]
pub enum Mode {
    /// All in turn, in one thread.
    Rounds,
    /// Each in a thread of its own.
    Threads,
}

/// How a run is asked for: its setup, of which nothing is tested yet, and how its workers are run.
#[derive(Drop)]
pub struct Setting {
    setup: Setup,
    mode: Mode,
}

impl Model for Setting {
    ghost use Rattle.vx_exec_setup.specs.Setting.{Setting};

    ghost Value = { Setting };

    ghost view = { λ s. record { setup = s.setup; mode = s.mode } };
}

impl Setting {
    /// Of its parts.
    pub fn new(setup: Setup, mode: Mode) -> Setting
        ensures { result ≡ record { setup = setup; mode = mode } }
    {
        Setting { setup, mode }
    }

    /// The setup.
    pub fn setup(&self) -> &Setup
        ensures { result.now ≡ self.now.setup }
    {
        &self.setup
    }

    /// How workers take turns.
    pub fn mode(&self) -> Mode
        ensures { result ≡ self.now.mode }
    {
        self.mode
    }
}
