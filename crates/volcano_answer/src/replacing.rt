//! Answers that replace a file once they are whole.

ghost use Rattle.std.specs.Prelude.{◌≡◌, ◌≢◌, ◌⊎◌, [], List, ℕ, false, map};
ghost use Rattle.std.specs.Io.KnownBytes.{Appends};
ghost use Rattle.vx_catalog_bytes.specs.Stored.{IfBytes};
ghost use Rattle.volcano_answer.specs.CommandLine.{AnswersArguments, IsUsageError, AreRefusedBy, AsksForFailing};

use crate::pipe::Pipe;
use crate::program::{answer, refuse_in_place};
use crate::services::Services;
use std::sync::Wait;
use std::thread::Threads;
use std::time::Clock;
use volcano_locations::{Reasons, Replay};
use volcano_refusals::Refusal;
use vx_catalog_bytes::{Broken, ByteIn, ByteOut, Store};
use vx_exec_runs::Runs;

/// A place where files are replaced by new ones, each only once it is whole.
pub trait Replacing {
    ghost use Rattle.std.specs.Prelude.{◌≡◌, ℕ, List, false, IfOk, OnOk, OnErr};
    ghost use Rattle.vx_catalog_bytes.specs.Stored.{Stored};
    ghost use Rattle.volcano_answer.specs.Replacing.{IsNew, IsPut};

    /// A new file, which stands beside the one that it is to replace.
    type Part: ByteOut + Pipe + Drop;

    // What is known of the file at this path.
    ghost holds: { Self → List ℕ → Stored };

    /// A new file for the place at this path, with nothing in it.
    fn begin(&mut self, path: &str) -> Result<Self::Part, Broken>
        ensures empty { IfOk result (λ part. IsNew (holds self.old path.now) (Self.Part.contents part)) }
        ensures whole { IfOk result (λ part. Self.Part.has_failed part ≡ false) }
        ensures kept { holds self.new ≡ holds self.old };

    /// Puts the file in its place. If that fails, the place stays as it was, and the file is removed.
    fn finish(&mut self, path: &str, part: Self::Part) -> Result<(), Broken>
        ensures put { OnOk result (IsPut (holds self.old path.now) (holds self.new path.now) (Self.Part.contents part)) }
        ensures kept { OnErr result (holds self.new ≡ holds self.old) };

    /// Removes the file. The place stays as it was.
    fn discard(&mut self, part: Self::Part)
        ensures kept { holds self.new ≡ holds self.old };
}

/// Answers what arguments ask for, as `answer` does, into the file at a path. It is written beside that place, and put there once it is
/// whole: with any status but 0 the file that stood there still stands.
#[tactic(auto, using(crate::proofs::ReplacingFacts::put_is))]
pub fn answer_into<
    T: Threads + Wait + Sync,
    R: Runs,
    C: Clock,
    F: Store + Reasons,
    I: ByteIn + Replay,
    P: Replacing,
    E: ByteOut,
>(
    services: &Services<'_, T, R, C>,
    arguments: &[&str],
    files: &F,
    input: &mut I,
    place: &mut P,
    path: &str,
    err: &mut E,
) -> u8
    ensures done { arguments.now ≢ [] → result ≡ 0 → (text : List ℕ) × AnswersArguments services.now.columns (F.holds files.now) (I.remaining input.old) (map (λ a. a.now) arguments.now) text × IfBytes (P.holds place.new path.now) (λ bytes. bytes ≡ text) }
    ensures statuses { arguments.now ≢ [] → (result ≡ 0) ⊎ (result ≡ 2) ⊎ (result ≡ 3) ⊎ (result ≡ 4) }

    // Status 2 comes only for wrong arguments, and status 3 only for what they ask for, refused, as of `answer`.
    ensures usage { arguments.now ≢ [] → result ≡ 2 → IsUsageError (F.holds files.now) (I.remaining input.old) (map (λ a. a.now) arguments.now) }
    ensures refused { arguments.now ≢ [] → result ≡ 3 → AreRefusedBy 3 (F.holds files.now) (F.is_reliable files.now) (I.remaining input.old) (I.has_failed input.new) (map (λ a. a.now) arguments.now)
        ⊎ ((lines : List ℕ) × AsksForFailing (F.holds files.now) (I.remaining input.old) (map (λ a. a.now) arguments.now) lines × (E.has_failed err.new ≡ false → Appends (E.contents err.old) (E.contents err.new) lines)) }
    ensures kept { result ≢ 0 → P.holds place.new ≡ P.holds place.old }
{
    let Ok(mut part) = place.begin(path) else {
        return refuse_in_place(
            services,
            arguments,
            files,
            input,
            &Refusal::WriteFailed,
            err,
        );
    };
    match answer(services, arguments, files, input, &mut part, err) {
        0 => match place.finish(path, part) {
            Ok(()) => 0,
            Err(_) => {
                refuse_in_place(
                    services,
                    arguments,
                    files,
                    input,
                    &Refusal::WriteFailed,
                    err,
                )
            }
        },
        failed => {
            place.discard(part);
            failed
        }
    }
}
