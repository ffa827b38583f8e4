//! How arguments set a run up.

ghost use Rattle.std.specs.Prelude.{◌≡◌, map, MatchOption, MatchResult, IfOk};
ghost use Rattle.volcano_arguments.specs.Asked.{given_is};
ghost use Rattle.vx_exec_setup.specs.Setup.{entry_of};
ghost use Rattle.volcano_answer.specs.Arguments.{Numbers, mode_named, IsSize, IsNoSize, AreSizes, IsFirstNoSize, IsSetting, IsWrongPart};

use crate::usage::WrongPart;
use std::alloc::{AllocError, Global};
use volcano_arguments::RunArguments;
use vx_exec_setup::{Mode, Setting, Setup};

// The number of 32 bits that a text is.
fn number_in(text: &str) -> Option<u32>
    ensures { Numbers text.now result }
{
    text.parse::<u32>().ok()
}

// The mode of a name, if it is one.
fn mode_named(text: &str) -> Option<Mode>
    ensures { result ≡ mode_named text.now }
{
    match text {
        "rounds" => Some(Mode::Rounds),
        "threads" => Some(Mode::Threads),
        _ => None,
    }
}

// The name and the number of an argument NAME=N.
fn size_in(alloc: Global, argument: &str) -> Result<Option<(String, u32)>, AllocError>
    ensures { IfOk result (λ o. MatchOption o (IsNoSize argument.now) (λ z. IsSize argument.now (entry_of z))) }
{
    let Some((name, number)) = argument.rsplit_once('=') else {
        return Ok(None);
    };
    let Some(workers) = number_in(number) else {
        return Ok(None);
    };
    Ok(Some((String::from_str(alloc, name)?, workers)))
}

// The names and the numbers of arguments NAME=N, or the first that is none.
fn sizes_in<'a>(
    alloc: Global,
    arguments: &[&'a str],
) -> Result<Result<Vec<(String, u32)>, &'a str>, AllocError>
    ensures { IfOk result (λ r. MatchResult r (λ v. AreSizes (map (λ a. a.now) arguments.now) (map entry_of v.items)) (λ a. IsFirstNoSize (map (λ a. a.now) arguments.now) a.now)) }
{
    let mut sizes = Vec::new(alloc);
    for argument in arguments {
        let Some(size) = size_in(alloc, argument)? else {
            return Ok(Err(*argument));
        };
        sizes.push(size)?;
    }
    Ok(Ok(sizes))
}

const NO_NUMBER: &str = ": this is no number of 32 bits; see volcano run --help\n";

const NO_MODE: &str = ": a mode is rounds or threads; see volcano run --help\n";

const NO_SIZE: &str =
    " is not NAME=N with a number of workers from 1 to 64; see volcano run --help\n";

// A part of what arguments say of a run.
fn wrong<'a>(before: &'static str, argument: &'a str, after: &'static str) -> WrongPart<'a>
    ensures { result ≡ record { before = before.entry; argument = argument.entry; after = after.entry } }
{
    WrongPart {
        before,
        argument,
        after,
    }
}

/// How arguments set a run up, or the first part of them for which they set none up.
pub fn setting_in<'a>(
    alloc: Global,
    given: &RunArguments<'a>,
) -> Result<Result<Setting, WrongPart<'a>>, AllocError>
    ensures { IfOk result (λ r. MatchResult r (λ s. IsSetting (given_is given.now) s) (λ w. IsWrongPart (given_is given.now) w.before.now w.argument.now)) }
{
    let Some(packet) = number_in(given.packet) else {
        return Ok(Err(wrong("volcano: --packet ", given.packet, NO_NUMBER)));
    };
    let Some(morsel) = number_in(given.morsel) else {
        return Ok(Err(wrong("volcano: --morsel ", given.morsel, NO_NUMBER)));
    };
    let Some(slack) = number_in(given.slack) else {
        return Ok(Err(wrong("volcano: --slack ", given.slack, NO_NUMBER)));
    };
    let Some(mode) = mode_named(given.mode) else {
        return Ok(Err(wrong("volcano: --mode ", given.mode, NO_MODE)));
    };
    match sizes_in(alloc, given.sizes.as_slice())? {
        Ok(sizes) => {
            let setup = Setup::new(sizes, packet, morsel, slack);
            Ok(Ok(Setting::new(setup, mode)))
        }
        Err(argument) => Ok(Err(wrong("volcano: ", argument, NO_SIZE))),
    }
}
