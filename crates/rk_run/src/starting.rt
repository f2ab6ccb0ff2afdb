//! The command of a program in a session ring.
ghost use Rattle.std.specs.Prelude.{◌≡◌, IfOk, map, option_map, string_bytes};
ghost use Rattle.rk_run.specs.Starts.{IsCalled, IsStart, IsTrapped, preloads};
ghost use Rattle.rk_run.specs.Words.{said_by};
ghost use Rattle.rk_variables.specs.Starts.{start_of};

use crate::wanted::Wanted;
use itoa::Buffer;
use rk_variables::{with, without};
use std::alloc::{AllocError, Global};
use std::process::Command;

/// The program that is wanted, with its words and the variables that have keyutils' calls go to the daemon, into this ring. The only refusal is out of
/// memory.
pub fn made(
    alloc: Global,
    wanted: &Wanted<'_>,
    library: &str,
    before: Option<&str>,
    socket: &str,
    ring: u32,
) -> Result<Command, AllocError>
    ensures { IfOk result (λ c. IsStart (said_by wanted.now) library.now (option_map (λ s. s.now) before.entry) socket.now ring (start_of c)) }
{
    let preload = preloads(alloc, library, before)?;
    let mut buffer = Buffer::new();
    let ring = buffer.format(ring);
    let command = called(alloc, wanted.program, wanted.words)?;
    let command = with(command, "LD_PRELOAD", preload.as_str())?;
    let command = with(command, "REQKEYD_SOCKET", socket)?;
    let command = with(command, "REQKEYD_JOIN", ring)?;
    without(command, "REQKEYD_STREAMS")
}

/// The program with its words, in the environment and the folder of this one.
fn called(alloc: Global, program: &str, words: &[String]) -> Result<Command, AllocError>
    ensures { IfOk result (λ c. IsCalled program.now (map string_bytes words.now) (start_of c)) }
{
    let mut command = Command::new(alloc, program)?;
    for word in words {
        command.arg(word.as_str())?;
    }
    Ok(command)
}

/// The program that is wanted with its words, to be started by `reqkey-trap`, the program at `trap`, which gets the socket. The only refusal is out of
/// memory.
pub fn trapped(
    alloc: Global,
    wanted: &Wanted<'_>,
    trap: &str,
    socket: &str,
) -> Result<Command, AllocError>
    ensures { IfOk result (λ c. IsTrapped (said_by wanted.now) trap.now socket.now (start_of c)) }
{
    let mut command = Command::new(alloc, trap)?;
    command.arg("--socket")?;
    command.arg(socket)?;
    command.arg("--")?;
    command.arg(wanted.program)?;
    for word in wanted.words {
        command.arg(word.as_str())?;
    }
    Ok(command)
}

/// The library, and after it what was to be preloaded before.
fn preloads(alloc: Global, library: &str, others: Option<&str>) -> Result<String, AllocError>
    ensures { IfOk result (λ s. string_bytes s ≡ preloads library.now (option_map (λ s. s.now) others.entry)) }
{
    let mut preload = String::from_str(alloc, library)?;
    match others {
        Some(text) if !text.is_empty() => {
            preload.push_str(":")?;
            preload.push_str(text)?;
        }
        _ => {}
    }
    Ok(preload)
}
