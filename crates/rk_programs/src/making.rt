//! What is started for a command.
ghost use Rattle.std.specs.Prelude.{◌≡◌, true, IfOk, option_map};
ghost use Rattle.std.specs.Process.{makes_pipe, SameProgramAndArgs, SameEnv, SameDir};
ghost use Rattle.rk_variables.specs.Starts.{start_of};
ghost use Rattle.rk_programs.specs.Started.{IsCalled, IsOf};

use rk_macro::Command;
use rk_variables::{with, without};
use std::alloc::{AllocError, Global};
use std::process::{self, Stdio};

/// The program of this command and its words, with pipes for its standard input and output. A plain handler, which speaks with the daemon over these pipes,
/// is told of no other one: `REQKEYD_SOCKET` is removed. It gets the library by which keyutils' calls are the daemon's, if there is one, and that they go over
/// these pipes. A piped one is started in the daemon's environment. The only refusal is out of memory.
pub fn made(
    alloc: Global,
    command: &Command,
    keyutils: Option<&str>,
) -> Result<process::Command, AllocError>
    ensures { IfOk result (λ made. IsOf command.now (option_map (λ s. s.now) keyutils.entry) (start_of made)) }
{
    let called = called(alloc, command)?;
    if command.piped {
        return Ok(called);
    }
    let alone = without(called, "REQKEYD_SOCKET")?;
    match keyutils {
        Some(library) => {
            let told = with(alone, "LD_PRELOAD", library)?;
            with(told, "REQKEYD_STREAMS", "0,1")
        }
        None => Ok(alone),
    }
}

/// The program of this command and its words, with pipes for its standard input and output.
fn called(alloc: Global, command: &Command) -> Result<process::Command, AllocError>
    ensures { IfOk result (λ made. IsCalled command.now (start_of made)) }
{
    let mut made = process::Command::new(alloc, command.path.as_str())?;
    for word in command.words.as_slice() {
        made.arg(word.as_str())?;
    }
    connect(&mut made, Stdio::piped(), Stdio::piped());
    Ok(made)
}

/// Gives a program these new pipes for its standard input and output.
fn connect(made: &mut process::Command, input: Stdio, output: Stdio)
    requires input { makes_pipe input ≡ true }
    requires output { makes_pipe output ≡ true }
    ensures call { SameProgramAndArgs made.old made.new }
    ensures variables { SameEnv made.old made.new }
    ensures folder { SameDir made.old made.new }
{
    made.stdin(input);
    made.stdout(output);
}
