//! A command with one variable more, or less.
ghost use Rattle.std.specs.Prelude.{◌≡◌, IfOk, Some, None, false};
ghost use Rattle.rk_variables.specs.Starts.{Sets, start_of};

use std::alloc::AllocError;
use std::process::Command;

/// The command, with this variable set. The only refusal is out of memory, and then there is none.
pub fn with(command: Command, name: &str, value: &str) -> Result<Command, AllocError>
    ensures { IfOk result (λ c. Sets name.now (Some value.now) (start_of command) (start_of c)) }
{
    let mut command = command;
    command.env(name, value)?;
    Ok(command)
}

/// The command, with this variable removed from the environment that it keeps. The only refusal is out of memory, and then there is none.
pub fn without(command: Command, name: &str) -> Result<Command, AllocError>
    ensures { IfOk result (λ c. (start_of command).clears ≡ false → Sets name.now None (start_of command) (start_of c)) }
{
    let mut command = command;
    command.env_remove(name)?;
    Ok(command)
}
