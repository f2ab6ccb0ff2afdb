//! What is around this process.

use rk_ctl::Around;
use std::alloc::AllocError;
use std::env::{self, Env, VarError};

/// What is around this process. A variable that is empty or no text names no socket. The only refusal is out of memory.
pub fn look_around<R: Env + AllocGlobal>(rt: &R) -> Result<Around, AllocError> {
    let socket = match env::var(rt, "REQKEYD_SOCKET") {
        Ok(path) if !path.is_empty() => Some(path),
        Err(VarError::OutOfMemory) => return Err(AllocError),
        Ok(_) | Err(VarError::NotPresent | VarError::NotUnicode) => None,
    };
    Ok(Around {
        socket,
        piped: is_pipe(libc::STDIN_FILENO) && is_pipe(libc::STDOUT_FILENO),
        terminal: libc::isatty(libc::STDOUT_FILENO) == 1,
    })
}

/// Whether the descriptor leads to a pipe or a socket: it has no offset (`lseek(2)`), and is no terminal.
fn is_pipe(descriptor: i32) -> bool {
    libc::lseek(descriptor, 0, libc::SEEK_CUR) < 0 && libc::isatty(descriptor) != 1
}
