//! The host that calls the system.
ghost use Rattle.std.specs.Prelude.{◌≡◌, None};

use crate::host::{Here, Host, StartFault};
use rk_client::{PeerFault, exchange};
use rk_message::{Ask, Reply};
use std::alloc::{AllocError, Global};
use std::env::{self, Env, VarError};
use std::fs::{File, Files};
use std::io;
use std::net::Net;
use std::os::unix::net::UnixStream;
use std::process::{Child, Command, ExitStatus, Processes};

/// Where the library is, below the folder that has the folder of this program.
const LIBRARY: &str = "/lib/reqkeyd/libkeyutils.so.1";

/// Where the program is that answers system calls, below that folder.
const TRAP: &str = "/bin/reqkey-trap";

/// That folder, if it can't be found.
const PREFIX: &str = "/usr/local";

/// The system, with one connection and one program.
#[derive(Drop)]
pub struct System<'a, R: Processes> {
    /// The host, which connects and starts processes.
    rt: &'a R,
    /// Where memory comes from.
    alloc: Global,
    /// The connection to the daemon, whose session is the program's; `None` before it is made.
    stream: Option<UnixStream>,
    /// The program that was started; `None` before, and once it was waited for.
    child: Option<Child<R::Started>>,
    /// Why the last call failed: the path and the system's reason. `None` too if memory for the text ran out.
    trouble: Option<String>,
}

impl<'a, R: Processes> System<'a, R> {
    /// The system, with neither. It takes no memory.
    pub fn new(rt: &'a R, alloc: Global) -> System<'a, R> {
        System {
            rt,
            alloc,
            stream: None,
            child: None,
            trouble: None,
        }
    }

    /// Keeps what stood in the way, if there is memory for it.
    fn note(&mut self, path: &str, error: &io::Error) {
        self.trouble = told(self.alloc, path, error).ok();
    }
}

/// A path, and what the system says of it.
pub fn told(alloc: Global, path: &str, error: &io::Error) -> Result<String, AllocError> {
    let text = error.to_string(alloc)?;
    let reason = without_number(text.as_str());
    format!(in alloc; "{path}: {reason}")
}

/// The words of an error of the system, without its number after them.
fn without_number(text: &str) -> &str {
    match text.split_once(" (os error ") {
        Some((words, _)) => words,
        None => text,
    }
}

/// A variable of the environment; none if it is no text.
fn variable<R: Env + AllocGlobal>(rt: &R, name: &str) -> Result<Option<String>, AllocError> {
    match env::var(rt, name) {
        Ok(text) => Ok(Some(text)),
        Err(VarError::OutOfMemory) => Err(AllocError),
        Err(VarError::NotPresent | VarError::NotUnicode) => Ok(None),
    }
}

/// The folder of this process; none if it has been removed, or is no text.
fn folder<R: Env + AllocGlobal>(rt: &R) -> Result<Option<String>, AllocError> {
    match env::current_dir(rt) {
        Ok(path) => Ok(Some(path.into_string())),
        Err(error) if error.kind() == io::ErrorKind::OutOfMemory => Err(AllocError),
        Err(_) => Ok(None),
    }
}

/// Where a file is installed: below the folder that has the folder of this program, as `make install` puts both.
fn installed<R: Files + AllocGlobal>(rt: &R, file: &str) -> Result<String, AllocError> {
    let mut path = String::new(rt.alloc());
    match env::current_exe(rt) {
        Ok(program) => path.push_str(prefix_of(program.as_str()))?,
        Err(error) if error.kind() == io::ErrorKind::OutOfMemory => return Err(AllocError),
        Err(_) => path.push_str(PREFIX)?,
    }
    path.push_str(file)?;
    Ok(path)
}

/// What is before the last two parts of a path.
fn prefix_of(path: &str) -> &str {
    match path.rsplit_once('/') {
        Some((folder, _)) => match folder.rsplit_once('/') {
            Some((prefix, _)) => prefix,
            None => PREFIX,
        },
        None => PREFIX,
    }
}

/// Why a program was not started.
fn fault_of(error: &io::Error) -> StartFault {
    match error.kind() {
        io::ErrorKind::NotFound => StartFault::NotFound,
        io::ErrorKind::OutOfMemory => StartFault::NoMemory,
        _ => StartFault::Unstartable,
    }
}

impl<'a, R: Processes + Net + Files + Env + AllocGlobal> Host for System<'a, R> {
    ghost story = { λ s. None };

    fn look(&mut self) -> Result<Here, AllocError> {
        Ok(Here {
            uid: libc::geteuid(),
            gid: libc::getegid(),
            preloaded: variable(self.rt, "LD_PRELOAD")?,
            socket: variable(self.rt, "REQKEYD_SOCKET")?,
            folder: folder(self.rt)?,
            installed: installed(self.rt, LIBRARY)?,
            trap: installed(self.rt, TRAP)?,
        })
    }

    fn has(&mut self, path: &str) -> bool {
        match File::open(self.rt, path) {
            Ok(_) => true,
            Err(error) => {
                self.note(path, &error);
                false
            }
        }
    }

    fn greet(&mut self, path: &str, ask: &Ask) -> Result<Reply, PeerFault> {
        let stream = match UnixStream::connect(self.rt, path) {
            Ok(stream) => stream,
            Err(error) => {
                self.note(path, &error);
                return Err(PeerFault::Lost);
            }
        };
        let (mut reader, mut writer) = (&stream, &stream);
        let reply = exchange(self.alloc, &mut reader, &mut writer, ask)?;
        self.stream = Some(stream);
        Ok(reply)
    }

    fn start(&mut self, command: Command) -> Result<(), StartFault> {
        let mut command = command;
        match command.spawn(self.rt) {
            Ok(child) => {
                self.child = Some(child);
                Ok(())
            }
            Err(error) => {
                self.note(command.get_program(), &error);
                Err(fault_of(&error))
            }
        }
    }

    fn wait(&mut self) -> Option<ExitStatus> {
        self.child.take()?.wait().ok()
    }

    fn close(&mut self) {
        drop(self.stream.take());
    }

    fn trouble(&self) -> Option<&str> {
        match &self.trouble {
            Some(text) => Some(text.as_str()),
            None => None,
        }
    }
}
