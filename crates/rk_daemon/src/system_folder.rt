//! Folders of the system.
ghost use Rattle.std.specs.Prelude.{None};

use crate::folder::Folder;
use std::fs::{Files, OpenOptions};
use std::io::Write;
use std::os::unix::fs::OpenOptionsExt;
use std::{fs, io};

/// The files of the system.
#[derive(Drop)]
pub struct SystemFolder<'a, R> {
    /// What calls it.
    rt: &'a R,
}

impl<'a, R: Files> SystemFolder<'a, R> {
    /// The files of this system. It takes no memory.
    pub fn new(rt: &'a R) -> SystemFolder<'a, R> {
        SystemFolder { rt }
    }
}

impl<'a, R: Files> Folder for SystemFolder<'a, R> {
    ghost story = { λ folder. None };

    type File = R::File;

    fn create(&mut self, path: &str) -> io::Result<R::File> {
        OpenOptions::new()
            .write(true)
            .create_new(true)
            .mode(0o600)
            .open(self.rt, path)
    }

    fn flush(&mut self, mut file: R::File) -> io::Result<()> {
        file.flush()
    }

    fn link(&mut self, from: &str, to: &str) -> io::Result<()> {
        fs::hard_link(self.rt, from, to)
    }

    fn remove(&mut self, path: &str) -> io::Result<()> {
        fs::remove_file(self.rt, path)
    }
}
