//! The daemon at the sockets of the system.
ghost use Rattle.std.specs.Prelude.{◌≡◌, None};

use crate::connection::{Patient, connect};
use crate::deadline::Deadline;
use rk_client::PeerFault;
use rk_ctl::{Address, Daemon, Found, Search, converse, find_keys};
use rk_message::{Ask, Reply};
use rk_run::told;
use std::alloc::Global;
use std::io;
use std::net::Net;
use std::os::unix::net::UnixStream;
use std::time::Clock;

/// The sockets of the system, to each of which a connection of its own is made.
#[derive(Drop)]
pub struct Sockets<'a, R> {
    /// The host, whose sockets and clock these are.
    rt: &'a R,
    /// Where memory for a reply comes from.
    alloc: Global,
    /// Why there was no reply last: the path and the system's reason. `None` if nothing failed, or if memory for the text ran out.
    trouble: Option<String>,
}

impl<'a, R: Net + Clock> Sockets<'a, R> {
    /// The sockets of this system. It takes no memory.
    pub fn new(rt: &'a R, alloc: Global) -> Sockets<'a, R> {
        Sockets {
            rt,
            alloc,
            trouble: None,
        }
    }

    /// Connects, by a deadline if the address has one. If that fails it keeps why.
    fn open(&mut self, address: Address<'_>) -> Result<(UnixStream, Option<Deadline>), PeerFault> {
        let deadline = match Deadline::after(self.rt, address.seconds) {
            Ok(deadline) => deadline,
            Err(error) => return Err(self.unreached(address, None, &error)),
        };
        match connect(self.rt, address.path, deadline) {
            Ok(stream) => Ok((stream, deadline)),
            Err(error) => Err(self.unreached(address, deadline, &error)),
        }
    }

    /// Keeps why nobody can be reached, if there is memory for it.
    fn unreached(
        &mut self,
        address: Address<'_>,
        deadline: Option<Deadline>,
        error: &io::Error,
    ) -> PeerFault
        ensures { result ≡ PeerFault.Lost }
    {
        self.trouble = if self.is_over(deadline) {
            self.late(address)
        } else {
            told(self.alloc, address.path, error).ok()
        };
        PeerFault::Lost
    }

    /// Keeps why there is no reply, if there is memory for it.
    fn note(
        &mut self,
        address: Address<'_>,
        deadline: Option<Deadline>,
        fault: PeerFault,
    ) -> PeerFault
        ensures { result ≡ fault }
    {
        let path = address.path;
        self.trouble = if fault == PeerFault::Lost && self.is_over(deadline) {
            self.late(address)
        } else {
            format!(in self.alloc; "{path}: {fault}").ok()
        };
        fault
    }

    /// Whether there is a deadline, and it is over.
    fn is_over(&self, deadline: Option<Deadline>) -> bool {
        match deadline {
            Some(deadline) => deadline.left(self.rt).is_err(),
            None => false,
        }
    }

    /// That the time of this address is over.
    fn late(&self, address: Address<'_>) -> Option<String> {
        let Address { path, seconds } = address;
        format!(in self.alloc; "{path}: no reply within {seconds} s").ok()
    }
}

impl<'a, R: Net + Clock> Daemon for Sockets<'a, R> {
    ghost story = { λ s. None };

    fn ask(
        &mut self,
        address: Address<'_>,
        greeting: Option<&Ask>,
        ask: &Ask,
    ) -> Result<Reply, PeerFault> {
        let (stream, deadline) = self.open(address)?;
        let mut reader = Patient::new(self.rt, &stream, deadline);
        let mut writer = Patient::new(self.rt, &stream, deadline);
        match converse(self.alloc, &mut reader, &mut writer, greeting, ask) {
            Ok(reply) => Ok(reply),
            Err(fault) => Err(self.note(address, deadline, fault)),
        }
    }

    fn search(
        &mut self,
        address: Address<'_>,
        greeting: &Ask,
        search: Search,
    ) -> Result<Found, PeerFault> {
        let (stream, deadline) = self.open(address)?;
        let mut reader = Patient::new(self.rt, &stream, deadline);
        let mut writer = Patient::new(self.rt, &stream, deadline);
        match find_keys(self.alloc, &mut reader, &mut writer, greeting, search) {
            Ok(found) => Ok(found),
            Err(fault) => Err(self.note(address, deadline, fault)),
        }
    }

    fn trouble(&self) -> Option<&str> {
        match &self.trouble {
            Some(text) => Some(text.as_str()),
            None => None,
        }
    }
}
