//! The output of a piped handler.
ghost use Rattle.std.specs.Prelude.{◌≡◌, [], Some, IfOk};
ghost use Rattle.rk_devices.specs.Outputs.{put_out, payload_of};

use rk_names::{Payload, PayloadView};
use std::alloc::{AllocError, Global};
use std::marker::Model;
use thiserror::Error;

/// Why the output of a piped handler is no payload.
#[derive(Clone, Copy, Debug, PartialEq, Eq, Error)]
pub enum OutputFault {
    /// There are no bytes.
    #[error("0 bytes")]
    Empty,
    /// There are more bytes than a payload has.
    #[error("more than 32767 bytes")]
    TooLong,
}

/// The output of a piped handler so far: its bytes, at most 32,767, or that there were more. Its room is made at first, so no byte that comes needs memory.
#[derive(Drop)]
pub struct Output {
    /// Where memory comes from.
    alloc: Global,
    /// What was read so far, at most 32,767 bytes; it no longer counts once there were more.
    bytes: Vec<u8>,
    /// Whether there were more bytes than a payload has.
    over: bool,
}

impl Model for Output {
    ghost use Rattle.std.specs.Prelude.{◌≤◌, ℕ, List, Option, Some, None, length, vec_capacity, if◌then◌else◌};

    ghost Value = { Option (List ℕ) };

    ghost view = { λ o. if o.over then None else Some o.bytes.items };

    ghost invariant = { λ o. (32767 ≤ vec_capacity o.bytes) × (length o.bytes.items ≤ 32767) };
}

impl Output {
    /// No bytes yet. An `Err` is out of memory for the room.
    pub fn new(alloc: Global) -> Result<Output, AllocError>
        ensures { IfOk result (λ o. o ≡ Some []) }
    {
        let bytes = Vec::with_capacity(alloc, Payload::MAX_LEN)?;
        Ok(Output {
            alloc,
            bytes,
            over: false,
        })
    }

    /// Takes what was read next. It takes no memory.
    pub fn add(&mut self, piece: &[u8])
        ensures { self.new ≡ put_out self.old piece.now }
    {
        if self.over {
            return;
        }
        if self.bytes.len() + piece.len() > Payload::MAX_LEN {
            self.over = true;
            return;
        }
        match self.bytes.extend_from_slice(piece) {
            Ok(()) => {}
            Err(AllocError) => unreachable!(),
        }
    }

    /// The payload that it is. Its copies share its bytes, and the room is given back; where there is no memory for that, the payload keeps the room.
    pub fn into_payload(self) -> Result<Payload, OutputFault>
        ensures { result ≡ payload_of self }
    {
        if self.over {
            return Err(OutputFault::TooLong);
        }
        match PayloadView::new(&self.bytes) {
            Ok(payload) => match payload.to_owned(self.alloc) {
                Ok(payload) => Ok(payload),
                Err(AllocError) => Ok(Payload::from_checked(self.bytes)),
            },
            Err(_) => Err(OutputFault::Empty),
        }
    }
}
