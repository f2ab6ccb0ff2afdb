//! A wire that tells all that happens on it.
ghost use Rattle.std.specs.Prelude.{◌≡◌, ◌≤◌, [], map, Some, false};
ghost use Rattle.rk_live_tests.specs.Telling.{happened};

use crate::fakes::giving::{give, one_more};
use crate::kept::Kept;
use rk_devices::DeviceFault;
use rk_hall::ReceiptView;
use rk_session::Wire;
use std::alloc::Global;
use std::process::Abort;

/// A wire that gives these bytes, and then the end. What is written is kept for ever, and none of it is to be sent. Out of memory for what it keeps ends the
/// process.
#[derive(Drop)]
pub struct Telling<'a, R> {
    /// The host, which ends the process when memory runs out.
    pub rt: &'a R,
    /// Where memory for what is kept comes from.
    pub alloc: Global,
    /// What is still to come.
    pub bytes: &'a [u8],
    /// How often it was read.
    pub reads: u64,
    /// What has happened, first things first.
    pub kept: Vec<Kept>,
}

impl<'a, R> Telling<'a, R> {
    /// A wire on which nothing has happened. It takes no memory.
    pub fn new(rt: &'a R, alloc: Global, bytes: &'a [u8]) -> Telling<'a, R>
        ensures { result.kept.items ≡ [] }
    {
        Telling {
            rt,
            alloc,
            bytes,
            reads: 0,
            kept: Vec::new(alloc),
        }
    }
}

impl<'a, R: Abort> Wire for Telling<'a, R> {
    ghost shown = { λ w. record { count = 0; reads = w.reads; kept = false; cut = false; story = Some (map happened w.kept.items) } };

    fn read(&mut self, buf: &mut [u8]) -> Result<usize, DeviceFault> {
        self.reads = one_more(self.reads);
        let bytes = self.bytes;
        let count = give(bytes, buf);
        self.bytes = &bytes[count..];
        let came = Vec::from_slice(self.alloc, &buf[..count]).expect(self.rt, "memory");
        self.kept.push(Kept::Came(came)).expect(self.rt, "memory");
        Ok(count)
    }

    fn write(&mut self, bytes: &[u8]) -> Result<(), DeviceFault> {
        let went = Vec::from_slice(self.alloc, bytes).expect(self.rt, "memory");
        self.kept.push(Kept::Went(went)).expect(self.rt, "memory");
        Ok(())
    }

    fn send(&mut self) -> Result<(), DeviceFault> {
        Ok(())
    }

    fn note(&mut self, receipt: &ReceiptView<'_>) {
        let noted = receipt.to_owned(self.alloc).expect(self.rt, "memory");
        self.kept.push(Kept::Noted(noted)).expect(self.rt, "memory");
    }

    fn failures(&self) -> u64 {
        0
    }
}
