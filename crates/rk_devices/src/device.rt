//! Programs that are started.
ghost use Rattle.std.specs.Prelude.{◌≡◌, ◌≤◌, length, is_some, IfOk};
ghost use Rattle.rk_devices.specs.Counts.{most};
ghost use Rattle.rk_devices.specs.Shown.{ChildShown, LauncherShown, new_child, closed, Writes, Reads, Waits, Starts, taken_back};

use rk_machine::How;
use rk_macro::Command;
use thiserror::Error;

/// A device failed.
#[derive(Clone, Copy, Debug, PartialEq, Eq, Error)]
#[error("the device failed")]
pub struct DeviceFault;

/// A command was not started.
#[derive(Clone, Copy, Debug, PartialEq, Eq, Error)]
#[error("the command was not started")]
pub struct StartFault {
    /// The system's error number (errno(3)), if it gave one.
    pub os_error: Option<i32>,
}

/// A command that was started. It can't be dropped: its launcher takes it back.
pub trait Child {
    /// Its failures, its reads, whether its output is at its end, what has passed, whether its input is closed, and what waiting for it came to.
    ghost shown: { Self → ChildShown };

    /// Writes all bytes to its input.
    fn write(&mut self, bytes: &[u8]) -> Result<(), DeviceFault>
        ensures { Writes result bytes.now (shown self.old) (shown self.new) };

    /// Closes its input, if it is open. A later write may fail.
    fn close_input(&mut self)
        ensures { shown self.new ≡ closed (shown self.old) };

    /// Reads bytes of its output to the front of `buf`, and tells how many; 0 is the end of its output, where `buf` has room.
    fn read(&mut self, buf: &mut [u8]) -> Result<usize, DeviceFault>
        ensures bound { IfOk result (λ n. n ≤ length buf.old) }
        ensures same { length buf.new ≡ length buf.old }
        ensures reads { Reads (length buf.old) result buf.new (shown self.old) (shown self.new) };

    /// Waits until it has ended.
    fn wait(&mut self) -> Result<How, DeviceFault>
        ensures { Waits result (shown self.old) (shown self.new) };

    /// How often a call failed, at most the greatest u64.
    fn failures(&self) -> u64
        ensures { result ≡ (shown self.now).count };
}

/// Starts commands, and takes back what it has started.
pub trait Launcher {
    /// Its failures, the commands that it was to start, and what is known of its children.
    ghost shown: { Self → LauncherShown };

    /// What it starts.
    type Started: Child;

    /// Starts a command, with a pipe to its input and one from its output.
    fn start(&mut self, command: &Command) -> Result<Self::Started, StartFault>
        ensures bound { (shown self.new).count ≤ most }
        ensures starts { Starts command.now result (shown self.old) (shown self.new) }
        ensures fresh { IfOk result (λ child. Self.Started.shown child ≡ new_child (is_some (Self.Started.shown child).story)) };

    /// Takes back a child: its failures are counted as the launcher's.
    fn back(&mut self, child: Self::Started)
        ensures { shown self.new ≡ taken_back (shown self.old) (Self.Started.shown child) };

    /// How often a call failed, its own and those of children that came back, at most the greatest u64.
    fn failures(&self) -> u64
        ensures { result ≡ (shown self.now).count };
}
