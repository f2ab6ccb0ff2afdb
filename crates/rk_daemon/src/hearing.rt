//! How a client is read and written to, where signals interrupt and time runs out.
ghost use Rattle.std.specs.Prelude.{◌≡◌, ◌≤◌, IfOk, IfSome, length, option_map, true};
ghost use Rattle.rk_daemon.specs.Hearing.{Hears, HearsOnce, Sends, SendsOnce, Watches};
ghost use Rattle.rk_daemon.specs.Line.{outcome};
ghost use Rattle.rk_daemon.specs.Lull.{fresh, is_timed};
ghost use Rattle.rk_daemon.specs.Story.{Does};

use crate::line::Line;
use crate::lull::Lull;
use std::io;
use std::io::ErrorKind;
use std::sync::Wait;

/// Reads bytes to the front of `buf`; how many. A read that a signal interrupts is made again (signal(7)), and any other failure is the outcome. It is also
/// `WouldBlock`, as of a read that has waited for too long by itself, if the rest of a frame, or the end of such reads, was waited for too long.
pub fn hear<R: Wait, L: Line>(
    rt: &R,
    line: &mut L,
    lull: &mut Lull,
    buf: &mut [u8],
) -> io::Result<usize>
    ensures bound { IfOk result (λ n. n ≤ length buf.old) }
    ensures same { length buf.new ≡ length buf.old }
    ensures hears { Does (Hears lull.old (outcome result) lull.new) (L.story line.old) (L.story line.new) }
{
    for _ in rt.forever() {
        if let Some(result) = hear_once(line, lull, buf) {
            return result;
        }
    }
    unreachable!()
}

/// Looks at the clock if the wait is measured by it; whether it has lasted too long.
#[inline(always)]
fn is_late<L: Line>(line: &mut L, lull: &mut Lull) -> bool
    ensures { Does (Watches lull.old result lull.new) (L.story line.old) (L.story line.new) }
{
    lull.is_timed() && is_late_now(line, lull)
}

/// Looks at the clock; whether the wait has lasted too long.
#[cold]
#[inline(never)]
fn is_late_now<L: Line>(line: &mut L, lull: &mut Lull) -> bool
    requires { is_timed lull.old ≡ true }
    ensures { Does (Watches lull.old result lull.new) (L.story line.old) (L.story line.new) }
{
    let now = line.seconds();
    lull.is_over(now)
}

/// Reads once; `None` if a signal has interrupted that.
fn hear_once<L: Line>(line: &mut L, lull: &mut Lull, buf: &mut [u8]) -> Option<io::Result<usize>>
    ensures bound { IfSome result (λ r. IfOk r (λ n. n ≤ length buf.old)) }
    ensures same { length buf.new ≡ length buf.old }
    ensures hears { Does (HearsOnce lull.old (option_map outcome result) lull.new) (L.story line.old) (L.story line.new) }
{
    if is_late(line, lull) {
        return Some(Err(io::Error::from(ErrorKind::WouldBlock)));
    }
    match line.read(buf) {
        Ok(count) => {
            lull.hear();
            Some(Ok(count))
        }
        Err(error) if error.kind() == ErrorKind::Interrupted => {
            lull.begin();
            None
        }
        Err(error) => Some(Err(error)),
    }
}

/// Writes all of these bytes, in as many calls as it takes. A call that a signal interrupts is made again (signal(7)), and any other failure is the outcome:
/// then only the first bytes were written, or none. It is also `WouldBlock`, as of a call that has waited for too long by itself, if not all of them were
/// written within this many seconds; 0 is no limit.
pub fn send<R: Wait, L: Line>(rt: &R, line: &mut L, limit: u32, bytes: &[u8]) -> io::Result<()>
    ensures { Does (Sends bytes.now (fresh limit) (outcome result)) (L.story line.old) (L.story line.new) }
{
    let mut lull = Lull::new(limit);
    let mut rest = bytes;
    for _ in rt.forever() {
        if rest.is_empty() {
            return Ok(());
        }
        match send_once(line, &mut lull, rest) {
            Ok(count) => rest = &rest[count..],
            Err(error) => return Err(error),
        }
    }
    unreachable!()
}

/// Writes the first of these bytes, of which there are some; how many. If a signal has interrupted that, none were.
fn send_once<L: Line>(line: &mut L, lull: &mut Lull, bytes: &[u8]) -> io::Result<usize>
    ensures bound { IfOk result (λ n. n ≤ length bytes.now) }
    ensures sends { Does (SendsOnce bytes.now lull.old (outcome result) lull.new) (L.story line.old) (L.story line.new) }
{
    if is_late(line, lull) {
        return Err(io::Error::from(ErrorKind::WouldBlock));
    }
    lull.begin();
    match line.write(bytes) {
        Ok(0) => Err(io::Error::from(ErrorKind::WriteZero)),
        Ok(count) => Ok(count),
        Err(error) if error.kind() == ErrorKind::Interrupted => Ok(0),
        Err(error) => Err(error),
    }
}
