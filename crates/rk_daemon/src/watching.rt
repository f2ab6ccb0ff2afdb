//! What the daemon looks after by the clock.
ghost use Rattle.std.specs.Prelude.{◌≡◌, if◌then◌else◌};
ghost use Rattle.rk_daemon.specs.Post.{CountsHalls, LooksAfter, TellsDue, TellsFigures, TellsSlow, is_due};
ghost use Rattle.rk_daemon.specs.Story.{Does};

use crate::figures::{Figures, InHalls};
use crate::post::Post;
use crate::record::Keeper;
use crate::reporter::{Reporter, minute_of};
use crate::settings::LogSettings;
use crate::system_post::SystemPost;
use crate::workers::Shared;
use crossbeam_channel::Receiver;
use rk_hall::{HallNo, Names};
use std::io::Eprint;
use std::sync::Wait;
use std::time::{Clock, Duration};

/// Each second, until the other end of the channel is dropped: tells how many lines of the log were left out, and which handlers have run for long, and, as
/// often as it is set, the daemon's figures.
pub fn watch<N: Names, R: Wait + Clock + Eprint + Keeper>(
    rt: &R,
    shared: &Shared<N>,
    end: &Receiver<()>,
    settings: LogSettings,
) {
    let log = Reporter::new(rt, &shared.log);
    let mut told = log.seconds();
    let mut post = SystemPost::new(rt, log, shared);
    for _ in rt.forever() {
        match end.recv_timeout(rt, Duration::from_secs(1)) {
            Err(error) if error.is_timeout() => {}
            _ => return,
        }
        look_after(&mut post, &mut told, settings);
    }
}

/// Tells what is to be told now: how many lines were left out in the minutes before this one, which handlers have run for long, and the figures, if so many
/// seconds have gone by since they were told last.
pub fn look_after<P: Post>(post: &mut P, told: &mut u64, settings: LogSettings)
    ensures { Does (LooksAfter settings told.old told.new) (P.story post.old) (P.story post.new) }
{
    let now = post.seconds();
    post.tell_left_out(minute_of(now));
    tell_slow(post, now, settings.slow);
    tell_due(post, now, told, settings.status);
}

/// Warns of handlers that have run for so many seconds; 0 is for never.
fn tell_slow<P: Post>(post: &mut P, now: u64, seconds: u32)
    ensures { Does (TellsSlow now seconds) (P.story post.old) (P.story post.new) }
{
    if seconds > 0 {
        post.tell_slow(now, u64::from(seconds));
    }
}

/// Tells the figures if they are due.
fn tell_due<P: Post>(post: &mut P, now: u64, told: &mut u64, seconds: u32)
    ensures { Does (TellsDue now seconds told.old told.new) (P.story post.old) (P.story post.new) }
{
    if is_due(told, now, seconds) {
        tell_figures(post, now);
    }
}

/// Whether so many seconds have gone by since the figures were last logged; 0 is for never. If so, they count as logged now.
fn is_due(told: &mut u64, now: u64, seconds: u32) -> bool
    ensures due { result ≡ is_due told.old now seconds }
    ensures told { told.new ≡ (if result then now else told.old) }
{
    let is_due = seconds > 0 && now.saturating_sub(*told) >= u64::from(seconds);
    if is_due {
        *told = now;
    }
    is_due
}

/// Tells how much there is at this moment.
fn tell_figures<P: Post>(post: &mut P, now: u64)
    ensures { Does (TellsFigures now) (P.story post.old) (P.story post.new) }
{
    let clients = post.clients();
    let handlers = post.handlers(now);
    let halls = in_halls(post);
    let volumes = post.volumes();
    post.tell(&Figures {
        clients,
        handlers,
        halls,
        volumes,
    });
}

/// How much there is in each hall. Each is looked at by itself.
fn in_halls<P: Post>(post: &mut P) -> InHalls
    ensures { Does (CountsHalls result) (P.story post.old) (P.story post.new) }
{
    let zero = post.counts(HallNo::Zero);
    let one = post.counts(HallNo::One);
    let two = post.counts(HallNo::Two);
    let three = post.counts(HallNo::Three);
    InHalls::of(zero, one, two, three)
}
