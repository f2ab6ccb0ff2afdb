//! A daemon that tells what is looked after each second, and what is told.
ghost use Rattle.std.specs.Prelude.{◌≡◌, [], ◌∷◌, ◌++◌, Some, map};
ghost use Rattle.rk_daemon.specs.Post.{LooksAfter};
ghost use Rattle.rk_edge_tests.specs.Done.{at_post};

use crate::done::AtPost;
use rk_daemon::{Clients, Figures, InRun, LogSettings, Oldest, Post, look_after};
use rk_hall::{Counts, HallNo};
use std::alloc::Global;
use std::process::Abort;

/// A daemon with so much of everything, at this second. Out of memory for what it keeps ends the process.
#[derive(Drop)]
struct Telling<'a, R> {
    rt: &'a R,
    now: u64,
    /// What was done, first things first.
    done: Vec<AtPost>,
}

impl<'a, R: Abort> Telling<'a, R> {
    /// Keeps what was done.
    fn keep(&mut self, done: AtPost)
        ensures { self.new.done.items ≡ self.old.done.items ++ done ∷ [] }
    {
        self.done.push(done).expect(self.rt, "memory");
    }
}

/// So much is in a hall: another number of each thing in each.
fn in_hall(hall: HallNo) -> Counts {
    let number = u64::from(hall.number());
    Counts {
        keys: 10 + number,
        constructions: 20 + number,
        edquots: 30 + number,
    }
}

impl<'a, R: Abort> Post for Telling<'a, R> {
    ghost story = { λ post. Some (map at_post post.done.items) };

    fn seconds(&mut self) -> u64 {
        let now = self.now;
        self.keep(AtPost::Looked(now));
        now
    }

    fn tell_left_out(&mut self, minute: u64) {
        self.keep(AtPost::LeftOut(minute));
    }

    fn tell_slow(&mut self, now: u64, seconds: u64) {
        self.keep(AtPost::Slow(now, seconds));
    }

    fn clients(&mut self) -> Clients {
        let found = Clients { open: 3, served: 2 };
        self.keep(AtPost::Clients(found));
        found
    }

    fn handlers(&mut self, now: u64) -> InRun {
        let oldest = Some(Oldest {
            key: 12,
            seconds: 7,
        });
        let found = InRun { count: 2, oldest };
        self.keep(AtPost::Handlers(now, found));
        found
    }

    fn counts(&mut self, hall: HallNo) -> Counts {
        let counts = in_hall(hall);
        self.keep(AtPost::Counted(hall, counts));
        counts
    }

    fn volumes(&mut self) -> u64 {
        self.keep(AtPost::Volumes(5));
        5
    }

    fn tell(&mut self, figures: &Figures) {
        self.keep(AtPost::Told(*figures));
    }
}

/// Looks after a daemon in which nothing was done, with these settings, at this second, where figures were told last at another one: all that is done there is
/// by these definitions. What was done, and when figures were told last.
fn looked<R: Abort>(
    rt: &R,
    alloc: Global,
    now: u64,
    told: u64,
    settings: LogSettings,
) -> (Vec<AtPost>, u64)
    ensures { LooksAfter settings told result.1 (map at_post result.0.items) }
{
    let mut post = Telling {
        rt,
        now,
        done: Vec::new(alloc),
    };
    let mut last = told;
    look_after(&mut post, &mut last, settings);
    (post.done, last)
}

/// What of it is told, in order.
fn texts(alloc: Global, done: &[AtPost], rt: &impl Abort) -> String {
    let mut text = String::new(alloc);
    for one in done {
        let wrote = match one {
            AtPost::LeftOut(minute) => write!(text, "left out before {minute}; "),
            AtPost::Slow(now, seconds) => write!(text, "slow of {seconds} at {now}; "),
            AtPost::Told(figures) => write!(text, "{figures}; "),
            _ => Ok(()),
        };
        wrote.expect(rt, "memory");
    }
    text
}

const FIGURES: &str =
    "status: connections 3, workers busy 2, handlers 2, the oldest of key 12 for 7 s, keys 10/11/12/13, constructions 20/21/22/23, EDQUOTs 30/31/32/33, \
volumes 5; ";

/// The second, when figures were told last, the times of slow handlers and of figures, and what is told.
const LOOKS: &[(u64, u64, u32, u32, &str)] = &[
    (119, 100, 0, 0, "left out before 1; "),
    (120, 100, 60, 0, "left out before 2; slow of 60 at 120; "),
    (120, 100, 0, 21, "left out before 2; "),
    (120, 100, 0, 20, "left out before 2; FIGURES"),
    (
        121,
        100,
        5,
        20,
        "left out before 2; slow of 5 at 121; FIGURES",
    ),
];

#[test]
fn each_second_is_told(rt: HostRuntime) {
    for (now, told, slow, status, wanted) in LOOKS {
        let settings = LogSettings {
            level: log::Level::Warn,
            slow: *slow,
            status: *status,
        };
        let (done, last) = looked(&rt, rt.alloc(), *now, *told, settings);
        let texts = texts(rt.alloc(), &done, &rt);
        let (front, figures) = match wanted.strip_suffix("FIGURES") {
            Some(front) => (front, FIGURES),
            None => (*wanted, ""),
        };
        assert_eq!(rt; texts.strip_prefix(front), Some(figures));
        assert_eq!(rt; last, if figures.is_empty() { *told } else { *now });
    }
}
