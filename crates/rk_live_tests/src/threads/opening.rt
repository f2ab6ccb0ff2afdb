//! Halls of new ledgers, which threads share. A trait's method can't hand its halls to a thread, so these scenes are an enum.
ghost use Rattle.std.specs.Prelude.{◌≡◌, ◌≤◌};

use crate::sessions::side_by_side::Pair;
use crate::threads::together::SideBySide;
use crate::threads::waking::Waking;
use rk_hall::{Fresh, Halls, Names};
use std::alloc::Global;
use std::marker::{Brand, Send, Sync};
use std::process::Abort;
use std::sync::Wait;
use std::thread::Threads;
use std::time::Clock;

/// What threads do in halls of their own.
#[derive(Clone, Copy)]
pub enum Scene {
    /// They make calls at one time.
    SideBySide(SideBySide),
    /// One waits until the other has made its key.
    Waking(Waking),
    /// Each serves a session.
    Served(usize),
}

impl Scene {
    fn play<N: Names + Send + Sync, R: Wait + Abort + Threads + Clock + Sync>(
        self,
        rt: &R,
        alloc: Global,
        halls: Halls<N>,
    ) {
        match self {
            Scene::SideBySide(threads) => threads.play(rt, alloc, halls),
            Scene::Waking(waking) => waking.play(rt, alloc, halls),
            Scene::Served(place) => Pair::play(place, rt, alloc, halls),
        }
    }
}

/// Makes halls of these ledgers, and plays the scene in them.
fn play_under<N: Names + Send + Sync, R: Wait + Abort + Threads + Clock + Sync>(
    rt: &R,
    alloc: Global,
    fresh: Fresh,
    scene: Scene,
)
    requires zero { (fresh.zero.calls.name ≡ N.name 0) × (fresh.zero.out.name ≡ N.name 1) }
    requires one { (fresh.one.calls.name ≡ N.name 2) × (fresh.one.out.name ≡ N.name 3) }
    requires two { (fresh.two.calls.name ≡ N.name 4) × (fresh.two.out.name ≡ N.name 5) }
    requires three { (fresh.three.calls.name ≡ N.name 6) × (fresh.three.out.name ≡ N.name 7) }
{
    let halls: Halls<N> = Halls::with_volume(alloc, fresh, 60, 0, 1_048_576).expect(rt, "memory");
    scene.play(rt, alloc, halls);
}

/// Plays a scene in halls under ledgers that are named here.
pub fn in_new_halls<R: Wait + Abort + Threads + Clock + Sync>(rt: &R, alloc: Global, scene: Scene) {
    let fresh = Fresh::new();
    play_under::<Brand, R>(rt, alloc, fresh, scene);
}
