//! Halls of new ledgers, for a scene of their own.
ghost use Rattle.std.specs.Prelude.{◌≡◌, ◌≤◌};

use rk_hall::{Fresh, Halls, Names};
use std::alloc::Global;
use std::marker::Brand;
use std::process::Abort;
use std::sync::Wait;

/// What is done in halls of its own, from their opening to their end.
pub trait Scene {
    /// Plays it, and compares what it leads to.
    fn play<N: Names, R: Wait + Abort + Copy>(&self, rt: &R, alloc: Global, halls: Halls<N>);
}

/// Makes halls of these ledgers, and plays the scene in them.
fn play_under<N: Names, R: Wait + Abort + Copy, S: Scene>(
    rt: &R,
    alloc: Global,
    fresh: Fresh,
    steps: usize,
    scene: &S,
)
    requires zero { (fresh.zero.calls.name ≡ N.name 0) × (fresh.zero.out.name ≡ N.name 1) }
    requires one { (fresh.one.calls.name ≡ N.name 2) × (fresh.one.out.name ≡ N.name 3) }
    requires two { (fresh.two.calls.name ≡ N.name 4) × (fresh.two.out.name ≡ N.name 5) }
    requires three { (fresh.three.calls.name ≡ N.name 6) × (fresh.three.out.name ≡ N.name 7) }
    requires steps { (1 ≤ steps) × (steps ≤ 1048576) }
{
    let halls: Halls<N> = Halls::with_volume(alloc, fresh, 60, 0, steps).expect(rt, "memory");
    scene.play(rt, alloc, halls);
}

/// Plays a scene in halls whose volumes may have so many steps, under ledgers that are named here.
pub fn in_new_halls<R: Wait + Abort + Copy, S: Scene>(
    rt: &R,
    alloc: Global,
    steps: usize,
    scene: &S,
) {
    assert!(rt; 1 <= steps && steps <= 1_048_576);
    let fresh = Fresh::new();
    play_under::<Brand, R, S>(rt, alloc, fresh, steps, scene);
}
