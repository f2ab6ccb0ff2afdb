//! A ring with 256 links, more than a script can make: a user has 200 keys, and no other user's keys get into the rings.
use crate::same::same;
use rk_names::{NameNo, Serial};
use rk_rings::{NewRing, RingFault, RingKind, Rings};
use std::alloc::Global;
use std::process::Abort;

/// The serial of this number, which is not 0.
fn serial(number: u16) -> Serial {
    Serial::new(u32::from(number.max(1))).unwrap()
}

/// Ring 1, of user 1000, with the keys 1000 to 1255, whose names are the numbers 0 to 255.
fn full_ring(alloc: Global) -> Rings {
    let mut rings = Rings::new(alloc);
    let ring = NewRing {
        serial: serial(1),
        kind: RingKind::Session,
        uid: 1000,
    };
    if !rings.contains(ring.serial) {
        let _ = rings.make(alloc, &[ring]);
    }
    for name in 0..256u16 {
        let _ = rings.link(serial(1), serial(1_000 + name), NameNo(u32::from(name)));
    }
    rings
}

/// A key of a new name finds no place, one of a name that is there takes it, and an unlinked one leaves its own.
#[test]
fn a_ring_has_room_for_256_links(rt: HostRuntime) {
    let mut rings = full_ring(rt.alloc());
    for (key, name, linked) in [
        (5_000, 256, Err(RingFault::Full)),
        (5_000, 7, Ok(Some(serial(1_007)))),
        (1_003, 999, Ok(None)),
        (5_001, 999, Err(RingFault::Full)),
    ] {
        let told = rings.link(serial(1), serial(key), NameNo(name));
        same(&rt, (key, told), (key, linked));
    }
    same(&rt, rings.holds(serial(1), serial(1_007)), false);
    same(&rt, rings.unlink(serial(1), serial(1_003)), Ok(()));
    same(
        &rt,
        rings.link(serial(1), serial(5_001), NameNo(256)),
        Ok(None),
    );
    same(&rt, rings.holds(serial(1), serial(5_001)), true);
}

/// The serial of this number; none stops the test.
fn of_number(rt: &impl Abort, number: u32) -> Serial {
    Serial::new(number).expect(rt, "a serial")
}

/// In a full ring 100,000 keys of new names take the places of unlinked ones, and the last 256 are found by their names. The ring was given all its
/// memory when it was made.
#[test]
fn a_full_ring_takes_new_names_for_good(rt: HostRuntime) {
    let mut rings = full_ring(rt.alloc());
    for turn in 0..100_000u32 {
        let unlinked = rings.unlink(serial(1), of_number(&rt, 1_000 + turn));
        same(&rt, unlinked, Ok(()));
        let key = of_number(&rt, 1_256 + turn);
        same(
            &rt,
            rings.link(serial(1), key, NameNo(256 + turn)),
            Ok(None),
        );
    }
    for name in 100_000..100_256u32 {
        let key = rings.find_in(serial(1), NameNo(name));
        same(&rt, (name, key), (name, Serial::new(1_000 + name)));
    }
    same(&rt, rings.find_in(serial(1), NameNo(99_999)), None);
}
