//! Who waits for what, through all that is done to who stands in the slots.
ghost use Rattle.std.specs.Prelude.{◌≡◌, ◌<◌, ◌-◌, ◌+◌, ℕ, None, Some, true, false, cond, nat_eq, is_some, option_map};
ghost use Rattle.std.specs.FinMap as map;
ghost use Rattle.rk_auth.specs.Chains.{standing_at, home_at, names, AreChained, in_standing};
ghost use Rattle.rk_auth.specs.Seats.{who_of, waited_in, home_for, same_home, IsTied};

use crate::chain::{self, InSlot};
use crate::places::Places;
use crate::slot::{Slot, Standing};
use rk_names::Serial;
use rk_table::{ChangeOnce, Table};

/// The key for which the session at the place waits, if it does.
fn waited_at(slots: &Places<Slot>, place: usize) -> Option<Serial>
    ensures { result ≡ waited_in (standing_at slots.now.facts place) }
{
    slots.get(place)?.standing.waited()
}

/// The slot that heads those who wait for the key.
fn home_of(constructions: &Table<usize>, nobody: usize, key: Serial) -> usize
    ensures { result ≡ home_for constructions.now.facts nobody key }
{
    match constructions.get(key.get()) {
        Some(place) => *place,
        None => nobody,
    }
}

/// Changes who stands at a place, and moves it to the chain of what it waits for then. It takes no memory.
pub fn change_at<C: ChangeOnce<Standing> + Copy>(
    slots: &mut Places<Slot>,
    constructions: &Table<usize>,
    nobody: usize,
    place: usize,
    change: C,
)
    requires tied { IsTied slots.old.facts constructions.now.facts nobody }
    requires who { (s : Standing) → who_of (C.changed change s) ≡ who_of s }
    ensures tied { IsTied slots.new.facts constructions.now.facts nobody }
    ensures standing { (q : ℕ) → standing_at slots.new.facts q ≡ cond (nat_eq place q) (option_map (C.changed change) (standing_at slots.old.facts q)) (standing_at slots.old.facts q) }
    ensures room { slots.new.room ≡ slots.old.room }
{
    chain::unlink(slots, place);
    slots.change(place, InSlot(change));
    if let Some(key) = waited_at(slots, place) {
        chain::push(slots, place, home_of(constructions, nobody, key));
    }
}

/// One that does not wait stands in a slot of its own from now on. It takes no memory.
pub fn put_in(slots: &mut Places<Slot>, standing: Standing) -> usize
    requires chained { AreChained slots.old.facts }
    requires room { 0 < slots.old.room }
    ensures new { standing_at slots.old.facts result ≡ None }
    ensures chained { AreChained slots.new.facts }
    ensures standing { (q : ℕ) → standing_at slots.new.facts q ≡ cond (nat_eq result q) (Some standing) (standing_at slots.old.facts q) }
    ensures homes { (q : ℕ) → home_at slots.new.facts q ≡ home_at slots.old.facts q }
    ensures room { slots.new.room ≡ slots.old.room - 1 }
{
    slots.put(Slot {
        standing,
        first: None,
        link: None,
    })
}

/// Who stands at the place is gone, and its wait too. It takes no memory, and gives the place back.
pub fn take_out(slots: &mut Places<Slot>, place: usize)
    requires chained { AreChained slots.old.facts }
    requires there { is_some (standing_at slots.old.facts place) ≡ true }
    requires alone { (q : ℕ) → ¬ (home_at slots.old.facts q ≡ Some place) }
    ensures chained { AreChained slots.new.facts }
    ensures standing { (q : ℕ) → standing_at slots.new.facts q ≡ cond (nat_eq place q) None (standing_at slots.old.facts q) }
    ensures homes { (q : ℕ) → home_at slots.new.facts q ≡ cond (nat_eq place q) None (home_at slots.old.facts q) }
    ensures room { slots.new.room ≡ slots.old.room + 1 }
{
    chain::unlink(slots, place);
    slots.remove(place);
}

/// Changes those who wait in a chain, if there is one, and looks at nobody else. It takes no memory.
pub fn change_waiters<C: ChangeOnce<Standing> + Copy>(
    slots: &mut Places<Slot>,
    home: Option<usize>,
    change: C,
)
    requires chained { AreChained slots.old.facts }
    requires settled { (s : Standing) → C.changed change (C.changed change s) ≡ C.changed change s }
    ensures chained { AreChained slots.new.facts }
    ensures standing { (q : ℕ) → standing_at slots.new.facts q ≡ cond (same_home home (home_at slots.old.facts q)) (option_map (C.changed change) (standing_at slots.old.facts q)) (standing_at slots.old.facts q) }
    ensures homes { (q : ℕ) → home_at slots.new.facts q ≡ home_at slots.old.facts q }
    ensures room { slots.new.room ≡ slots.old.room }
{
    if let Some(home) = home {
        chain::change_chain(slots, home, change);
    }
}
