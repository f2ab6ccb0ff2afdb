//! Chains of waiters through their slots, each headed by the slot of the construction for which they wait.
ghost use Rattle.std.specs.Prelude.{◌≡◌, ℕ, None, Some, true, cond, nat_eq, is_some, List};
ghost use Rattle.std.specs.FinMap as map;
ghost use Rattle.rk_auth.specs.Chains.{standing_at, first_at, home_at, next_at, link_in, rehomed, AreChained, IsChainOf, with_first, with_link, with_before, with_next, in_standing, changed_if, led_to, changed_each_at};

use crate::places::Places;
use crate::slot::{Link, Slot, Standing};
use rk_table::ChangeOnce;

/// The slot heads a chain that begins elsewhere.
#[derive(Clone, Copy)]
struct SetFirst(Option<usize>);

impl ChangeOnce<Slot> for SetFirst {
    ghost changed = { λ c s. with_first c.0 s };

    fn change(self, slot: &mut Slot) {
        slot.first = self.0;
    }
}

/// The slot stands elsewhere among waiters, or nowhere.
#[derive(Clone, Copy)]
struct SetLink(Option<Link>);

impl ChangeOnce<Slot> for SetLink {
    ghost changed = { λ c s. with_link c.0 s };

    fn change(self, slot: &mut Slot) {
        slot.link = self.0;
    }
}

/// Another stands before the slot.
#[derive(Clone, Copy)]
struct SetBefore(Option<usize>);

impl ChangeOnce<Slot> for SetBefore {
    ghost changed = { λ c s. with_before c.0 s };

    fn change(self, slot: &mut Slot) {
        if let Some(link) = &mut slot.link {
            link.before = self.0;
        }
    }
}

/// Another stands after the slot.
#[derive(Clone, Copy)]
struct SetNext(Option<usize>);

impl ChangeOnce<Slot> for SetNext {
    ghost changed = { λ c s. with_next c.0 s };

    fn change(self, slot: &mut Slot) {
        if let Some(link) = &mut slot.link {
            link.next = self.0;
        }
    }
}

/// A change of who stands in the slot, and of no link.
#[derive(Clone, Copy)]
pub struct InSlot<C>(pub C);

impl<C: ChangeOnce<Standing> + Copy> ChangeOnce<Slot> for InSlot<C> {
    ghost changed = { λ c s. in_standing (C.changed c.0) s };

    fn change(self, slot: &mut Slot) {
        self.0.change(&mut slot.standing);
    }
}

/// The first who waits for what stands at the place.
pub fn first(slots: &Places<Slot>, home: usize) -> Option<usize>
    ensures { result ≡ first_at slots.now.facts home }
{
    slots.get(home)?.first
}

/// Who waits after the one at the place.
fn next(slots: &Places<Slot>, place: usize) -> Option<usize>
    ensures { result ≡ next_at slots.now.facts place }
{
    slots.get(place)?.link?.next
}

fn set_before(slots: &mut Places<Slot>, place: Option<usize>, before: Option<usize>)
    ensures facts { slots.new.facts ≡ changed_if place (with_before before) slots.old.facts }
    ensures room { slots.new.room ≡ slots.old.room }
{
    if let Some(place) = place {
        slots.change(place, SetBefore(before));
    }
}

fn set_next(slots: &mut Places<Slot>, home: usize, before: Option<usize>, next: Option<usize>)
    ensures facts { slots.new.facts ≡ led_to home before next slots.old.facts }
    ensures room { slots.new.room ≡ slots.old.room }
{
    match before {
        None => slots.change(home, SetFirst(next)),
        Some(before) => slots.change(before, SetNext(next)),
    }
}

/// The one at the place waits, before all who wait for what stands at home. It takes no memory.
pub fn push(slots: &mut Places<Slot>, place: usize, home: usize)
    requires chained { AreChained slots.old.facts }
    requires place { is_some (map.get slots.old.facts place) ≡ true }
    requires home { is_some (map.get slots.old.facts home) ≡ true }
    requires idle { home_at slots.old.facts place ≡ None }
    ensures chained { AreChained slots.new.facts }
    ensures standing { (q : ℕ) → standing_at slots.new.facts q ≡ standing_at slots.old.facts q }
    ensures homes { (q : ℕ) → home_at slots.new.facts q ≡ cond (nat_eq place q) (Some home) (home_at slots.old.facts q) }
    ensures room { slots.new.room ≡ slots.old.room }
{
    let next = first(slots, home);
    let link = Link {
        home,
        before: None,
        next,
    };
    slots.change(place, SetLink(Some(link)));
    slots.change(home, SetFirst(Some(place)));
    set_before(slots, next, Some(place));
}

/// The one at the place waits no more: those before and after it are joined. It takes no memory, and goes through no chain.
pub fn unlink(slots: &mut Places<Slot>, place: usize)
    requires chained { AreChained slots.old.facts }
    ensures chained { AreChained slots.new.facts }
    ensures standing { (q : ℕ) → standing_at slots.new.facts q ≡ standing_at slots.old.facts q }
    ensures homes { (q : ℕ) → home_at slots.new.facts q ≡ cond (nat_eq place q) None (home_at slots.old.facts q) }
    ensures room { slots.new.room ≡ slots.old.room }
{
    let Some(link) = link_of(slots, place) else {
        return;
    };
    set_next(slots, link.home, link.before, link.next);
    set_before(slots, link.next, link.before);
    slots.change(place, SetLink(None));
}

fn link_of(slots: &Places<Slot>, place: usize) -> Option<Link>
    ensures { result ≡ link_in (map.get slots.now.facts place) }
{
    slots.get(place)?.link
}

/// Changes who stands at each place of the chain that home heads, and looks at no other. It takes no memory.
pub fn change_chain<C: ChangeOnce<Standing> + Copy>(
    slots: &mut Places<Slot>,
    home: usize,
    change: C,
)
    requires { AreChained slots.old.facts }
    ensures facts { (xs : List ℕ) → IsChainOf slots.old.facts home xs → slots.new.facts ≡ changed_each_at (in_standing (C.changed change)) xs slots.old.facts }
    ensures room { slots.new.room ≡ slots.old.room }
{
    let mut at = first(slots, home);
    for step in 0..slots.len() {
        let Some(place) = at else {
            return;
        };
        slots.change(place, InSlot(change));
        at = next(slots, place);
    }
}

/// All who wait in the chain that home heads wait in that of another. It takes no memory.
pub fn loosen(slots: &mut Places<Slot>, home: usize, other: usize)
    requires chained { AreChained slots.old.facts }
    requires other { is_some (map.get slots.old.facts other) ≡ true }
    requires apart { ¬ (other ≡ home) }
    ensures chained { AreChained slots.new.facts }
    ensures standing { (q : ℕ) → standing_at slots.new.facts q ≡ standing_at slots.old.facts q }
    ensures homes { (q : ℕ) → home_at slots.new.facts q ≡ rehomed home other (home_at slots.old.facts q) }
    ensures room { slots.new.room ≡ slots.old.room }
{
    for step in 0..slots.len() {
        let Some(place) = first(slots, home) else {
            return;
        };
        unlink(slots, place);
        push(slots, place, other);
    }
}
