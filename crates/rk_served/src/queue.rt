//! Who may move, and who waits for which key.
ghost use Rattle.std.specs.Prelude.{◌≡◌, ◌⊎◌, ◌<◌, false, IfSome, IfNone, OnOk};
ghost use Rattle.std.specs.FinMap as map;
ghost use Rattle.std.specs.BinaryHeap.{IsHeap, heap_items};
ghost use Rattle.std.proofs.Props.{props};
ghost use Rattle.rk_served.specs.Standing.{comes_before};
ghost use Rattle.rk_served.specs.Movers.{first_is_greatest};

use rk_names::{Serial, SessionId};
use rk_table::HashTable;
use std::alloc::{AllocError, Global};
use std::cmp::Reverse;
use std::collections::BinaryHeap;

/// The sessions that may move, in a heap with the first of them at its top, and by each key those that wait for it. One that can't move, or waits
/// no more, may stand here too: it is taken out when it is looked at.
#[derive(Drop)]
pub struct Queue {
    /// The sessions that may move, the first of them at the top.
    movers: BinaryHeap<Reverse<SessionId>>,
    /// By the serial of a key the sessions that wait for it.
    waiting: HashTable<Vec<Reverse<SessionId>>>,
    // The heap keeps its order, so its top is the first session that may move.
    ghost in_order: { IsHeap first_is_greatest (heap_items movers) } by { Prim.hlevel props },
}

impl Queue {
    ghost use Rattle.rk_served.specs.Queued.{size, waiters_at, IsMover, IsWaiter, KeepsWaiters, KeepsMovers, KeepsKnown};

    /// Nobody. It takes no memory.
    pub fn new(alloc: Global) -> Queue
        ensures { (s : SessionId) → IsMover result s → ⊥ }
    {
        Queue {
            movers: BinaryHeap::new(alloc),
            waiting: HashTable::new(alloc),
        }
    }

    /// This one may move. The only refusal is out of memory.
    pub fn push(&mut self, who: SessionId) -> Result<(), AllocError>
        ensures who { OnOk result (IsMover self.new who) }
        ensures movers { OnOk result (KeepsMovers self.old self.new) }
        ensures waiters { self.new.waiting ≡ self.old.waiting }
    {
        self.movers.push(Reverse(who))?;
        Ok(())
    }

    /// Takes out the first of those that may move. It takes no memory, and compares no more of them than the logarithm of their number says.
    pub fn pop(&mut self) -> Option<SessionId>
        ensures others { IfSome result (λ who. (s : SessionId) → IsMover self.old s → (s ≡ who) ⊎ IsMover self.new s) }
        ensures first { IfSome result (λ who. (s : SessionId) → IsMover self.new s → comes_before s who ≡ false) }
        ensures fewer { IfSome result (λ who. size self.new < size self.old) }
        ensures none { IfNone result ((s : SessionId) → IsMover self.old s → ⊥) }
        ensures still_none { IfNone result ((s : SessionId) → IsMover self.new s → ⊥) }
        ensures waiters { self.new.waiting ≡ self.old.waiting }
    {
        match self.movers.pop() {
            Some(Reverse(who)) => Some(who),
            None => None,
        }
    }

    /// Takes out those that wait for a key. It takes no memory.
    fn taken(&mut self, alloc: Global, key: Serial) -> Vec<Reverse<SessionId>>
        ensures items { result.items ≡ waiters_at self.old.waiting.facts key }
        ensures facts { self.new.waiting.facts ≡ map.remove self.old.waiting.facts key }
        ensures movers { self.new.movers ≡ self.old.movers }
    {
        match self.waiting.take(key.get()) {
            Some(list) => list,
            None => Vec::new(alloc),
        }
    }

    /// This one waits for the key. The only refusal is out of memory.
    pub fn park(&mut self, alloc: Global, key: Serial, who: SessionId) -> Result<(), AllocError>
        ensures who { OnOk result (IsWaiter self.new key who) }
        ensures movers { self.new.movers ≡ self.old.movers }
        ensures waiters { OnOk result (KeepsWaiters self.old self.new) }
    {
        let mut list = self.taken(alloc, key);
        list.push(Reverse(who))?;
        self.waiting.reserve(1)?;
        self.waiting.insert(key.get(), list);
        Ok(())
    }

    /// All who wait for the key may move. The only refusal is out of memory.
    pub fn wake(&mut self, alloc: Global, key: Serial) -> Result<(), AllocError>
        ensures woken { OnOk result ((s : SessionId) → IsWaiter self.old key s → IsMover self.new s) }
        ensures movers { OnOk result (KeepsMovers self.old self.new) }
        ensures known { OnOk result (KeepsKnown self.old self.new) }
    {
        let mut woken = BinaryHeap::from(self.taken(alloc, key));
        self.movers.append(&mut woken)?;
        Ok(())
    }
}
