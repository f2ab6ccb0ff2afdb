//! A hall: a book, and the record of its steps.
ghost use Rattle.std.specs.Prelude.{◌≡◌, ◌+◌, ◌≤◌, [], length, nat_le, IfOk, IsTrue, option_map};
ghost use Rattle.std.specs.FinMap as map;
ghost use Rattle.rk_machine.specs.World.{empty_world};
ghost use Rattle.rk_machine.specs.Owing.{constructions};
ghost use Rattle.rk_machine.specs.Views.{is_owed, is_ready, has_wait, depth_of, Peeks};
ghost use Rattle.rk_machine.specs.Event.{Event};
ghost use Rattle.rk_record.specs.Record.{IsRecord, IsFull, free};

use crate::hall_no::HallNo;
use crate::journal::Journal;
use crate::recorded::Recorded;
use rk_core::{Book, Limits};
use rk_machine::EventView;
use rk_names::{Description, Moment, Serial, SessionId, TypeName};
use std::alloc::{AllocError, Global};
use std::marker::Model;
use std::snapshot::Snapshot;

/// The most steps of a volume.
pub const MAX_STEPS: usize = 1_048_576;

/// The most places that an event may need: those of a REQUEST.
const MOST_NEEDED: usize = 6;

/// A book, and the record of its steps: the volume that is being recorded, where volumes before it were handed out.
///
/// Whatever the book owes is recorded without memory. From the moment on at which it is owed, a place in the volume and room for the payload of
/// an end are kept.
#[derive(Drop)]
pub struct Hall {
    /// Which hall it is.
    pub(crate) no: HallNo,
    /// The state of its steps.
    pub(crate) book: Book,
    /// The volume that is being recorded.
    pub(crate) journal: Journal,
    /// The state in which the volume opened.
    pub(crate) opening: Snapshot<Book>,
    /// How many steps the volumes before it have.
    pub(crate) before: u64,
    /// Which volume it is, from 1.
    pub(crate) index: u64,
    /// How many steps a volume may have.
    pub(crate) limit: usize,
}

impl Model for Hall {
    ghost use Rattle.rk_record.specs.Record.{HallShown, hall_code, IsSound};

    ghost Value = { HallShown };

    ghost coded = { hall_code };

    ghost view = { λ h. record {
      no = h.no;
      opening = h.opening.value;
      before = h.before;
      index = h.index;
      limit = h.limit;
      places = h.journal.places;
      world = h.book;
      steps = h.journal.steps;
    } };

    ghost invariant = { λ h. IsSound h.opening.value h.before h.limit h.journal.places h.book h.journal.steps h.journal.reserved h.journal.ends };
}

impl Hall {
    /// A hall with an empty book, whose volumes may have so many steps, at least 1 and at most 1,048,576. An `Err` is out of memory.
    pub fn new(alloc: Global, limits: Limits, no: HallNo, steps: usize) -> Result<Hall, AllocError>
        requires limits { 1 ≤ limits.stride }
        requires steps { (1 ≤ steps) × (steps ≤ 1048576) }
        ensures { IfOk result (λ h. h ≡ record {
          no = no;
          opening = empty_world limits.negative limits.first limits.stride;
          before = 0;
          index = 1;
          limit = steps;
          places = steps;
          world = empty_world limits.negative limits.first limits.stride;
          steps = [];
        }) }
    {
        let book = Book::new(alloc, limits)?;
        let opening = Snapshot::of(&book);
        Ok(Hall {
            no,
            book,
            journal: Journal::new(alloc, steps),
            opening,
            before: 0,
            index: 1,
            limit: steps,
        })
    }

    /// Which hall it is.
    pub fn no(&self) -> HallNo
        ensures { result ≡ self.now.no }
    {
        self.no
    }

    /// Which volume it records, from 1.
    pub fn index(&self) -> u64
        ensures { result ≡ self.now.index }
    {
        self.index
    }

    /// How many steps the volumes before it have.
    pub fn before(&self) -> u64
        ensures { result ≡ self.now.before }
    {
        self.before
    }

    /// How many steps it has taken, those of the volumes before it too: the number of the last one.
    pub fn count(&self) -> u64
        ensures count { result ≡ self.now.before + length self.now.steps }
        ensures sound { IsRecord self.now }
    {
        self.before + self.journal.steps().len() as u64
    }

    /// The steps of the volume that it records.
    pub fn steps(&self) -> &[Recorded]
        ensures { result.now ≡ self.now.steps }
    {
        self.journal.steps()
    }

    /// Whether any event finds the places that it may need, so that none is refused as full.
    pub fn has_places(&self) -> bool
        ensures exact { result ≡ nat_le 6 (free self.now) }
        ensures any { IsTrue result → (event : Event) → ¬ (IsFull self.now event) }
    {
        self.journal.free() >= MOST_NEEDED
    }

    /// How many keys there are, however they stand: those under construction too.
    pub fn keys(&self) -> usize
        ensures { result ≡ map.len self.now.world.keys }
    {
        self.book.keys()
    }

    /// How many constructions have not ended.
    pub fn constructions(&self) -> usize
        ensures { result ≡ constructions self.now.world }
    {
        self.book.constructions()
    }

    /// Whether the event is owed: nothing may refuse it.
    pub fn owes(&self, event: &EventView<'_>) -> bool
        ensures { result ≡ is_owed self.now.world event.now }
    {
        self.book.owes(event)
    }

    /// Whether the session waits.
    pub fn waits(&self, id: &SessionId) -> bool
        ensures { result ≡ has_wait self.now.world id.now }
    {
        self.book.waits(id)
    }

    /// Whether the session's wait may be collected.
    pub fn ready(&self, id: &SessionId) -> bool
        ensures { result ≡ is_ready self.now.world id.now }
    {
        self.book.ready(id)
    }

    /// How deep in a chain of authorities the construction of a key is, while its authority is unspent.
    pub fn depth(&self, key: Serial) -> Option<u8>
        ensures { result ≡ depth_of self.now.world key }
    {
        self.book.depth(key)
    }

    /// The payload of the key that a search hits, where it is Positive: it is searched in the context of the unspent authority of a key.
    pub fn peek(
        &self,
        key: Serial,
        typ: &TypeName,
        description: &Description,
        now: Moment,
    ) -> Option<&[u8]>
        ensures { Peeks self.now.world key typ.now description.now now (option_map (λ bytes. bytes.now) result) }
    {
        self.book.peek(key, typ, description, now)
    }
}
