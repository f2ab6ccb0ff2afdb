//! The steps of a volume that is being recorded.
ghost use Rattle.std.specs.Prelude.{◌≡◌, ◌↔◌, ◌+◌, ◌-◌, ◌<◌, ◌≤◌, ◌++◌, ◌∷◌, [], length, vec_len, vec_capacity, IfOk, OnErr, OnOk, IsOk, Err};

use crate::fault::HallFault;
use crate::recorded::Recorded;
use crate::room::Room;
use rk_names::Payload;
use std::alloc::{AllocError, Global};
use std::marker::Model;
use std::mem;

/// For how many steps memory is taken at a time.
const BLOCK: usize = 8_192;

/// The steps of a volume that is being recorded. Of its places and of the memory for payloads it keeps what later steps need.
#[derive(Drop)]
pub(crate) struct Journal {
    /// Where memory comes from.
    alloc: Global,
    /// How many steps it may have.
    places: usize,
    /// How many places are kept.
    reserved: usize,
    /// For how many payloads room is kept.
    ends: usize,
    /// The room, of which there may be more than is kept.
    rooms: Vec<Room>,
    /// The steps that were recorded, oldest first.
    steps: Vec<Recorded>,
    /// Memory for the steps of the next volume.
    spare: Vec<Recorded>,
}

impl Model for Journal {
    ghost use Rattle.std.specs.Prelude.{vec_capacity, vec_len};
    ghost use Rattle.rk_record.specs.Journal.{JournalShown, journal_code, IsJournal};

    ghost Value = { JournalShown };

    ghost coded = { journal_code };

    ghost view = { λ j. record { places = j.places; reserved = j.reserved; ends = j.ends; steps = j.steps.items } };

    ghost invariant = { λ j. IsJournal j.steps.items j.places j.reserved j.ends (vec_capacity j.steps) (vec_len j.rooms) };
}

impl Journal {
    /// No step, and nothing kept.
    pub(crate) fn new(alloc: Global, places: usize) -> Journal
        requires { places ≤ 1048576 }
        ensures { result ≡ record { places = places; reserved = 0; ends = 0; steps = [] } }
    {
        Journal {
            alloc,
            places,
            reserved: 0,
            ends: 0,
            rooms: Vec::new(alloc),
            steps: Vec::new(alloc),
            spare: Vec::new(alloc),
        }
    }

    /// The steps that were recorded, oldest first.
    pub(crate) fn steps(&self) -> &[Recorded]
        ensures { result.now ≡ self.now.steps }
    {
        &self.steps
    }

    /// Where memory comes from.
    pub(crate) fn alloc(&self) -> Global {
        self.alloc
    }

    /// How many places are kept.
    pub(crate) fn reserved(&self) -> usize
        ensures { result ≡ self.now.reserved }
    {
        self.reserved
    }

    /// For how many payloads room is kept.
    pub(crate) fn ends(&self) -> usize
        ensures { result ≡ self.now.ends }
    {
        self.ends
    }

    /// How many places are free: neither taken nor kept.
    pub(crate) fn free(&self) -> usize
        ensures { result ≡ self.now.places - (length self.now.steps + self.now.reserved) }
    {
        self.places - self.steps.len() - self.reserved
    }

    /// Keeps so many places more. Full comes if there are not so many that are free; a refusal changes nothing, and none comes for no place.
    #[inline(always)]
    pub(crate) fn reserve(&mut self, count: usize) -> Result<(), HallFault>
        requires { count ≤ 1048576 }
        ensures ok { OnOk result (self.new ≡ record self.old { reserved = self.old.reserved + count }) }
        ensures err { OnErr result (self.new ≡ self.old) }
        ensures none { count ≡ 0 → IsOk result }
        ensures full { (result ≡ Err HallFault.Full) ↔ (self.old.places - (length self.old.steps + self.old.reserved) < count) }
    {
        if count == 0 {
            return Ok(());
        }
        if self.free() < count {
            return Err(HallFault::Full);
        }
        let needed = self.reserved + count;
        let left = self.places - self.steps.len();
        if make_places(&mut self.steps, needed, left).is_err() {
            return Err(HallFault::NoMemory);
        }
        self.reserved += count;
        Ok(())
    }

    /// Keeps room for so many payloads more. A refusal changes nothing.
    #[inline(always)]
    pub(crate) fn reserve_ends(&mut self, count: usize) -> Result<(), AllocError>
        requires { (count ≤ 1048576) × (self.old.ends ≤ 1048576) }
        ensures ok { OnOk result (self.new ≡ record self.old { ends = self.old.ends + count }) }
        ensures err { OnErr result (self.new ≡ self.old) }
    {
        make_rooms(self.alloc, &mut self.rooms, self.ends + count)?;
        self.ends += count;
        Ok(())
    }

    /// Keeps so many places, and room for so many payloads, of those that are kept.
    pub(crate) fn keep(&mut self, reserved: usize, ends: usize)
        requires { (reserved ≤ self.old.reserved) × (ends ≤ self.old.ends) }
        ensures { self.new ≡ record self.old { reserved = reserved; ends = ends } }
    {
        self.reserved = reserved;
        self.ends = ends;
    }

    /// A copy of the payload of an end: it shares the bytes, or has them in the room that is kept for the longest payload. It takes no memory.
    pub(crate) fn copy_of_end(&mut self, payload: &Payload) -> Payload
        requires { 1 ≤ self.old.ends }
        ensures copy { result ≡ payload.now }
        ensures journal { self.new ≡ record self.old { ends = self.old.ends - 1 } }
    {
        match payload.again() {
            Some(copy) => {
                self.ends -= 1;
                copy
            }
            None => self.take_room().fill(payload),
        }
    }

    /// Room for a payload, of that which is kept.
    fn take_room(&mut self) -> Room
        requires { 1 ≤ self.old.ends }
        ensures { self.new ≡ record self.old { ends = self.old.ends - 1 } }
    {
        self.ends -= 1;
        match self.rooms.pop() {
            Some(room) => room,
            None => unreachable!(),
        }
    }

    /// Records a step in one of the places that are kept. It takes no memory.
    pub(crate) fn push(&mut self, step: Recorded)
        requires { 1 ≤ self.old.reserved }
        ensures { self.new ≡ record self.old { reserved = self.old.reserved - 1; steps = self.old.steps ++ step ∷ [] } }
    {
        self.reserved -= 1;
        self.steps.push_reserved(step);
    }

    /// Takes the memory of these steps for those of this volume, if it has none yet and no more memory, and keeps its own for the next volume. Else it keeps
    /// that of these steps. They are forgotten either way. Returns the memory that was kept before.
    // (Memory whose steps were just dropped still lies in the processor's cache, and that which was kept does not.)
    pub(crate) fn keep_memory(&mut self, mut steps: Vec<Recorded>) -> Vec<Recorded>
        ensures { self.new ≡ self.old }
    {
        if self.steps.is_empty() && self.steps.capacity() <= steps.capacity() {
            steps.clear();
            mem::swap(&mut self.steps, &mut steps);
        }
        mem::replace(&mut self.spare, steps)
    }

    /// Hands the steps out, and goes on with none and with so many places, in the memory that is kept for them. A refusal changes nothing.
    pub(crate) fn roll(&mut self, places: usize) -> Result<Vec<Recorded>, AllocError>
        requires { (self.old.reserved ≤ places) × (places ≤ 1048576) }
        ensures ok { IfOk result (λ steps. (steps.items ≡ self.old.steps)
            × (self.new ≡ record { places = places; reserved = self.old.reserved; ends = self.old.ends; steps = [] })) }
        ensures err { OnErr result (self.new ≡ self.old) }
    {
        let mut fresh = mem::replace(&mut self.spare, Vec::new(self.alloc));
        fresh.clear();
        fresh.reserve(self.reserved)?;
        self.places = places;
        Ok(mem::replace(&mut self.steps, fresh))
    }
}

/// Makes room for so many steps more. Where there is none, it is made for all that are left of the volume, or for [`BLOCK`], so that the steps that
/// were recorded are rarely copied while others wait for the hall.
fn make_places(steps: &mut Vec<Recorded>, needed: usize, left: usize) -> Result<(), AllocError>
    requires { (needed ≤ left) × (left ≤ 1048576) }
    ensures same { steps.new.items ≡ steps.old.items }
    ensures made { OnOk result (vec_len steps.new + needed ≤ vec_capacity steps.new) }
    ensures kept { vec_capacity steps.old ≤ vec_capacity steps.new }
{
    if steps.capacity() - steps.len() >= needed {
        return Ok(());
    }
    steps.reserve(needed.max(left.min(BLOCK)))
}

/// Makes rooms until there are so many; where an allocation fails, there are as many as before or more.
#[inline(always)]
fn make_rooms(alloc: Global, rooms: &mut Vec<Room>, count: usize) -> Result<(), AllocError>
    ensures more { vec_len rooms.old ≤ vec_len rooms.new }
    ensures made { OnOk result (count ≤ vec_len rooms.new) }
{
    while rooms.len() < count {
        let room = Room::new(alloc)?;
        rooms.push(room)?;
    }
    Ok(())
}
