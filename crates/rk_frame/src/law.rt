//! What any list of calls comes to.

ghost use Rattle.rk_frame.specs.Laws.{HasOneReading, HasAReading, HandsOutInOrder, HasHandedOutAll, AnswersTheNext, KeepsItsFault};

/// The law of any cutting. It does nothing: its contract is what follows from those of
/// [`Frames::feed`](crate::Frames::feed) and [`Frames::next`](crate::Frames::next), each of which
/// makes one of the calls that the law speaks of.
///
/// A stream of bytes has one list of bodies and one rest. After any list of calls the bodies handed
/// out are the first ones of the joined pieces, in order, and what is held has the others. `next`
/// answers the first of those, and if none is left, the fault of the rest or else `More`. After a
/// fault, whatever is fed, `next` answers that fault alone.
pub fn any_cutting()
    ensures one_reading { HasOneReading }
    ensures a_reading { HasAReading }
    ensures in_order { HandsOutInOrder }
    ensures all { HasHandedOutAll }
    ensures answers { AnswersTheNext }
    ensures fault_stays { KeepsItsFault }
{}
