//! The head of a volume.
ghost use Rattle.std.specs.Prelude.{◌≡◌, ◌≢◌, ◌++◌, ℕ, List, IfSome, IfNone, OnOk, MatchOption};
ghost use Rattle.rk_record.specs.HallNumbers.{hall_number};
ghost use Rattle.rk_record.specs.declared.hall_no.HallNo.{HallNo as HallNos};
ghost use Rattle.rk_volumes.specs.declared.head.Head.{Head as Heads};
ghost use Rattle.rk_volumes.specs.Format.{title, head_bytes, IsHead};

use crate::numbers::{long, word};
use rk_record::HallNo;
use std::alloc::AllocError;

/// The line that a file begins with.
const TITLE: &[u8] = b"reqkeyd volume 1\n";

/// Whose volume it is, and which.
#[derive(Clone, Copy, Debug, PartialEq, Eq)]
pub struct Head {
    /// The hall whose record it is of.
    pub hall: HallNo,
    /// For how many seconds a key is negative whose handler did not complete it.
    pub negative: u32,
    /// Which volume of the hall it is, from 1.
    pub index: u64,
    /// How many steps the volumes before it have.
    pub before: u64,
}

/// What follows the line that a file begins with.
pub(crate) fn behind_title(bytes: &[u8]) -> Option<&[u8]>
    ensures found { IfSome result (λ rest. bytes.now ≡ title ++ rest.now) }
    ensures only { IfNone result ((more : List ℕ) → bytes.now ≢ title ++ more) }
{
    if bytes.len() < TITLE.len() {
        return None;
    }
    let (front, rest) = bytes.split_at(TITLE.len());
    if front == TITLE { Some(rest) } else { None }
}

/// The hall of this number.
fn hall_of(number: u8) -> Option<HallNo>
    ensures { MatchOption result ((h : HallNos) → number ≢ hall_number h) (λ h. number ≡ hall_number h) }
{
    match number {
        0 => Some(HallNo::Zero),
        1 => Some(HallNo::One),
        2 => Some(HallNo::Two),
        3 => Some(HallNo::Three),
        _ => None,
    }
}

/// The head at the front of the bytes, the number of the volume's steps, and what follows them.
pub(crate) fn read_head(bytes: &[u8]) -> Option<(Head, u64, &[u8])>
    ensures found { IfSome result (λ x. IsHead x.0 x.1 × (bytes.now ≡ head_bytes x.0 x.1 ++ x.2.now)) }
    ensures only { IfNone result ((h : Heads) (count : ℕ) (left : List ℕ) → IsHead h count → bytes.now ≢ head_bytes h count ++ left) }
{
    let (hall, rest) = bytes.split_first()?;
    let hall = hall_of(*hall)?;
    let (negative, rest) = word(rest)?;
    let (index, rest) = long(rest)?;
    let (before, rest) = long(rest)?;
    let (count, rest) = long(rest)?;
    let head = Head {
        hall,
        negative,
        index,
        before,
    };
    Some((head, count, rest))
}

impl Head {
    ghost use Rattle.std.specs.Prelude.{◌≡◌, ◌++◌, OnOk};
    ghost use Rattle.rk_volumes.specs.Format.{title, head_bytes, IsHead};

    /// Appends the line and the head of a volume with so many steps. An `Err` is out of memory, and a part of it may have been appended.
    pub(crate) fn put(&self, out: &mut Vec<u8>, count: u64) -> Result<(), AllocError>
        ensures bytes { OnOk result (out.new.items ≡ out.old.items ++ (title ++ head_bytes self.now count)) }
        ensures is { OnOk result (IsHead self.now count) }
    {
        out.extend_from_slice(TITLE)?;
        out.extend_from_slice(&[self.hall.number()])?;
        out.extend_from_slice(&self.negative.to_be_bytes())?;
        out.extend_from_slice(&self.index.to_be_bytes())?;
        out.extend_from_slice(&self.before.to_be_bytes())?;
        out.extend_from_slice(&count.to_be_bytes())
    }
}
