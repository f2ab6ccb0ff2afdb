//! What ties the volumes of a run together.
ghost use Rattle.std.specs.Prelude.{◌≡◌, ◌≢◌, ◌++◌, ℕ, List, IfSome, IfNone, MatchOption, IsTrue, ◌↔◌, Bool};
ghost use Rattle.sha2.specs.Sha256.{sha256};
ghost use Rattle.rk_volumes.specs.declared.seal.Seal.{Seal as Seals};
ghost use Rattle.rk_volumes.specs.Seals.{sealed_title, seal_bytes, mark, summed, IsSeal, HasNoSum};

use crate::numbers::array;
use sha2::{Digest, Sha256};
use std::alloc::AllocError;

/// The line that a volume in a seal begins with.
const SEALED: &[u8] = b"reqkeyd volume 2\n";

/// The number of a run, which is drawn at its start.
pub type RunNumber = [u8; 16];

/// A sum of bytes, by SHA-256.
pub type Sum = [u8; 32];

/// What ties a volume to the others of its run.
#[derive(Clone, Copy, Debug, PartialEq, Eq)]
pub struct Seal {
    /// Whether the daemon has ended by itself, so that no volume of the hall follows.
    pub closing: bool,
    /// The number of its run.
    pub run: RunNumber,
    /// The sum of the volume of its hall before it, and zeros in the first one.
    pub previous: Sum,
}

/// A seal as it stands around a volume in a file.
#[derive(Clone, Copy, Debug, PartialEq, Eq)]
pub struct Sealed {
    /// What stands before the volume.
    pub seal: Seal,
    /// The sum of all that stands before it in the file.
    pub sum: Sum,
}

/// What follows the line of a volume in a seal.
pub(crate) fn behind_sealed(bytes: &[u8]) -> Option<&[u8]>
    ensures found { IfSome result (λ rest. bytes.now ≡ sealed_title ++ rest.now) }
    ensures only { IfNone result ((more : List ℕ) → bytes.now ≢ sealed_title ++ more) }
{
    if bytes.len() < SEALED.len() {
        return None;
    }
    let (front, rest) = bytes.split_at(SEALED.len());
    if front == SEALED { Some(rest) } else { None }
}

/// Whether this mark closes a record.
fn closing_of(number: u8) -> Option<bool>
    ensures { MatchOption result ((closing : Bool) → number ≢ mark closing) (λ closing. number ≡ mark closing) }
{
    match number {
        0 => Some(false),
        1 => Some(true),
        _ => None,
    }
}

/// The mark of a volume that closes a record, or does not.
fn mark(closing: bool) -> u8
    ensures { result ≡ mark closing }
{
    if closing { 1 } else { 0 }
}

/// The seal at the front of the bytes, and what follows it.
fn read_seal(bytes: &[u8]) -> Option<(Seal, &[u8])>
    ensures found { IfSome result (λ x. IsSeal x.0 × (bytes.now ≡ seal_bytes x.0 ++ x.1.now)) }
    ensures only { IfNone result ((s : Seals) (left : List ℕ) → IsSeal s → bytes.now ≢ seal_bytes s ++ left) }
{
    let (number, rest) = bytes.split_first()?;
    let closing = closing_of(*number)?;
    let (run, rest) = array(rest)?;
    let (previous, rest) = array(rest)?;
    let seal = Seal {
        closing,
        run,
        previous,
    };
    Some((seal, rest))
}

/// The seal at the front of what a sum is of, and the volume after it.
pub(crate) fn split_seal(front: &[u8]) -> Option<(Seal, &[u8])>
    ensures found { IfSome result (λ x. IsSeal x.0 × (front.now ≡ summed x.0 x.1.now)) }
    ensures only { IfNone result ((s : Seals) (volume : List ℕ) → IsSeal s → front.now ≢ summed s volume) }
{
    let Some(rest) = behind_sealed(front) else {
        return None;
    };
    read_seal(rest)
}

/// Whether bytes have this sum.
fn has_sum(bytes: &[u8], sum: &Sum) -> bool
    ensures { IsTrue result ↔ (sha256 bytes.now ≡ sum.now) }
{
    let digest = Sha256::digest(bytes);
    digest.as_slice() == sum.as_slice()
}

/// What the sum at the end of a file is of, and the sum.
pub(crate) fn split_sum(file: &[u8]) -> Option<(&[u8], &Sum)>
    ensures found { IfSome result (λ x. (file.now ≡ x.0.now ++ x.1.now) × (x.1.now ≡ sha256 x.0.now)) }
    ensures only { IfNone result (HasNoSum file.now) }
{
    let Some((front, sum)) = file.split_last_chunk::<32>() else {
        return None;
    };
    if has_sum(front, sum) {
        Some((front, sum))
    } else {
        None
    }
}

impl Seal {
    ghost use Rattle.std.specs.Prelude.{◌≡◌, ◌++◌, OnOk};
    ghost use Rattle.rk_volumes.specs.Seals.{sealed_title, seal_bytes, IsSeal};

    /// Appends the line and the seal. An `Err` is out of memory, and a part of it may have been appended.
    pub(crate) fn put(&self, out: &mut Vec<u8>) -> Result<(), AllocError>
        ensures bytes { OnOk result (out.new.items ≡ out.old.items ++ (sealed_title ++ seal_bytes self.now)) }
        ensures is { IsSeal self.now }
    {
        out.extend_from_slice(SEALED)?;
        out.extend_from_slice(&[mark(self.closing)])?;
        out.extend_from_slice(&self.run)?;
        out.extend_from_slice(&self.previous)
    }
}
