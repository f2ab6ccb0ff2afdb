//! A whole volume, written and read.
ghost use Rattle.std.specs.Prelude.{◌≡◌, ◌++◌, ◌<◌, ℕ, List, Option, IfOk, IfErr, MatchResult, length};
ghost use Rattle.std.specs.List.{flat_map, AllByRecursion};
ghost use Rattle.rk_record.specs.declared.recorded.Recorded.{Recorded as Steps};
ghost use Rattle.rk_volumes.specs.declared.head.Head.{Head as Heads};
ghost use Rattle.rk_volumes.specs.declared.seal.Sealed.{Sealed as InSeals};
ghost use Rattle.rk_volumes.specs.Rules.{IsStep};
ghost use Rattle.rk_volumes.specs.Format.{step_bytes, IsStored, IsFaultOf, IsMissing};
ghost use Rattle.rk_volumes.specs.Seals.{BeginsSealed};
ghost use Rattle.rk_volumes.specs.Filed.{IsFiled, IsUnfiled};

use crate::fault::{Fault, Unread};
use crate::head::{Head, behind_title, read_head};
use crate::seal::{Seal, Sealed, Sum, behind_sealed, split_seal, split_sum};
use crate::step::{put_step, read_step};
use rk_record::Recorded;
use sha2::{Digest, Sha256};
use std::alloc::Global;
use std::io;
use std::io::Write;

/// A volume as a file has it.
#[derive(Debug, Drop)]
pub struct Stored {
    /// Whose volume it is, and which.
    pub head: Head,
    /// Its steps, in order.
    pub steps: Vec<Recorded>,
    /// What ties it to the others of its run; a volume of version 1 has none.
    pub seal: Option<Sealed>,
}

impl Stored {
    /// The volume that all of the bytes are, of either version. A [`Fault`] comes exactly if they are none, with what is wrong first: of a volume in a
    /// seal its sum, and then what is at the front. `NoMemory` comes if an allocation was refused, whatever the bytes are.
    pub fn read(alloc: Global, file: &[u8]) -> Result<Stored, Fault>
        // What is read is what the file has.
        ensures found { IfOk result (λ v. IsFiled v.head v.steps.items v.seal file.now) }
        // What was stored is read, unless memory runs out.
        ensures only { (h : Heads) (steps : List Steps) (seal : Option InSeals) → IsFiled h steps seal file.now
            → MatchResult result (λ v. (v.head ≡ h) × (v.steps.items ≡ steps) × (v.seal ≡ seal)) (λ f. f ≡ Fault.NoMemory) }
        // What is wrong with a file that is refused.
        ensures fault { IfErr result (λ f. IsUnfiled file.now f) }
    {
        if let Some(_) = behind_sealed(file) {
            return read_sealed(alloc, file);
        }
        let (head, steps) = read_volume(alloc, file)?;
        Ok(Stored {
            head,
            steps,
            seal: None,
        })
    }
}

/// The volume of a file that begins as one in a seal.
fn read_sealed(alloc: Global, file: &[u8]) -> Result<Stored, Fault>
    requires { BeginsSealed file.now }
    ensures found { IfOk result (λ v. IsFiled v.head v.steps.items v.seal file.now) }
    ensures only { (h : Heads) (steps : List Steps) (seal : Option InSeals) → IsFiled h steps seal file.now
        → MatchResult result (λ v. (v.head ≡ h) × (v.steps.items ≡ steps) × (v.seal ≡ seal)) (λ f. f ≡ Fault.NoMemory) }
    ensures fault { IfErr result (λ f. IsUnfiled file.now f) }
{
    let Some((front, sum)) = split_sum(file) else {
        return Err(Fault::Sum);
    };
    let Some((seal, volume)) = split_seal(front) else {
        return Err(Fault::Head);
    };
    let (head, steps) = read_volume(alloc, volume)?;
    let sum = *sum;
    let sealed = Sealed { seal, sum };
    Ok(Stored {
        head,
        steps,
        seal: Some(sealed),
    })
}

/// The head and the steps of the volume that all of the bytes are.
fn read_volume(alloc: Global, file: &[u8]) -> Result<(Head, Vec<Recorded>), Fault>
    ensures found { IfOk result (λ v. IsStored v.0 v.1.items file.now) }
    ensures only { (h : Heads) (steps : List Steps) → IsStored h steps file.now
        → MatchResult result (λ v. (v.0 ≡ h) × (v.1.items ≡ steps)) (λ f. f ≡ Fault.NoMemory) }
    ensures fault { IfErr result (λ f. IsFaultOf file.now f) }
{
    let Some(rest) = behind_title(file) else {
        return Err(Fault::Title);
    };
    let Some((head, count, rest)) = read_head(rest) else {
        return Err(Fault::Head);
    };
    let (steps, rest) = read_steps(alloc, count, rest)?;
    if !rest.is_empty() {
        return Err(Fault::Trailing);
    }
    Ok((head, steps))
}

/// So many steps at the front of the bytes, and what follows them; or the first that is not there.
fn read_steps(alloc: Global, count: u64, bytes: &[u8]) -> Result<(Vec<Recorded>, &[u8]), Fault>
    ensures found { IfOk result (λ x. (length x.0.items ≡ count) × AllByRecursion IsStep x.0.items
        × (bytes.now ≡ flat_map step_bytes x.0.items ++ x.1.now)) }
    ensures fault { IfErr result (λ f. IsMissing bytes.now count f) }
{
    let mut steps = Vec::new(alloc);
    let mut rest = bytes;
    for place in 0..count {
        match read_step(alloc, rest) {
            Ok((step, behind)) => {
                let Ok(()) = steps.push(step) else {
                    return Err(Fault::NoMemory);
                };
                rest = behind;
            }
            Err(Unread::Bad) => return Err(Fault::Step(place + 1)),
            Err(Unread::NoMemory) => return Err(Fault::NoMemory),
        }
    }
    Ok((steps, rest))
}

impl Seal {
    ghost use Rattle.std.specs.Prelude.{IfOk};
    ghost use Rattle.rk_volumes.specs.Filed.{HasFiled};

    /// Writes the volume of this head and these steps in this seal, as [`Stored::read`] reads it, a step at a time. It gives the sum, which the next volume
    /// of the hall names. An `Err` is that of the writer, or `OutOfMemory`; a part of the volume may have been written then.
    pub fn store<W: Write>(
        &self,
        alloc: Global,
        head: &Head,
        steps: &[Recorded],
        writer: &mut W,
    ) -> io::Result<Sum>
        ensures { IfOk result (λ sum. HasFiled head.now steps.now self.now sum (W.contents writer.old) (W.contents writer.new)) }
    {
        let mut hasher = Sha256::new();
        let mut text = Vec::new(alloc);
        self.put(&mut text)?;
        head.put(&mut text, steps.len() as u64)?;
        hasher.update(text.as_slice());
        writer.write_all(&text)?;
        for step in steps {
            text.clear();
            put_step(alloc, &mut text, step)?;
            hasher.update(text.as_slice());
            writer.write_all(&text)?;
        }
        let sum = hasher.finalize();
        writer.write_all(&sum)?;
        Ok(sum)
    }
}
