//! Volumes that are joined, stepped through anew.
ghost use Rattle.std.specs.Prelude.{◌≡◌, ◌+◌, ◌≤◌, ◌↔◌, length, IfOk, IfErr, IsTrue, OnOk, []};
ghost use Rattle.rk_names.specs.declared.errors.Errno.TheVariants.{Enomem};
ghost use Rattle.std.specs.List.{flat_map};
ghost use Rattle.rk_machine.specs.World.{World, empty_world};
ghost use Rattle.rk_machine.specs.Laws.{ContinuesTo};
ghost use Rattle.rk_machine.specs.declared.event.Answer.TheVariants.{Refused};
ghost use Rattle.rk_record.specs.Record.{Runs, past_of};
ghost use Rattle.rk_record.specs.Volumes.{counted, Breaks};

use crate::recorded::Recorded;
use crate::rejoin_fault::Rejoin;
use rk_core::{Book, Limits};
use rk_machine::Answer;
use rk_names::Errno;
use std::alloc::Global;

/// Steps an empty book through lists of steps that are joined, and compares every answer. `Ok` says how many steps there are, at most the greatest
/// u64: they are a run from the empty world on, and obey the laws of every run.
///
/// [`Rejoin::Broken`] has the number of the first step that is answered otherwise; [`Rejoin::NoMemory`] is returned if an allocation failed.
pub fn rejoin(alloc: Global, limits: Limits, volumes: &[&[Recorded]]) -> Result<u64, Rejoin>
    requires { 1 ≤ limits.stride }
    ensures count { IfOk result (λ n. n ≡ counted (length (flat_map (λ v. v.now) volumes.now))) }
    ensures run { OnOk result ((w : World) × ContinuesTo (record { negative = limits.negative; first = limits.first; stride = limits.stride })
        (past_of (flat_map (λ v. v.now) volumes.now) []) w) }
    ensures broken { IfErr result (λ f. Breaks (empty_world limits.negative limits.first limits.stride) 0 (flat_map (λ v. v.now) volumes.now) f) }
{
    let Ok(mut book) = Book::new(alloc, limits) else {
        return Err(Rejoin::NoMemory);
    };
    let mut number = 0;
    for volume in volumes {
        match step_through(alloc, &mut book, volume, number) {
            Ok(next) => number = next,
            Err(fault) => return Err(fault),
        }
    }
    Ok(number)
}

/// Whether the answer is out of memory.
fn is_want_of_memory(answer: &Answer) -> bool
    ensures { IsTrue result ↔ answer.now ≡ Refused Enomem }
{
    matches!(answer, Answer::Refused(Errno::Enomem))
}

/// Steps a book through a list, after so many steps, and compares every answer.
fn step_through(
    alloc: Global,
    book: &mut Book,
    steps: &[Recorded],
    before: u64,
) -> Result<u64, Rejoin>
    ensures run { OnOk result (Runs book.old steps.now book.new) }
    ensures count { IfOk result (λ n. n ≡ counted (before + length steps.now)) }
    ensures broken { IfErr result (λ f. Breaks book.old before steps.now f) }
{
    let mut number = before;
    for step in steps {
        number = number.saturating_add(1);
        let Ok(answer) = book.step_of(alloc, step.now, &step.event) else {
            return Err(Rejoin::NoMemory);
        };
        if !answer.equals(&step.answer) {
            if is_want_of_memory(&answer) {
                return Err(Rejoin::NoMemory);
            }
            return Err(Rejoin::Broken { number });
        }
    }
    Ok(number)
}
