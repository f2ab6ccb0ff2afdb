//! What the faults of halls and records print, and the ends of launches.
use crate::same::same;
use rk_devices::{Driven, OutputFault};
use rk_hall::{CallFault, HallFault, HallNo, Lapse, Rejoin, SettleFault};
use rk_machine::How;
use rk_macro::ExpandFault;
use std::alloc::Global;
use std::fmt::Display;
use std::process::Abort;
use std::test::Fail;

/// Finds that the fault prints as the text.
fn prints<T: Display + Drop>(
    rt: &impl Abort,
    alloc: Global,
    fault: T,
    text: &str,
) -> Result<(), Fail> {
    let shown = format!(in alloc; "{fault}")?;
    same(rt, shown.as_str(), text);
    Ok(())
}

#[test]
fn what_was_not_done(rt: HostRuntime) -> Result<(), Fail> {
    let alloc = rt.alloc();
    for (fault, text) in [
        (HallFault::Full, "the record's volume is full"),
        (HallFault::NoMemory, "out of memory"),
    ] {
        prints(&rt, alloc, fault, text)?;
    }
    for (fault, text) in [
        (
            CallFault::Behind { seen: 9, found: 8 },
            "the step would have the number 8, not above 9, which was seen before",
        ),
        (CallFault::Full, "the record's volume is full"),
        (CallFault::NoMemory, "out of memory"),
    ] {
        prints(&rt, alloc, fault, text)?;
    }
    for (lapse, text) in [
        (
            Lapse::Behind { seen: 9, found: 8 },
            "the step has the number 8, not above 9, which was seen before",
        ),
        (Lapse::Stray, "the event was not owed"),
    ] {
        prints(&rt, alloc, lapse, text)?;
    }
    Ok(())
}

#[test]
fn records_that_do_not_agree(rt: HostRuntime) -> Result<(), Fail> {
    let alloc = rt.alloc();
    for (fault, text) in [
        (
            SettleFault::Uneven { steps: 6, held: 3 },
            "the record has 6 steps, and the seats 3: one is missing",
        ),
        (
            SettleFault::Missing {
                hall: HallNo::Two,
                volume: 1,
            },
            "hall 2: volume 1 is missing",
        ),
        (
            SettleFault::Forged {
                hall: HallNo::Zero,
                number: 7,
            },
            "hall 0: receipt 7 does not stand in the record",
        ),
    ] {
        prints(&rt, alloc, fault, text)?;
    }
    for (fault, text) in [
        (
            Rejoin::Broken { number: 4 },
            "step 4: the machine answers otherwise",
        ),
        (Rejoin::NoMemory, "out of memory"),
    ] {
        prints(&rt, alloc, fault, text)?;
    }
    Ok(())
}

#[test]
fn how_a_launch_was_brought_to_its_end(rt: HostRuntime) -> Result<(), Fail> {
    let alloc = rt.alloc();
    for (driven, text) in [
        (
            Driven::NoPayload(OutputFault::Empty),
            "no payload (0 bytes)",
        ),
        (
            Driven::NotMade(ExpandFault::NoKey),
            "X1: an argument %{..} is the payload of a key that the requester doesn't find",
        ),
        (
            Driven::NotMade(ExpandFault::NotText),
            "X2: a payload is no text",
        ),
        (
            Driven::NotMade(ExpandFault::TooLong),
            "X3: the words are more than 65536 bytes",
        ),
        (Driven::NotMade(ExpandFault::NoMemory), "X4: no memory"),
        (Driven::Ended(How::Exit(3)), "Ended(Exit(3))"),
    ] {
        prints(&rt, alloc, driven, text)?;
    }
    Ok(())
}
