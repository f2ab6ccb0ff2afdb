//! Names on both sides of the length up to which they stand in the value.
use crate::same::same;
use rk_names::{Callout, CalloutView, Description, DescriptionView, TypeName};
use std::test::Fail;

/// One byte more than the longest type has, and two more than a description has that stands in its value.
const LETTERS: &[u8] = b"abcdefghijklmnopqrstuvwxyz012345";

/// A description and a callout show the bytes that they were made of, and so do their copies.
#[test]
fn names_show_their_bytes(rt: HostRuntime) -> Result<(), Fail> {
    let alloc = rt.alloc();
    for len in 1..=LETTERS.len() {
        let bytes = &LETTERS[..len];
        let description = Description::new(alloc, bytes)?;
        same(&rt, description.as_bytes(), bytes);
        same(&rt, description.clone()?.as_bytes(), bytes);
        let callout = Callout::new(alloc, bytes)?;
        same(&rt, callout.as_bytes(), bytes);
        same(&rt, callout.clone()?.as_bytes(), bytes);
    }
    Ok(())
}

/// So does a type, which has at most 31.
#[test]
fn types_show_their_bytes(rt: HostRuntime) -> Result<(), Fail> {
    for len in 1..LETTERS.len() {
        let bytes = &LETTERS[..len];
        let typ = TypeName::new(bytes)?;
        same(&rt, typ.as_bytes(), bytes);
        same(&rt, typ.clone()?.as_bytes(), bytes);
    }
    same(&rt, TypeName::new(LETTERS).is_err(), true);
    Ok(())
}

/// A copy takes memory of more than 30 bytes of a description, and of more than 22 of a callout.
#[test]
fn only_long_names_take_memory(rt: HostRuntime) -> Result<(), Fail> {
    let alloc = rt.alloc();
    for len in [1, 21, 22, 23, 24, 29, 30, 31, 32] {
        let bytes = &LETTERS[..len];
        let description = DescriptionView::new(bytes)?;
        same(&rt, description.long(alloc)?.is_some(), len > 30);
        let callout = CalloutView::new(bytes)?;
        same(&rt, callout.long(alloc)?.is_some(), len > 22);
    }
    Ok(())
}
