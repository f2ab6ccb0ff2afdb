//! What further copies of a payload share.
use crate::same::same;
use rk_names::{Payload, PayloadView};
use std::test::Fail;

/// A payload that was copied from borrowed bytes shares them with its copies. Of a vector that was moved there is no such copy.
#[test]
fn copies_share_what_was_copied(rt: HostRuntime) -> Result<(), Fail> {
    let alloc = rt.alloc();
    let copied = PayloadView::new(b"hi")?.to_owned(alloc)?;
    let shares = match copied.again() {
        Some(copy) => copy.as_bytes() == b"hi".as_slice(),
        None => false,
    };
    same(&rt, shares, true);
    let moved = Payload::new(Vec::from_slice(alloc, b"hi")?)?;
    same(&rt, moved.again().is_none(), true);
    Ok(())
}
