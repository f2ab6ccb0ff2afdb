//! A name that was hashed for other keys, as no program has one: it is hashed anew.
use crate::same::same;
use rk_keys::{HashedName, Keys};
use rk_names::{DescriptionView, NameNo, Serial, TypeView};
use std::test::Fail;

/// The name of the type `user` and the description `mail`, hashed for these keys.
fn mail(keys: &Keys) -> Result<HashedName<'static>, Fail> {
    Ok(keys.hashed(TypeView::new(b"user")?, DescriptionView::new(b"mail")?))
}

#[test]
fn a_name_that_was_hashed_with_another_seed_is_found(rt: HostRuntime) -> Result<(), Fail> {
    let first = Serial::new(4).ok_or("a serial")?;
    let mut keys = Keys::new(rt.alloc(), first, 4, 1)?;
    let others = Keys::new(rt.alloc(), first, 4, 2)?;
    let (own, foreign) = (mail(&keys)?, mail(&others)?);
    same(&rt, keys.name(&foreign), None);
    same(&rt, keys.make(&foreign, 1_000, None)?, first);
    same(&rt, keys.name(&foreign), Some(NameNo(4)));
    same(&rt, keys.name(&own), Some(NameNo(4)));
    same(&rt, others.name(&own), None);
    Ok(())
}
