//! What the machine asks otherwise: who holds an authority, and in whose context a session acts at first.
use crate::same::same;
use rk_auth::{Authority, Auths};
use rk_names::{Callout, Context, Serial, SessionId};
use std::alloc::{AllocError, Global};
use std::test::Fail;

/// The authority of a key, for a client of uid 1000.
fn authority(alloc: Global, ring: Serial) -> Result<Authority, AllocError> {
    Ok(Authority {
        context: Context {
            uid: 1000,
            gid: 1000,
            thread: None,
            process: None,
            session: ring,
            user: ring,
        },
        destination: ring,
        callout: Callout::new(alloc, b"x").map_err(|_| AllocError)?,
        depth: 1,
    })
}

/// The sessions, where key 3 is made by a handler that has assumed its authority.
fn assumed(alloc: Global, key: Serial) -> Result<Auths, Fail> {
    let mut auths = Auths::new(alloc)?;
    auths.reserve()?;
    if auths.stage(key).is_none() {
        auths.issue(key, authority(alloc, key)?)?;
    }
    auths.enter(SessionId::Handler(key))?;
    auths.assume(&SessionId::Handler(key), Some(key))?;
    Ok(auths)
}

#[test]
fn a_handler_holds_its_authority(rt: HostRuntime) -> Result<(), Fail> {
    let (three, four) = (
        Serial::new(3).ok_or("a serial")?,
        Serial::new(4).ok_or("a serial")?,
    );
    let auths = assumed(rt.alloc(), three)?;
    let handler = SessionId::Handler(three);
    same(&rt, auths.holder(&handler, three).is_ok(), true);
    same(&rt, auths.holder(&handler, four).is_ok(), false);
    same(
        &rt,
        auths.root_context(&handler).map(|context| context.uid),
        Some(1000),
    );
    Ok(())
}
