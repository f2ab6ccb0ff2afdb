//! The peers that are there, in the order in which they move.
ghost use Rattle.std.specs.Prelude.{◌≡◌, ◌<◌, true, length, IfSome, IfNone, OnOk, slice_get};
ghost use Rattle.std.specs.List.{position_or_len, prefix_len};
ghost use Rattle.rk_names.specs.declared.numbers.SessionId.TheVariants.{Client, Handler};
ghost use Rattle.rk_machine.specs.Laws.{same_session};
ghost use Rattle.rk_served.specs.Left.{without};
ghost use Rattle.rk_served.specs.Standing.{comes_before, are_in_order};
ghost use Rattle.rk_served.specs.WhoIsThere.{peer_of, are_apart, Sits};
ghost use Rattle.rk_served.specs.OwnStep.{Adds};

use crate::peer::Peer;
use rk_names::SessionId;
use std::alloc::AllocError;

/// Whether the two are one.
fn same(one: &SessionId, other: &SessionId) -> bool
    ensures { result ≡ same_session one.now other.now }
{
    match one {
        SessionId::Client(n) => is_client(other, *n),
        SessionId::Handler(k) => is_handler(other, k.get()),
    }
}

/// Whether it is the client of this number.
fn is_client(who: &SessionId, client: u32) -> bool
    ensures { result ≡ same_session (Client client) who.now }
{
    match who {
        SessionId::Client(n) => client == *n,
        SessionId::Handler(_) => false,
    }
}

/// Whether it is the handler of the key of this number.
fn is_handler(who: &SessionId, key: u32) -> bool
    ensures { result ≡ same_session (Handler key) who.now }
{
    match who {
        SessionId::Client(_) => false,
        SessionId::Handler(k) => key == k.get(),
    }
}

/// Whether the one comes before the other: clients by rising number, and then handlers by rising key.
pub fn comes_before(one: &SessionId, other: &SessionId) -> bool
    ensures { result ≡ comes_before one.now other.now }
{
    one < other
}

/// How many come before this one. It looks first where the client stands if no number is missing between the first client and it. If it is not there, it
/// looks at as many peers as their number can be halved.
fn count_before(peers: &[Peer], who: &SessionId) -> usize
    requires { are_in_order peers.now ≡ true }
    ensures { result ≡ prefix_len (λ x. comes_before x.who who.now) peers.now }
{
    let index = index_in_a_row(peers, who);
    if is_first_at(peers, who, index) {
        return index;
    }
    peers.partition_point(|peer| comes_before(&peer.who, who))
}

/// Where the client stands if no number is missing between the first client and it; else any place.
fn index_in_a_row(peers: &[Peer], who: &SessionId) -> usize {
    let (Some(first), SessionId::Client(number)) = (peers.first(), who) else {
        return 0;
    };
    match &first.who {
        SessionId::Client(first) => number.wrapping_sub(*first) as usize,
        SessionId::Handler(_) => 0,
    }
}

/// Whether this session is at this place, and the one in front of it comes before.
fn is_first_at(peers: &[Peer], who: &SessionId, index: usize) -> bool
    requires { are_in_order peers.now ≡ true }
    ensures { result ≡ true → index ≡ prefix_len (λ x. comes_before x.who who.now) peers.now }
{
    let Some(peer) = peers.get(index) else {
        return false;
    };
    if !same(&peer.who, who) {
        return false;
    }
    index == 0 || comes_before(&peers[index - 1].who, who)
}

/// Where the peer of this one is. It looks as `count_before` does.
pub fn index_of(peers: &[Peer], who: &SessionId) -> Option<usize>
    requires { are_in_order peers.now ≡ true }
    ensures found { IfSome result (λ i. IfSome (slice_get peers.now i) (λ x. (x.who ≡ who.now) × (peer_of peers.now who.now ≡ Some x))) }
    ensures within { IfSome result (λ i. i < length peers.now) }
    ensures none { IfNone result (peer_of peers.now who.now ≡ None) }
{
    let index = count_before(peers, who);
    if index < peers.len() && same(&peers[index].who, who) {
        Some(index)
    } else {
        None
    }
}

/// Where a peer of this one is to stand: before the first that it comes before, or after all. It looks at as many peers as their number can
/// be halved.
fn rank(peers: &[Peer], who: &SessionId) -> usize
    requires { are_in_order peers.now ≡ true }
    ensures { result ≡ position_or_len (λ x. comes_before who.now x.who) peers.now }
{
    peers.partition_point(|peer| !comes_before(who, &peer.who))
}

/// Puts a peer among the others, at its place in the order.
pub fn add(peers: &mut Vec<Peer>, peer: Peer) -> Result<(), AllocError>
    requires { are_in_order peers.old.items ≡ true }
    ensures adds { OnOk result (Adds peer peers.old.items peers.new.items) }
    ensures order { are_in_order peers.new.items ≡ true }
{
    let index = rank(peers, &peer.who);
    peers.insert(index, peer)?;
    Ok(())
}

/// Takes the peer of this one away. It looks as `count_before` does.
pub fn remove(peers: &mut Vec<Peer>, who: &SessionId)
    requires { are_in_order peers.old.items ≡ true }
    ensures without { peers.new.items ≡ without who.now peers.old.items }
    ensures order { are_in_order peers.new.items ≡ true }
{
    // Nobody has two, but the order alone does not say so.
    while let Some(index) = index_of(peers, who) {
        drop(peers.remove(index));
    }
}

/// Takes the peer of this one away.
pub fn take(peers: &mut Vec<Peer>, who: &SessionId) -> Option<Peer>
    requires apart { are_apart peers.old.items ≡ true }
    requires order { are_in_order peers.old.items ≡ true }
    ensures found { IfSome result (λ x. Sits who.now x peers.old.items) }
    ensures rest { IfSome result (λ x. peers.new.items ≡ without who.now peers.old.items) }
    ensures none { IfNone result (peer_of peers.old.items who.now ≡ None) }
    ensures order { are_in_order peers.new.items ≡ true }
{
    match index_of(peers, who) {
        Some(index) => Some(peers.remove(index)),
        None => None,
    }
}
