//! One ask: whether the session may ask, and what it comes to.
ghost use Rattle.std.specs.Prelude.{◌≡◌, None, Some, Err, is_some, true, false};
ghost use Rattle.std.specs.Bool.{MatchBool};
ghost use Rattle.rk_auth.specs.Sessions.{session_of};
ghost use Rattle.rk_message.specs.Copies.{payload_of};
ghost use Rattle.rk_machine.specs.Allowed.{Tells};
ghost use Rattle.rk_machine.specs.Asker.{asker_of};
ghost use Rattle.rk_machine.specs.Asks.{Asking};
ghost use Rattle.rk_machine.specs.Owing.{asked_in};
ghost use Rattle.rk_machine.specs.Steps.{Step};
ghost use Rattle.rk_core.specs.Copies.{Copied};
ghost use Rattle.rk_core.specs.Finding.{answer_of, is_hello, is_first, is_request, is_frequent};
ghost use Rattle.rk_core.specs.Sound.{IsSound};

use crate::completion_asks::Rejection;
use crate::subject_copies::SubjectCopies;
use crate::tables::Tables;
use crate::wanted::{Requester, Wanted};
use rk_machine::{Answer, Asker, EventOf};
use rk_message::{AskStep, AskView};
use rk_names::{CalloutView, Errno, KeyError, Moment, Payload, SessionId};

impl Tables {
    /// What a session asks is done, refused, waited for or started.
    #[inline(always)]
    pub fn asked(
        &mut self,
        now: Moment,
        id: &SessionId,
        ask: AskStep<'_>,
        copies: &mut SubjectCopies,
    ) -> Answer
        requires sound { IsSound self.old }
        ensures step { Step self.old now (EventOf.Asked id.now ask.entry) result self.new }
        ensures copies { is_some (asked_in ask.entry) ≡ true → Copied result copies.old copies.new }
    {
        match self.ask(now, id, ask, copies) {
            Ok(answer) => answer,
            Err(error) => Answer::Refused(error),
        }
    }

    #[inline(always)]
    fn ask(
        &mut self,
        now: Moment,
        id: &SessionId,
        ask: AskStep<'_>,
        copies: &mut SubjectCopies,
    ) -> Result<Answer, Errno>
        requires sound { IsSound self.old }
        ensures step { Step self.old now (EventOf.Asked id.now ask.entry) (answer_of result) self.new }
        ensures copies { is_some (asked_in ask.entry) ≡ true → Copied (answer_of result) copies.old copies.new }
    {
        match self.asker(id) {
            Ok(Some(asker)) => self.act(now, id, &asker, ask, copies),
            Ok(None) => self.first_ask(now, id, ask.ask()),
            Err(error) => Err(error),
        }
    }

    /// An ask of a session for which nobody acts yet: HELLO of a client, ASSUME of a handler. EACCES for any other.
    fn first_ask(&mut self, now: Moment, id: &SessionId, ask: &AskView<'_>) -> Result<Answer, Errno>
        requires sound { IsSound self.old }
        ensures step { MatchBool (is_first id.now ask.now) (Asking self.old now id.now ask.now (answer_of result) self.new)
            (Tells (Answer.Refused Errno.Eacces) self.old (answer_of result) self.new) }
        ensures request { is_some (asked_in ask.now) ≡ true → result ≡ Err Errno.Eacces }
    {
        let _ = now;
        match (id, ask) {
            (SessionId::Client(_), AskView::Hello(greeting)) => self.hello(id, greeting),
            (SessionId::Handler(_), AskView::Assume { key }) => self.assume(id, *key),
            _ => Err(Errno::Eacces),
        }
    }

    /// The asks of one who acts. A REQUEST, which most asks are, is apart from the others.
    #[inline(always)]
    fn act(
        &mut self,
        now: Moment,
        id: &SessionId,
        asker: &Asker,
        ask: AskStep<'_>,
        copies: &mut SubjectCopies,
    ) -> Result<Answer, Errno>
        requires sound { IsSound self.old }
        requires there { is_some (session_of self.old.sessions id.now) ≡ true }
        requires asker { asker_of self.old id.now ≡ Some asker.now }
        ensures step { MatchBool (is_hello ask.entry) (Tells (Answer.Refused Errno.Einval) self.old (answer_of result) self.new)
            (Asking self.old now id.now ask.entry (answer_of result) self.new) }
        ensures copies { is_some (asked_in ask.entry) ≡ true → Copied (answer_of result) copies.old copies.new }
    {
        if is_request(&ask) {
            self.request_key(now, id, asker, ask, copies)
        } else {
            self.act_otherwise(now, id, asker, ask)
        }
    }

    /// A REQUEST. (It is a function of its own, since with it those that call it are too large for `#[inline(always)]`. So are READ and DESCRIBE, and the asks
    /// that are rare, so that none clears what the others hold.)
    #[inline(never)]
    fn request_key(
        &mut self,
        now: Moment,
        id: &SessionId,
        asker: &Asker,
        ask: AskStep<'_>,
        copies: &mut SubjectCopies,
    ) -> Result<Answer, Errno>
        requires sound { IsSound self.old }
        requires there { is_some (session_of self.old.sessions id.now) ≡ true }
        requires asker { asker_of self.old id.now ≡ Some asker.now }
        requires request { is_request ask ≡ true }
        ensures step { MatchBool (is_hello ask.entry) (Tells (Answer.Refused Errno.Einval) self.old (answer_of result) self.new)
            (Asking self.old now id.now ask.entry (answer_of result) self.new) }
        ensures copies { Copied (answer_of result) copies.old copies.new }
    {
        match ask.ask() {
            AskView::Request {
                typ,
                description,
                callout,
                destination,
            } => {
                let wanted = Wanted {
                    name: self.keys.hashed(typ.again(), description.again()),
                    callout: callout_again(callout),
                };
                let by = Requester { id, asker };
                self.request(now, &by, &wanted, *destination, copies)
            }
            _ => unreachable!(),
        }
    }

    /// Any ask but a REQUEST: READ and DESCRIBE, or one that is rare.
    #[inline(never)]
    fn act_otherwise(
        &mut self,
        now: Moment,
        id: &SessionId,
        asker: &Asker,
        ask: AskStep<'_>,
    ) -> Result<Answer, Errno>
        requires sound { IsSound self.old }
        requires there { is_some (session_of self.old.sessions id.now) ≡ true }
        requires asker { asker_of self.old id.now ≡ Some asker.now }
        requires other { is_request ask ≡ false }
        ensures step { MatchBool (is_hello ask.entry) (Tells (Answer.Refused Errno.Einval) self.old (answer_of result) self.new)
            (Asking self.old now id.now ask.entry (answer_of result) self.new) }
    {
        let (ask, payload) = ask.into_parts();
        match ask.ask() {
            AskView::Request { .. } => unreachable!(),
            AskView::Read { key } => self.read(now, id, asker, *key),
            AskView::Describe { key } => self.describe(now, asker, *key),
            other => self.act_rarely(now, id, asker, other, payload),
        }
    }

    /// An ask that is rare. Who acts has a context, so HELLO is EINVAL.
    #[inline(never)]
    fn act_rarely(
        &mut self,
        now: Moment,
        id: &SessionId,
        asker: &Asker,
        ask: &AskView<'_>,
        payload: Option<Payload>,
    ) -> Result<Answer, Errno>
        requires sound { IsSound self.old }
        requires there { is_some (session_of self.old.sessions id.now) ≡ true }
        requires asker { asker_of self.old id.now ≡ Some asker.now }
        requires other { is_frequent ask.now ≡ false }
        requires payload { payload ≡ payload_of ask.now }
        ensures step { MatchBool (is_hello ask.now) (Tells (Answer.Refused Errno.Einval) self.old (answer_of result) self.new)
            (Asking self.old now id.now ask.now (answer_of result) self.new) }
    {
        match ask {
            AskView::Hello(_) => Err(Errno::Einval),
            AskView::Request { .. } | AskView::Read { .. } | AskView::Describe { .. } => {
                unreachable!()
            }
            AskView::Assume { key } => self.assume(id, *key),
            AskView::Instantiate { key, ring, .. } => match payload {
                Some(payload) => self.instantiate(now, asker, *key, *ring, payload),
                None => unreachable!(),
            },
            AskView::Negate { key, timeout, ring } => {
                let rejection = Rejection {
                    error: KeyError::NoKey,
                    seconds: *timeout,
                };
                self.reject(now, asker, *key, *ring, rejection)
            }
            AskView::Reject {
                key,
                timeout,
                error,
                ring,
            } => {
                let rejection = Rejection {
                    error: *error,
                    seconds: *timeout,
                };
                self.reject(now, asker, *key, *ring, rejection)
            }
            AskView::Revoke { key } => self.revoke(asker, *key),
            AskView::Timeout { key, seconds } => self.set_timeout(now, asker, *key, *seconds),
            AskView::Link { key, ring } => self.link_key(now, asker, *key, *ring),
            AskView::Unlink { key, ring } => self.unlink_key(asker, *key, *ring),
            AskView::Clear { ring } => self.clear_ring(asker, *ring),
            AskView::Default { setting } => self.set_default(id, asker, *setting),
            AskView::Add {
                typ,
                description,
                ring,
                ..
            } => match payload {
                Some(payload) => self.add_key(asker, typ, description, payload, *ring),
                None => unreachable!(),
            },
            AskView::Callout => self.callout(id),
        }
    }
}

/// Whether it is a REQUEST, which alone can start a construction.
#[inline(always)]
fn is_request(ask: &AskStep<'_>) -> bool
    ensures exact { result ≡ is_request ask.now }
    ensures alone { result ≡ false → asked_in ask.now ≡ None }
{
    matches!(ask.ask(), AskView::Request { .. })
}

/// A callout once more, if there is one.
#[inline(always)]
fn callout_again<'a>(callout: &Option<CalloutView<'a>>) -> Option<CalloutView<'a>>
    ensures { result ≡ callout.now }
{
    match callout {
        Some(text) => Some(text.again()),
        None => None,
    }
}
