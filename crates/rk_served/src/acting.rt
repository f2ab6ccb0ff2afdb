//! The own step of a happening, and the moves that follow it.
ghost use Rattle.std.specs.Prelude.{◌≡◌, ℕ, true, false, List, [], IfOk, OnOk};
ghost use Rattle.rk_names.specs.declared.numbers.SessionId.TheVariants.{Client, Handler};
ghost use Rattle.rk_machine.specs.declared.event.EventOf.TheVariants.{Launched, Gone};
ghost use Rattle.rk_machine.specs.declared.event.Ran.TheVariants as ran;
ghost use Rattle.rk_machine.specs.Allowed.{done};
ghost use Rattle.rk_machine.specs.Steps.{Past};
ghost use Rattle.rk_served.specs.declared.happening.Happening.TheVariants as happening;
ghost use Rattle.rk_served.specs.declared.happening.StartResult.TheVariants.{Started};
ghost use Rattle.rk_conf.specs.declared.line.Line.{Line};
ghost use Rattle.rk_machine.specs.Views.{is_owed};
ghost use Rattle.rk_served.specs.declared.peer.Peer.{Peer};
ghost use Rattle.rk_served.specs.Left.{no_step, one_step};
ghost use Rattle.rk_served.specs.OwnStep.{has_client, is_to_start, is_running, is_misplaced, Lengthens, ClientGoes, FailsToRun, negated};
ghost use Rattle.rk_served.specs.Order.{ActsInOrder};
ghost use Rattle.rk_served.specs.WhoIsThere.{HasItsPeers, has_peer};
ghost use Rattle.rk_served.specs.Queued.{IsStill, StirsBy};
ghost use Rattle.rk_served.specs.Calls.{left_of, is_refused, MakesOwnStep, IsStartAt, HasEnded, EndsOne};

use crate::bytes::Bytes;
use crate::happening::{Happening, StartResult};
use crate::occasion::Occasion;
use crate::output::{Output, Outputs};
use crate::peer::{Channel, Peer};
use crate::peers;
use crate::queue::Queue;
use crate::server::Server;
use crate::stream::Stream;
use rk_auth::Stage;
use rk_core::{Answer, EventStep, How, Ran};
use rk_macro::{Op, Subject};
use rk_names::{Moment, Serial, SessionId};
use std::alloc::{AllocError, Global};

/// Where clients and constructions are.
impl Server {
    /// Whether a client of this number is there.
    fn has_client(&self, client: u32) -> bool
        ensures { result ≡ has_client self.now.book client }
    {
        self.book.has_client(client)
    }

    /// Whether the handler of a key is still to be started.
    fn is_to_start(&self, key: Serial) -> bool
        ensures { result ≡ is_to_start self.now.book key }
    {
        matches!(
            self.book.stage(key),
            Some(Stage::Starting | Stage::Negating)
        )
    }

    /// Whether the handler of a key runs.
    fn is_running(&self, key: Serial) -> bool
        ensures { result ≡ is_running self.now.book key }
    {
        matches!(self.book.stage(key), Some(Stage::Plain(_) | Stage::Piped))
    }

    /// Whether the client or construction of a happening is not at that point.
    pub fn is_misplaced(&self, happening: &Happening) -> bool
        ensures { result ≡ is_misplaced self.now.book happening.now }
    {
        match happening {
            Happening::Accept(client) => self.has_client(*client),
            Happening::Bytes(client, _) | Happening::Gone(client) => !self.has_client(*client),
            Happening::StartResult(key, _) => !self.is_to_start(*key),
            Happening::HandlerBytes(key, _)
            | Happening::HandlerReadFault(key)
            | Happening::HandlerEnded(key, _)
            | Happening::WaitFault(key) => !self.is_running(*key),
        }
    }
}

/// Own steps.
impl Server {
    /// Bytes come, for a stream or from a piped handler.
    fn lengthen(&mut self, alloc: Global, who: &SessionId, bytes: &[u8]) -> Result<(), AllocError>
        requires { has_peer self.old.peers.items who.now ≡ true }
        ensures { OnOk result (Lengthens who.now bytes.now (left_of self.old) (no_step []) (left_of self.new)) }
    {
        if let Some(index) = peers::index_of(&self.peers, who) {
            self.peers[index].channel.feed(alloc, bytes)?;
        }
        Ok(())
    }

    /// A client comes, or is refused.
    fn accept(&mut self, now: Moment, client: u32, out: &mut Vec<Output>) -> Result<(), AllocError>
        requires { has_client self.old.book client ≡ false }
        ensures { (conf : List Line) →
            OnOk result (MakesOwnStep conf now (happening.Accept client) (left_of self.old) out.old.items (left_of self.new) out.new.items) }
    {
        let answer = self
            .book
            .step(now, EventStep::Opened(SessionId::Client(client)));
        if is_refused(&answer) {
            out.push(Output::Shut(client))?;
            return Ok(());
        }
        let peer = Peer {
            who: SessionId::Client(client),
            channel: Channel::Talks(Stream::new()),
            subject: None,
        };
        peers::add(&mut self.peers, peer)
    }

    /// A client goes.
    fn leave(&mut self, now: Moment, client: u32)
        requires { has_client self.old.book client ≡ true }
        ensures { ClientGoes now client (left_of self.old) (one_step now (Gone (Client client)) done []) (left_of self.new) }
    {
        let _ = self
            .book
            .step(now, EventStep::Gone(SessionId::Client(client)));
        peers::remove(&mut self.peers, &SessionId::Client(client));
    }

    /// A plain handler runs, with an empty stream.
    fn run_plain(&mut self, now: Moment, key: Serial, index: usize)
        requires starts { IsStartAt self.old.peers.items index key false }
        requires owed { is_to_start self.old.book key ≡ true }
        ensures { (conf : List Line) (put : List Output) →
            MakesOwnStep conf now (happening.StartResult key Started) (left_of self.old) put (left_of self.new) put }
    {
        let _ = self.book.step(now, EventStep::Launched(key, Ran::Plain));
        self.peers[index].channel = Channel::Talks(Stream::new());
    }

    /// A piped handler runs, and is handed its callout.
    fn run_piped(
        &mut self,
        occasion: &Occasion<'_>,
        key: Serial,
        index: usize,
        out: &mut Vec<Output>,
    ) -> Result<(), AllocError>
        requires starts { IsStartAt self.old.peers.items index key true }
        requires owed { is_owed self.old.book (Launched key ran.Piped) ≡ true }
        ensures { OnOk result (MakesOwnStep occasion.now.conf.now occasion.now.moment (happening.StartResult key Started) (left_of self.old) out.old.items
            (left_of self.new) out.new.items) }
    {
        let _ = self
            .book
            .step(occasion.moment, EventStep::Launched(key, Ran::Piped));
        self.peers[index].put_callout(occasion.alloc, key, out)?;
        self.peers[index].channel = Channel::Pipes(Bytes::new(Vec::new(occasion.alloc)));
        Ok(())
    }

    /// A handler runs as its command was output.
    fn run(
        &mut self,
        occasion: &Occasion<'_>,
        key: Serial,
        out: &mut Vec<Output>,
    ) -> Result<(), AllocError>
        requires has_peers { HasItsPeers (left_of self.old) }
        requires owed { is_to_start self.old.book key ≡ true }
        ensures { OnOk result (MakesOwnStep occasion.now.conf.now occasion.now.moment (happening.StartResult key Started) (left_of self.old) out.old.items
            (left_of self.new) out.new.items) }
    {
        if let Some(index) = peers::index_of(&self.peers, &SessionId::Handler(key)) {
            if self.peers[index].channel.is_piped() {
                return self.run_piped(occasion, key, index, out);
            }
            self.run_plain(occasion.moment, key, index);
        }
        Ok(())
    }

    /// A command could not be started.
    fn fail(&mut self, now: Moment, key: Serial)
        requires { is_to_start self.old.book key ≡ true }
        ensures { FailsToRun now key (left_of self.old) (one_step now (Launched key ran.Failed) done []) (left_of self.new) }
    {
        let _ = self.book.step(now, EventStep::Launched(key, Ran::Failed));
        peers::remove(&mut self.peers, &SessionId::Handler(key));
    }

    /// A command was started, or could not be.
    fn launch(
        &mut self,
        occasion: &Occasion<'_>,
        key: Serial,
        started: StartResult,
        out: &mut Vec<Output>,
    ) -> Result<(), AllocError>
        requires has_peers { HasItsPeers (left_of self.old) }
        requires owed { is_to_start self.old.book key ≡ true }
        ensures { OnOk result (MakesOwnStep occasion.now.conf.now occasion.now.moment (happening.StartResult key started) (left_of self.old) out.old.items
            (left_of self.new) out.new.items) }
    {
        match started {
            StartResult::Started => self.run(occasion, key, out),
            StartResult::Failed => {
                self.fail(occasion.moment, key);
                Ok(())
            }
        }
    }

    /// A handler has ended, whose peer was taken away. If another is to follow it, the command of that one is output,
    /// for what the first was made for.
    fn end(
        &mut self,
        occasion: &Occasion<'_>,
        event: EventStep<'_>,
        subject: Option<Subject>,
        out: &mut Vec<Output>,
    ) -> Result<(), AllocError>
        ensures { (k : ℕ) (peers : List Peer) → HasEnded k event.entry subject peers (left_of self.old) →
            OnOk result (EndsOne occasion.now.conf.now occasion.now.moment k event.entry subject (record { world = self.old.book; peers = peers })
            out.old.items (left_of self.new) out.new.items) }
    {
        let Answer::Negate(key) = self.book.step(occasion.moment, event) else {
            return Ok(());
        };
        match subject {
            Some(subject) => self.start(occasion, key, negated(subject), out),
            None => Ok(()),
        }
    }

    /// A handler has ended, and what a piped one has output is its payload.
    fn finish(
        &mut self,
        occasion: &Occasion<'_>,
        key: Serial,
        how: How,
        out: &mut Vec<Output>,
    ) -> Result<(), AllocError>
        requires has_peers { HasItsPeers (left_of self.old) }
        requires owed { is_running self.old.book key ≡ true }
        ensures { OnOk result (MakesOwnStep occasion.now.conf.now occasion.now.moment (happening.HandlerEnded key how)
            (left_of self.old) out.old.items (left_of self.new) out.new.items) }
    {
        match peers::take(&mut self.peers, &SessionId::Handler(key)) {
            Some(peer) => {
                let Peer {
                    channel,
                    subject,
                    ..
                } = peer;
                let event = EventStep::Ended(key, how, channel.into_payload());
                self.end(occasion, event, subject, out)
            }
            None => Ok(()),
        }
    }

    /// A handler could not be read or waited for.
    fn break_off(
        &mut self,
        occasion: &Occasion<'_>,
        key: Serial,
        out: &mut Vec<Output>,
    ) -> Result<(), AllocError>
        requires has_peers { HasItsPeers (left_of self.old) }
        requires owed { is_running self.old.book key ≡ true }
        ensures { OnOk result (MakesOwnStep occasion.now.conf.now occasion.now.moment (happening.WaitFault key)
            (left_of self.old) out.old.items (left_of self.new) out.new.items) }
    {
        match peers::take(&mut self.peers, &SessionId::Handler(key)) {
            Some(peer) => {
                let event = EventStep::Ended(key, How::Fault, None);
                self.end(occasion, event, peer.subject, out)
            }
            None => Ok(()),
        }
    }

    /// The own step of a happening.
    fn own_step(
        &mut self,
        occasion: &Occasion<'_>,
        happening: &Happening,
        out: &mut Vec<Output>,
    ) -> Result<(), AllocError>
        requires has_peers { HasItsPeers (left_of self.old) }
        requires placed { is_misplaced self.old.book happening.now ≡ false }
        ensures { OnOk result (MakesOwnStep occasion.now.conf.now occasion.now.moment happening.now
            (left_of self.old) out.old.items (left_of self.new) out.new.items) }
    {
        match happening {
            Happening::Accept(client) => self.accept(occasion.moment, *client, out),
            Happening::Bytes(client, bytes) => {
                self.lengthen(
                    occasion.alloc,
                    &SessionId::Client(*client),
                    bytes.as_slice(),
                )
            }
            Happening::Gone(client) => {
                self.leave(occasion.moment, *client);
                Ok(())
            }
            Happening::StartResult(key, started) => self.launch(occasion, *key, *started, out),
            Happening::HandlerBytes(key, bytes) => {
                self.lengthen(occasion.alloc, &SessionId::Handler(*key), bytes.as_slice())
            }
            Happening::HandlerEnded(key, how) => self.finish(occasion, *key, *how, out),
            Happening::HandlerReadFault(key) | Happening::WaitFault(key) => {
                self.break_off(occasion, *key, out)
            }
        }
    }

    /// Who may move after the own step of a happening. Where bytes came, the machine has made no step: it is the one to whom they came, and no other.
    fn stir_by(
        &self,
        alloc: Global,
        happening: &Happening,
        queue: &mut Queue,
    ) -> Result<(), AllocError>
        ensures { OnOk result (StirsBy (left_of self.now) happening.now queue.old queue.new) }
    {
        let who = happening.whose();
        match happening {
            Happening::Bytes(_, _) | Happening::HandlerBytes(_, _) => queue.push(who),
            _ => self.stir(alloc, &who, queue),
        }
    }

    /// The own step of a happening, and then moves in order until no session can move.
    pub fn act(
        &mut self,
        occasion: &Occasion<'_>,
        happening: &Happening,
        queue: &mut Queue,
    ) -> Result<Outputs, AllocError>
        requires has_peers { HasItsPeers (left_of self.old) }
        requires still { IsStill queue.old (left_of self.old) }
        requires placed { is_misplaced self.old.book happening.now ≡ false }
        ensures acts { IfOk result (λ out. (steps : List Past)
            × ActsInOrder occasion.now.conf.now (left_of self.old) occasion.now.moment happening.now out steps (left_of self.new)) }
        ensures still { OnOk result (IsStill queue.new (left_of self.new)) }
    {
        let mut out = Vec::new(occasion.alloc);
        self.own_step(occasion, happening, &mut out)?;
        self.stir_by(occasion.alloc, happening, queue)?;
        self.move_all(occasion, queue, &mut out)?;
        Ok(Outputs::new(out))
    }
}

/// What the handler that follows is made for.
fn negated(subject: Subject) -> Subject
    ensures { result ≡ negated subject }
{
    Subject {
        op: Op::Negate,
        ..subject
    }
}

/// Whether it is a refusal.
fn is_refused(answer: &Answer) -> bool
    ensures { result ≡ is_refused answer.now }
{
    matches!(answer, Answer::Refused(_))
}
