//! The machine and the peers that are there: the moves of sessions.
ghost use Rattle.std.specs.Prelude.{◌≡◌, Some, None, true, false, ◌<◌, List, IfOk, OnOk, IfSome, MatchBool, vec_len, slice_get};
ghost use Rattle.rk_conf.specs.declared.line.Line.{Line};
ghost use Rattle.rk_message.specs.Ask.{Ask};
ghost use Rattle.rk_machine.specs.Views.{is_ready, awaited};
ghost use Rattle.rk_machine.specs.World.{World};
ghost use Rattle.rk_machine.specs.Steps.{Step};
ghost use Rattle.rk_machine.specs.declared.event.EventOf.TheVariants.{Asked};
ghost use Rattle.rk_served.specs.Standing.{are_in_order};
ghost use Rattle.rk_served.specs.Channels.{is_stream, HasFaultAt};
ghost use Rattle.rk_served.specs.Moves.{IsAtRest};
ghost use Rattle.rk_served.specs.WhoIsThere.{HasItsPeers};
ghost use Rattle.rk_served.specs.Queued.{own_key};

use crate::command::command_for;
use crate::occasion::Occasion;
use crate::output::Output;
use crate::peer::{Channel, Peer};
use crate::peers;
use crate::queue::Queue;
use crate::replies::put_reply;
use crate::stream::Message;
use rk_core::{Answer, Book, EventStep, Ran};
use rk_macro::Subject;
use rk_names::{Moment, Serial, SessionId};
use std::alloc::{AllocError, Global};

/// The machine, and the peers that are there, in the order in which they move: clients by rising number, and then handlers by
/// rising key.
#[derive(Drop)]
pub struct Server {
    /// The machine's state.
    pub book: Book,
    /// The peers, clients by number and then handlers by key.
    pub peers: Vec<Peer>,
    // The peers are in that order, so that one is found by halving.
    ghost in_order: { are_in_order peers.items ≡ true },
}

impl Server {
    ghost use Rattle.rk_served.specs.Calls.{left_of, MovesOne, MovesNext, MovesSome, AnswersOne, StartsNow, TriesAt, IsFreeAt};
    ghost use Rattle.rk_served.specs.Calls.{MovesBy};
    ghost use Rattle.rk_served.specs.Queued.{IsWatched, IsStill, RestsBy, Stirs, PutsBack, Wakes, Parks};

    /// Puts out the command of a construction that has begun, or goes on, or has its start fail.
    pub fn start(
        &mut self,
        occasion: &Occasion<'_>,
        key: Serial,
        subject: Subject,
        out: &mut Vec<Output>,
    ) -> Result<(), AllocError>
        ensures { OnOk result (StartsNow occasion.now.conf.now occasion.now.moment key subject
            (left_of self.old) out.old.items (left_of self.new) out.new.items) }
    {
        match command_for(occasion, &self.book, key, &subject) {
            Some(command) => {
                let peer = Peer {
                    who: SessionId::Handler(key),
                    channel: Channel::Starts(command.piped),
                    subject: Some(subject),
                };
                peers::add(&mut self.peers, peer)?;
                out.push(Output::Start(key, command))?;
                Ok(())
            }
            None => {
                let failed = EventStep::Launched(key, Ran::Failed);
                let _ = self.book.step(occasion.moment, failed);
                Ok(())
            }
        }
    }

    /// Outputs what results from the answer to an ask, whose step is made.
    fn put_answer(
        &mut self,
        occasion: &Occasion<'_>,
        who: &SessionId,
        answer: Answer,
        out: &mut Vec<Output>,
    ) -> Result<(), AllocError>
        ensures { (before : World) (ask : Ask) → Step before occasion.now.moment (Asked who.now ask) answer self.old.book → OnOk result
            (AnswersOne occasion.now.conf.now occasion.now.moment (record { world = before; peers = self.old.peers.items }) who.now ask out.old.items
            (left_of self.new) out.new.items) }
    {
        match answer {
            Answer::Start(key, subject) => {
                self.start(occasion, key, subject.into_subject(), out)
            }
            answer => put_reply(occasion.alloc, who, answer, out),
        }
    }

    /// The session of a peer collects its outcome.
    fn collect_at(
        &mut self,
        occasion: &Occasion<'_>,
        index: usize,
        out: &mut Vec<Output>,
    ) -> Result<(), AllocError>
        requires within { index < vec_len self.old.peers }
        requires ready { IfSome (slice_get self.old.peers.items index) (λ x. (is_stream x.channel ≡ true) × (is_ready self.old.book x.who ≡ true)) }
        ensures { OnOk result (MovesOne occasion.now.conf.now occasion.now.moment index (left_of self.old) out.old.items (left_of self.new) out.new.items) }
    {
        let who = self.peers[index].who;
        let answer = self.book.step(occasion.moment, EventStep::Collect(who));
        put_reply(occasion.alloc, &who, answer, out)
    }

    /// The session of a peer meets the fault of its stream.
    fn fault_at(
        &mut self,
        now: Moment,
        index: usize,
        out: &mut Vec<Output>,
    ) -> Result<(), AllocError>
        requires within { index < vec_len self.old.peers }
        requires fault { IfSome (slice_get self.old.peers.items index) (λ x. HasFaultAt x.channel) }
        requires free { IsFreeAt (left_of self.old) index }
        ensures { (conf : List Line) → OnOk result (MovesOne conf now index (left_of self.old) out.old.items (left_of self.new) out.new.items) }
    {
        match self.peers[index].who {
            SessionId::Client(client) => {
                let _ = self
                    .book
                    .step(now, EventStep::Gone(SessionId::Client(client)));
                peers::remove(&mut self.peers, &SessionId::Client(client));
                out.push(Output::Shut(client))?;
                Ok(())
            }
            SessionId::Handler(key) => {
                self.peers[index].channel.shut();
                out.push(Output::ShutHandler(key))?;
                Ok(())
            }
        }
    }

    /// The session of a peer takes the next message of its stream, if there is one.
    fn take_at(
        &mut self,
        occasion: &Occasion<'_>,
        index: usize,
        out: &mut Vec<Output>,
    ) -> Result<bool, AllocError>
        requires within { index < vec_len self.old.peers }
        requires free { IsFreeAt (left_of self.old) index }
        ensures { IfOk result (λ moved. TriesAt occasion.now.conf.now occasion.now.moment index moved
            (left_of self.old) out.old.items (left_of self.new) out.new.items) }
    {
        let peer = &mut self.peers[index];
        let who = peer.who;
        match peer.channel.next(&mut self.book, occasion, &who)? {
            Message::More => Ok(false),
            Message::Answered(answer) => {
                self.put_answer(occasion, &who, answer, out)?;
                Ok(true)
            }
            Message::Refused(errno) => {
                put_reply(occasion.alloc, &who, Answer::Refused(errno), out)?;
                Ok(true)
            }
            Message::Fault => {
                self.fault_at(occasion.moment, index, out)?;
                Ok(true)
            }
        }
    }

    /// The session of a peer makes one move, if it can.
    fn move_at(
        &mut self,
        occasion: &Occasion<'_>,
        index: usize,
        out: &mut Vec<Output>,
    ) -> Result<bool, AllocError>
        requires { index < vec_len self.old.peers }
        ensures { IfOk result (λ moved. TriesAt occasion.now.conf.now occasion.now.moment index moved
            (left_of self.old) out.old.items (left_of self.new) out.new.items) }
    {
        let peer = &self.peers[index];
        if !peer.channel.is_stream() {
            return Ok(false);
        }
        if self.book.waits(&peer.who) {
            if !self.book.ready(&peer.who) {
                return Ok(false);
            }
            self.collect_at(occasion, index, out)?;
            return Ok(true);
        }
        if !peer.channel.is_open() {
            return Ok(false);
        }
        self.take_at(occasion, index, out)
    }

    /// This session makes one move, if it is there and can.
    fn move_by(
        &mut self,
        occasion: &Occasion<'_>,
        who: &SessionId,
        out: &mut Vec<Output>,
    ) -> Result<bool, AllocError>
        ensures { IfOk result (λ moved. MatchBool moved
            (MovesBy occasion.now.conf.now occasion.now.moment who.now (left_of self.old) out.old.items (left_of self.new) out.new.items)
            ((left_of self.new ≡ left_of self.old) × (out.new.items ≡ out.old.items) × RestsBy who.now (left_of self.old))) }
    {
        match peers::index_of(&self.peers, who) {
            Some(index) => self.move_at(occasion, index, out),
            None => Ok(false),
        }
    }

    /// A session has moved: it may move again, unless it waits or its stream is used up, and so may all who wait for a key whose construction it has completed or ended. Its
    /// own key may be that, and one that it has just begun, where the start failed at once.
    pub fn stir(&self, alloc: Global, who: &SessionId, queue: &mut Queue) -> Result<(), AllocError>
        ensures { OnOk result (Stirs (left_of self.now) who.now queue.old queue.new) }
    {
        self.wake(alloc, own_key(who), queue)?;
        match self.book.awaited(who) {
            Some(key) => {
                self.wake(alloc, Some(key), queue)?;
                self.put_back(alloc, who, key, queue)
            }
            None => self.go_on(who, queue),
        }
    }

    /// A session that waits for this key may move again if it is there. Until then it can't, and the queue knows it by the key from now on.
    fn put_back(
        &self,
        alloc: Global,
        who: &SessionId,
        key: Serial,
        queue: &mut Queue,
    ) -> Result<(), AllocError>
        requires { awaited self.now.book who.now ≡ Some key }
        ensures { OnOk result (PutsBack (left_of self.now) who.now queue.old queue.new) }
    {
        if self.book.ready(who) {
            queue.push(*who)
        } else {
            queue.park(alloc, key, *who)
        }
    }

    /// A session that does not wait may move again, unless its stream is used up.
    fn go_on(&self, who: &SessionId, queue: &mut Queue) -> Result<(), AllocError>
        requires { awaited self.now.book who.now ≡ None }
        ensures { OnOk result (PutsBack (left_of self.now) who.now queue.old queue.new) }
    {
        if self.is_used_up(who) {
            return Ok(());
        }
        queue.push(*who)
    }

    /// Whether no message can come of the stream of a session before more bytes do. One that is not there has none.
    fn is_used_up(&self, who: &SessionId) -> bool
        ensures { result ≡ true → awaited self.now.book who.now ≡ None → RestsBy who.now (left_of self.now) }
    {
        match peers::index_of(&self.peers, who) {
            Some(index) => self.peers[index].channel.is_used_up(),
            None => true,
        }
    }

    /// All who wait for this key, if there is one, may move, if its authority is spent.
    fn wake(&self, alloc: Global, key: Option<Serial>, queue: &mut Queue) -> Result<(), AllocError>
        ensures { OnOk result (Wakes self.now.book key queue.old queue.new) }
    {
        match key {
            Some(key) if self.book.depth(key).is_none() => queue.wake(alloc, key),
            _ => Ok(()),
        }
    }

    /// A session can't move. If it waits for a key, the queue knows it by that key from now on.
    fn park(&self, alloc: Global, who: SessionId, queue: &mut Queue) -> Result<(), AllocError>
        ensures { OnOk result (Parks self.now.book who queue.old queue.new) }
    {
        if let Some(key) = self.book.awaited(&who) {
            queue.park(alloc, key, who)?;
        }
        Ok(())
    }

    /// The first session that can makes one move. Of those in the queue that come before it, none can.
    fn move_one(
        &mut self,
        occasion: &Occasion<'_>,
        queue: &mut Queue,
        out: &mut Vec<Output>,
    ) -> Result<bool, AllocError>
        requires has_peers { HasItsPeers (left_of self.old) }
        requires watched { IsWatched queue.old (left_of self.old) }
        ensures moves { IfOk result (λ moved. MatchBool moved
            (MovesNext occasion.now.conf.now occasion.now.moment (left_of self.old) out.old.items (left_of self.new) out.new.items)
            ((left_of self.new ≡ left_of self.old) × (out.new.items ≡ out.old.items) × IsAtRest (left_of self.old))) }
        ensures watched { OnOk result (IsWatched queue.new (left_of self.new)) }
        ensures still { IfOk result (λ moved. moved ≡ false → IsStill queue.new (left_of self.new)) }
    {
        while let Some(who) = queue.pop() {
            if self.move_by(occasion, &who, out)? {
                self.stir(occasion.alloc, &who, queue)?;
                return Ok(true);
            }
            self.park(occasion.alloc, who, queue)?;
        }
        Ok(false)
    }

    /// Moves until no session can move.
    pub fn move_all(
        &mut self,
        occasion: &Occasion<'_>,
        queue: &mut Queue,
        out: &mut Vec<Output>,
    ) -> Result<(), AllocError>
        requires has_peers { HasItsPeers (left_of self.old) }
        requires watched { IsWatched queue.old (left_of self.old) }
        ensures moves { OnOk result (MovesSome occasion.now.conf.now occasion.now.moment (left_of self.old) out.old.items (left_of self.new) out.new.items) }
        ensures at_rest { OnOk result (IsAtRest (left_of self.new)) }
        ensures still { OnOk result (IsStill queue.new (left_of self.new)) }
    {
        while self.move_one(occasion, queue, out)? {}
        Ok(())
    }
}

/// The key of a handler. A client has none.
fn own_key(who: &SessionId) -> Option<Serial>
    ensures { result ≡ own_key who.now }
{
    match who {
        SessionId::Client(_) => None,
        SessionId::Handler(key) => Some(*key),
    }
}
