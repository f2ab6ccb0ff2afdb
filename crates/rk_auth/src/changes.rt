//! The changes of sessions and constructions, each as the table takes it.
ghost use Rattle.std.specs.Prelude.{◌≡◌, Some, None};
ghost use Rattle.rk_auth.specs.Seats.{in_session, in_construction};
ghost use Rattle.rk_auth.specs.Changes.{in_stage, in_handler, in_new_stage, with_context, with_setting, with_assumed, with_wait, new_wait, without_authority, told};

use crate::construction::{Construction, Stage};
use crate::session::{Outcome, Session, Wait};
use crate::slot::Standing;
use rk_names::{Context, Serial, Setting};
use rk_table::ChangeOnce;

/// Gives a session its context.
#[derive(Clone, Copy)]
pub struct SetContext(pub Context);

impl ChangeOnce<Session> for SetContext {
    ghost changed = { λ c s. with_context c.0 s };

    fn change(self, session: &mut Session) {
        session.context = Some(self.0);
    }
}

/// Gives a session its setting.
#[derive(Clone, Copy)]
pub struct SetSetting(pub Setting);

impl ChangeOnce<Session> for SetSetting {
    ghost changed = { λ c s. with_setting c.0 s };

    fn change(self, session: &mut Session) {
        session.setting = self.0;
    }
}

/// Lets a session assume the authority of a key.
#[derive(Clone, Copy)]
pub struct Assume(pub Serial);

impl ChangeOnce<Session> for Assume {
    ghost changed = { λ c s. with_assumed (Some c.0) s };

    fn change(self, session: &mut Session) {
        session.assumed = Some(self.0);
    }
}

/// Lets a session drop the authority that it has assumed.
#[derive(Clone, Copy)]
pub struct DropAssumed;

impl ChangeOnce<Session> for DropAssumed {
    ghost changed = { λ _ s. with_assumed None s };

    fn change(self, session: &mut Session) {
        let DropAssumed = self;
        session.assumed = None;
    }
}

/// Lets a session wait for a key.
#[derive(Clone, Copy)]
pub struct BeginWait {
    /// For which key.
    pub key: Serial,
    /// Whether its request started the construction.
    pub starter: bool,
}

impl ChangeOnce<Session> for BeginWait {
    ghost changed = { λ c s. with_wait (Some (new_wait c.key c.starter)) s };

    fn change(self, session: &mut Session) {
        session.wait = Some(Wait {
            key: self.key,
            starter: self.starter,
            outcome: None,
        });
    }
}

/// Lets a session wait no more.
#[derive(Clone, Copy)]
pub struct EndWait;

impl ChangeOnce<Session> for EndWait {
    ghost changed = { λ _ s. with_wait None s };

    fn change(self, session: &mut Session) {
        let EndWait = self;
        session.wait = None;
    }
}

/// A change of the handler's session, if there is one.
#[derive(Clone, Copy)]
pub struct InHandler<C>(pub C);

impl<C: ChangeOnce<Session> + Copy> ChangeOnce<Construction> for InHandler<C> {
    ghost changed = { λ c one. in_handler (C.changed c.0) one };

    fn change(self, construction: &mut Construction) {
        if let Stage::Plain(session) = &mut construction.stage {
            self.0.change(session);
        }
    }
}

/// A change of the session of who stands in a slot, if there is one.
#[derive(Clone, Copy)]
pub struct InSession<C>(pub C);

impl<C: ChangeOnce<Session> + Copy> ChangeOnce<Standing> for InSession<C> {
    ghost changed = { λ c one. in_session (C.changed c.0) one };

    fn change(self, standing: &mut Standing) {
        match standing {
            Standing::Nobody => {}
            Standing::Client(_, session) => self.0.change(session),
            Standing::Construction(_, construction) => InHandler(self.0).change(construction),
        }
    }
}

/// A change of the construction that stands in a slot, if there is one.
#[derive(Clone, Copy)]
pub struct InConstruction<C>(pub C);

impl<C: ChangeOnce<Construction> + Copy> ChangeOnce<Standing> for InConstruction<C> {
    ghost changed = { λ c one. in_construction (C.changed c.0) one };

    fn change(self, standing: &mut Standing) {
        if let Standing::Construction(_, construction) = standing {
            self.0.change(construction);
        }
    }
}

/// The construction enters a stage.
#[derive(Clone, Copy)]
pub struct Enter(pub Stage);

impl ChangeOnce<Construction> for Enter {
    ghost changed = { λ c one. in_new_stage c.0 one };

    fn change(self, construction: &mut Construction) {
        construction.stage = self.0;
    }
}

/// The authority is spent, and no longer assumed.
#[derive(Clone, Copy)]
pub struct Spend;

impl ChangeOnce<Construction> for Spend {
    ghost changed = { λ _ one. without_authority one };

    fn change(self, construction: &mut Construction) {
        let Spend = self;
        construction.authority = None;
        if let Stage::Plain(session) = &mut construction.stage {
            session.assumed = None;
        }
    }
}

/// A wait on the key gets the outcome.
#[derive(Clone, Copy)]
pub struct Tell {
    /// The key on which the wait is.
    pub key: Serial,
    /// The outcome that it gets.
    pub outcome: Outcome,
}

impl ChangeOnce<Session> for Tell {
    ghost changed = { λ c s. told c.key c.outcome s };

    fn change(self, session: &mut Session) {
        if let Some(wait) = &mut session.wait {
            if wait.key == self.key {
                wait.outcome = Some(self.outcome);
            }
        }
    }
}
