//! The construction machine of a request_key daemon: its definitions, and the laws of every run.
//!
//! # Purpose
//!
//! What the daemon does is a list of steps: something happens ([`Event`]) at a moment, and is answered ([`Answer`]). The machine says which
//! answers a step may have and which world it leaves. It is described in docs/MACHINE.md, and written as definitions in `specs/`. Nothing
//! here takes a step: rk_core has the state of a daemon, and each of its steps is one of the machine.
//!
//! # What it promises
//!
//! Whatever steps the machine takes from the empty world on, they obey the laws of every run, which [`every_run`] states. So whoever shows
//! only that each of its answers is a step of the machine has these laws as well.
//!
//! # The definitions
//!
//! They are what one has to believe. `World` has keys, rings, serials and sessions; `Allowed` the forms of what a step may answer and leave; `Asker`
//! who acts, and what rings and keys an ask names. `Links`, `Search` and `Completion` follow, then the asks by family: `Hello`, `Request`, `KeyAsks`,
//! `Asks`. `Steps` has one step, and runs; `Views` what is returned without a step; `Laws` the laws. What a library holds is defined there: keys,
//! standing and serials in rk_keys, rings and places in rk_rings, sessions, constructions and circles in rk_auth.
//!
//! They know nothing of tables, of an order of work or of the code. A free choice stays free: any serial that was never drawn, and whose
//! turn it is.
//!
//! # What is owed
//!
//! Whoever records the steps of a daemon has to keep room for those that may not be refused for lack of memory or room. They are the end of a
//! client, the launches and ends of a construction, and the collect of a wait. `Owing` counts them for a world, for one client or construction, and
//! for a step, and `Recording` says how each step changes the counts ([`every_step_owed`]).
//!
//! # How it is built
//!
//! `event` has what happens and what is answered, `boxed_subject` the subject of a start. `asker` has what the definitions of the asks speak of,
//! `owing` counts what is owed, and `laws` has the one call that promises the laws.
//!
//! `proofs/Effects/KindsOfStep.antt` turns a step inside out once: whatever step the machine may take is one of some twenty, each with what
//! it found and what it leaves. Every law is proved over these (`proofs/EveryRun/KeepsLaws.antt`), and so is what others hold of every
//! step. After it, `proofs/Effects/StagesByStep.antt` and `proofs/Effects/ClientsByStep.antt` say which constructions and clients there
//! are. `proofs/Effects/UndrawnIsIdle.antt` says that a serial that was never drawn has no construction,
//! `proofs/OwedSteps/EachRecorded.antt` what is owed.
#![tactic(auto)]

mod asker;
mod boxed_subject;
mod event;
mod laws;
mod owing;

pub use asker::Asker;
pub use boxed_subject::BoxedSubject;
pub use event::{Answer, Event, EventOf, EventStep, EventView, How, Ran, done};
pub use laws::{every_run, every_step_owed};
pub use owing::{session_owes, stage_ends, stage_owes};
