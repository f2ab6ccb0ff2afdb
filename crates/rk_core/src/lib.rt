//! The Book: the state of a request_key daemon, and the steps that it takes.
//!
//! # Purpose
//!
//! What the daemon does is a list of steps: something happens ([`Event`]) at a moment, and is answered ([`Answer`]). rk_machine says which
//! answers a step may have and which world it leaves. The [`Book`] is the state of a daemon, and takes these steps: keys, rings, sessions and
//! constructions, with all sixteen asks.
//!
//! # What it promises
//!
//! [`Book::step`] is one step of the machine, whatever happens and in whatever state the book is. Its answer is one that the machine allows, and the
//! book is then the world that the machine leaves. And whatever run led to the book, that run with this step is a run, and obeys the laws of every
//! run, which [`every_run`] states. [`Book::step_to_start`] is the same step for a caller that needs more copies of a start's subject. All other calls
//! only look: they answer what `Views` of rk_machine defines, and take no memory.
//!
//! A refused step changes nothing. Out of memory is answered only if the machine allows it, and every allocation of a step comes
//! before its first change.
//!
//! # The definitions
//!
//! What one has to believe is defined in rk_machine. `Copies` says what a start makes beside its answer. The rest of `specs/` (`Finding`, `Numbering`,
//! `Sought`, `Vanishing`, `NewRings`, `Follows` and `Sound`) is of the way in which the book does it, and nothing outside speaks of it.
//!
//! # How it is built
//!
//! The `Book` (`book`), which begins with its `limits`, is the `Tables` (`tables`) with what holds of every world that a run leads to (`specs/Sound.antt`).
//! `Tables` joins rk_keys, rk_rings and rk_auth into one world; each of its methods does what one definition says. `links` has the changes of rings,
//! and takes away the keys that lose their last link, each by itself: no step goes through all keys. `search` looks up a name once, and then one key
//! in each ring of a context, up to the first hit. `completion`, `making`, `sessions` and `new_rings` are what the asks are made of; `named` says who
//! asks, and which keys and rings an ask names. `wanted` has what a REQUEST looks for, `subject_copies` what a start makes beside its answer, `last_text`
//! the text of the key that was described last. `hello`, `request`, `completion_asks`, `key_asks`, `ring_asks`, `add` and `session_asks` are the asks.
//! `asks` is the gate and the dispatch, `steps` the six events, `views` what is returned without a step.
//!
//! A call that may refuse answers a `Result`: what it found, or the error (`specs/Finding.antt`). `asked` makes a reply of it, once.
//!
//! What holds of every world (`proofs/Stepping/StepsKeepSound.antt`) is proved over the twenty or so kinds of step into which rk_machine takes a step apart.
#![tactic(auto)]

mod add;
mod asks;
mod book;
mod completion;
mod completion_asks;
mod hello;
mod key_asks;
mod last_text;
mod limits;
mod links;
mod making;
mod named;
mod new_rings;
mod request;
mod ring_asks;
mod search;
mod session_asks;
mod sessions;
mod steps;
mod subject_copies;
mod tables;
mod views;
mod wanted;

pub use book::Book;
pub use limits::Limits;
pub use rk_machine::{Answer, Event, EventStep, How, Ran, every_run};
pub use subject_copies::SubjectCopies;
