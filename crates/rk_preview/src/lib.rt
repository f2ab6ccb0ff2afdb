//! What a configuration would have a request_key daemon do, before one is trusted with it.
//!
//! # Purpose
//!
//! [`Preview::read`] reads words as `check --conf PATH` and `pick --conf PATH --uid 1000 user debug:x hello`; [`Preview::of`] says what the text of that
//! configuration has to say to them: how many lines name a program, or which line a request chooses and the words of its command, as
//! `request-key -d -l -n` of keyutils does (request-key(8)). Nothing is started, and no key is looked for.
//!
//! # What it promises
//!
//! The text is that of the chosen line and of the words that its arguments stand for, by the very definitions by which a daemon picks and expands
//! (`IsPicked` of `specs/Told.antt`); it is one line for each word, and no two commands have the same text (`commands_have_one_reading`). A fault comes exactly
//! where those definitions say so (`IsRefused`): the first fault of the text, no line that fits, or the first argument that gives no word. Out of memory
//! comes only if there is no fault of the text.
//!
//! # How it is built
//!
//! `numbers`, `names` and `preview` read the words, over the options of `rk_options`. `telling` picks and expands, `text` writes, and `reading` has the law
//! that it can be read back. `behind` finds the program behind timeout(1), `fault` says in words what is wrong, `doubts` finds what is allowed and hardly meant, and `exposure` what a
//! stranger may have a program take for an option.
#![tactic(auto)]

mod behind;
mod doubts;
mod exposure;
mod fault;
mod names;
mod numbers;
mod preview;
mod reading;
mod telling;
mod text;

pub use behind::program_behind;
pub use doubts::{Doubt, has_comment, hidden_by, is_of_no_request, is_others_to_write};
pub use exposure::{Foreign, exposed};
pub use fault::{Fault, rule};
pub use preview::Preview;
pub use reading::commands_have_one_reading;
pub use telling::{checked, picked};
