//! The configuration of a request_key daemon: which program answers which request.
//!
//! # Purpose
//!
//! The text is that of request-key.conf(5), with the differences that reqkeyd.conf(5) lists. A [`Conf`] is the
//! list of its [`Line`]s; [`Conf::pick`] gives the first line whose four patterns fit a request. So after
//! `Conf::read(alloc, b"create user debug:* * |/bin/cat")`, a request for the key `debug:x` of the type `user` picks
//! the line 1, whose program is `/bin/cat`, with pipes.
//!
//! # What it promises
//!
//! `Conf::read` gives exactly the lines of the text (`lines_in` of `specs/Reading.antt`): those that are neither blank nor a
//! comment, each with its number and its fields. Where a line breaks a rule it answers the first such line and the first
//! rule that it breaks (`faults_in`). Out of memory is answered only for a text in which no line breaks one. `pick` answers
//! the chosen line (`IsChosen` of `specs/Choice.antt`), of which there is never more than one, and takes no memory. Every
//! field and argument is a [`Word`]: UTF-8 without a zero byte, so that a program can be handed it.
//!
//! Macros are read with their line, into [`Argument`]s: who expands a line meets no bad macro.
//!
//! # How it is built
//!
//! `rk_text` cuts a text into lines and a line into fields. `borrowed_argument` reads one argument and `fields` one line on the borrowed bytes; both take no
//! memory. `program` has the rules of what stands after the patterns, `fault` what a refusal says. `argument`, `arguments`, `line` and `word` are the values
//! that are kept. `conf` reads the text twice: once for its first fault, and then, if it has none, for its lines.
#![tactic(auto)]

mod argument;
mod arguments;
mod borrowed_argument;
mod conf;
mod fault;
mod fields;
mod line;
mod program;
mod word;

pub use argument::{Argument, Wanted};
pub use arguments::Arguments;
pub use conf::{Conf, picks_one};
pub use fault::{ConfFault, ConfKind};
pub use line::Line;
pub use word::Word;
