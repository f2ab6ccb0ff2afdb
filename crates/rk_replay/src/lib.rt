//! The script of a replay: its lines in, replies and commands out.
//!
//! # Purpose
//!
//! `reqkeyd replay` is [`run_script`] over its standard streams. The replay itself, which takes what the lines say, is `rk_served`. So the
//! lines `100 accept 1` and `100 bytes 1 000000050700000003`, READ 3 of a client without a context, give `to 1 00000002030d`, EACCES.
//!
//! # What is promised
//!
//! [`run_script`] reads a script, plays its lines and writes what results from them. These are the lines of a served list for the
//! happenings of what it read, with one line for each line of the script that changed nothing (`specs/Written.antt`). It writes nothing
//! else. Lines before the first happening may set the configuration and the negative time (`specs/Script.antt`); where the
//! configuration is refused, its fault is the last line. The list is served in the order of work, and its steps are a run of the
//! machine, with the laws of every run. The contract of the call itself says so: it is what `rk_served` says of each happening. Where
//! the script can't be read, is too long or out of memory, the writer is left as it was. A script of fewer than 1,048,576 bytes is
//! never too long.
//!
//! [`ScriptLine::read`] says what a line of a script says, and a [`Transcript`] holds what is output as lines of text
//! (`specs/Reading.antt`, `specs/Writing.antt`). Numbers are decimal, those of seconds with 1 to 20 digits; bytes are hexadecimal; and
//! a line has at most 262,144 bytes.
//!
//! # How it is built
//!
//! `script` reads and writes the streams, `settings` holds what the head of a script sets, and `playing` goes through its lines.
//! `lines` cuts it into them, `script_line` reads one, by `field` and `verb` from its front, each in time in proportion to what it reads, and
//! `numbers` and `digits` read what most fields are.
//! `transcript` has the lines of the output, and `fault` why a script was given up.
#![tactic(auto)]

mod digits;
mod fault;
mod field;
mod lines;
mod numbers;
mod playing;
mod script;
mod script_line;
mod settings;
mod transcript;
mod verb;

pub use fault::ScriptFault;
pub use rk_served::{
    Bytes, Happening, Output, Outputs, Replay, StartResult, TakeFault, served_is_run,
};
pub use script::run_script;
pub use script_line::ScriptLine;
pub use transcript::{LineFault, Transcript};
