//! The daemon that answers a socket.
//!
//! # Purpose
//!
//! [`serve`] is what `reqkeyd serve` does: it reads a configuration, takes the path of a socket, and has each connection served by one of its workers.
//! It returns after as many connections as its settings say, or when standard input ends, if they say that; else it serves for good.
//!
//! # What it promises
//!
//! Most of what it does is outside of any contract: the sockets, files and threads of a system. What is proved are the parts. Its settings are
//! what the words say ([`Settings::read`]). The socket's path is taken and given free in one order of calls ([`take`], [`give_free`]), so nobody connects
//! before the file has its mode, and no other file is removed. A volume has its name only when all of its bytes are written ([`keep`]). What a worker
//! does with a connection is `rk_session`'s promise. tests/test_serve.py and tests/test_record.py try the whole.
//!
//! # How it is built
//!
//! `settings` has what an operator sets by options, `fault` why nothing is served. `socket`, `clock`, `gate` and `shelf` are the devices of a session: the
//! wire over an accepted socket, seconds of the system's monotonic clock, a gate that holds nobody, logs how handlers have ended, and hands out
//! volumes of which `held` counts much, and a shelf that writes a volume into the folder of the `record`, or names it. `chain` has the volumes of
//! each hall, `by_hall`, written in their order, and `drawn` the random numbers of a run. `path` takes the socket's path and gives it free, and `streams`
//! takes the places of standard streams that are closed. `platform` names the types of all these for a worker's sessions. `workers` serves the `connections`
//! that `accepting` hands out, `entrance` warns where they wait, and `serving` puts it all together. `watching` looks after the `handlers` that run each
//! second, and tells the `figures`, by a `post`. `hearing` reads and writes on the `line` to a client, however signals interrupt that, for as long as its
//! `lull` lasts.
//!
//! What `path` and `record` do to files is done by a `place` and a `folder`, traits that may tell it, so that contracts can say in which order: by the
//! system's, of `system_place` and `system_folder`, or by those of a test. So connections come in by a `door`, `streams` are taken in `standard` places, and
//! `binding` ties a volume to the one before it in a `bindery`.
//!
//! `reporter` makes each line of the log: an `entry` in the `style` of the journal or with the time, of a `kind`. `tally` counts the lines of each kind
//! (`by_kind`). `ending` has the line of a handler that has ended, `purpose` what one was started for, and `parting` how a session has ended.
#![tactic(auto)]

mod accepting;
mod bindery;
mod binding;
mod by_hall;
mod by_kind;
mod chain;
mod clock;
mod connections;
mod door;
mod drawn;
mod ending;
mod entrance;
mod entry;
mod fault;
mod figures;
mod folder;
mod gate;
mod handlers;
mod hearing;
mod held;
mod kind;
mod line;
mod lull;
mod parting;
mod path;
mod place;
mod platform;
mod post;
mod purpose;
mod record;
mod reporter;
mod serving;
mod settings;
mod shelf;
mod socket;
mod standard;
mod streams;
mod style;
mod system_door;
mod system_folder;
mod system_line;
mod system_place;
mod system_post;
mod system_standard;
mod tally;
mod watching;
mod workers;

pub use accepting::{Until, accept};
pub use bindery::Bindery;
pub use binding::bind;
pub use door::Door;
pub use fault::Fault;
pub use figures::{Clients, Figures, InHalls, InRun, Oldest, PerHall};
pub use folder::Folder;
pub use hearing::{hear, send};
pub use line::Line;
pub use lull::Lull;
pub use path::{give_free, take};
pub use place::{FileId, Place};
pub use post::Post;
pub use record::{Keeper, keep};
pub use serving::serve;
pub use settings::{LogSettings, Settings};
pub use standard::{Standard, Stream};
pub use streams::{StandIns, fill};
pub use watching::look_after;
