//! The volumes of a hall's record as files, written and read.
//!
//! # Purpose
//!
//! A daemon that keeps its record writes each volume into a file (`reqkeyd serve --record`). [`Seal::store`] writes one, and [`Stored::read`] reads it: the
//! hall and the place of the volume in its record, the seconds for which a key is negative, and every step with its moment, its event and its answer.
//!
//! # What it promises
//!
//! What was written is read back as the same head, the same steps and the same seal. A volume in its seal has the sum of all its bytes before it, by SHA-256:
//! a file that was cut or changed is refused, unless its sum is right by chance. A volume with nothing around it (version 1) is one or none, and no other one
//! with more bytes after it (`volumes_have_one_reading`). A [`Fault`] says what is wrong and at which step, and comes exactly if that is so; out of
//! memory alone comes besides.
//!
//! # The format
//!
//! A line of text names the format and its version. A file of version 2 has a [`Seal`] after it, then a volume as version 1 has it, and the sum. After the
//! line of version 1 stand the head and the steps, in numbers with their highest byte first. A step is its moment,
//! its event and its answer; event and answer are rows of one shape, each after its length: a kind, a byte that says how, a number, and the rest. Asks and
//! replies stand in a row as they do on the wire (rk_message). docs/RECORD.md has the tables.
//!
//! # How it is built
//!
//! `specs/Format.antt` is the format of a volume, `specs/Seals.antt` that of a seal, and `specs/Filed.antt` says what a file has. `numbers` reads numbers and
//! what follows a length, `row` reads and writes rows, `kinds` has the numbers of sessions, starts, ends and uses. `event_reading`, `event_writing`,
//! `answer_reading` and `answer_writing` make rows of steps and back, `subject` has what is started, and `seal` what ties volumes together. `step`, `head`
//! and `stored` put them together. `fault` says why a file is no volume, and `law` has the law that it is one or none.
#![tactic(auto)]

mod answer_reading;
mod answer_writing;
mod event_reading;
mod event_writing;
mod fault;
mod head;
mod kinds;
mod law;
mod numbers;
mod row;
mod seal;
mod step;
mod stored;
mod subject;

pub use fault::Fault;
pub use head::Head;
pub use law::volumes_have_one_reading;
pub use seal::{RunNumber, Seal, Sealed, Sum};
pub use stored::Stored;
