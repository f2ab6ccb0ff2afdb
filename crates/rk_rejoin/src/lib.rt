//! Whether files are the volumes of a record, and these a run of the machine.
//!
//! # Purpose
//!
//! `reqkeyd rejoin` has [`rejoin_files`] read the files of a record by a [`Disk`], and say what they are: volumes (rk_volumes) that are for each of the four
//! halls a run of the construction machine from its first step on, or the first thing that is wrong. [`judge`] says that of volumes that were read.
//!
//! # What it promises
//!
//! An `Ok` of `judge` says of each hall that its volumes are all there up to the last one that is handed in, each once and in order, that all are of one
//! run and each says which sum the one before it has, and that their steps, joined, are a run from the empty world on, which obeys the laws of every run.
//! That no volume came after the last one it says where the records are closed, all of them. A [`Verdict`] names the hall and the volume, and the step
//! where one is answered otherwise.
//!
//! An `Ok` of `rejoin_files` says so of the volumes in the files, of which each was read once, in the order in which they were named, and nothing else. A
//! [`FilesFault`] is the fault of the file that was read last, where those before it are volumes; or the verdict on all of them. What was read is what the
//! disk tells: that of the system tells nothing, and that of a test all.
//!
//! # How it is built
//!
//! `verdict` and `part` have what is answered. `one_run` compares the numbers of the run, `joining` puts the steps of a hall together, `chain` follows the
//! sums from volume to volume, `judging` has the steps stepped through by rk_record's `rejoin`, and `closing` compares the ends of the halls. `disk` is who
//! reads files, `reading` makes volumes of them and puts these in order, `files` has them judged, and `files_fault` has why they are no record.
#![tactic(auto)]

mod chain;
mod closing;
mod disk;
mod files;
mod files_fault;
mod joining;
mod judging;
mod one_run;
mod part;
mod reading;
mod verdict;

pub use disk::{Disk, ReadFault};
pub use files::rejoin_files;
pub use files_fault::FilesFault;
pub use judging::judge;
pub use part::{Part, Total};
pub use verdict::Verdict;
