//! Tests of what programs do outside of themselves, by fakes that tell it.
//!
//! # Purpose
//!
//! The contracts of [`rk_daemon::take`], [`rk_daemon::give_free`], [`rk_daemon::keep`], [`rk_daemon::accept`], [`rk_daemon::fill`], [`rk_daemon::bind`],
//! [`rk_daemon::hear`], [`rk_daemon::send`], [`rk_daemon::look_after`], [`rk_rejoin::rejoin_files`], [`rk_run::run`] and [`rk_ctl::run_words`] speak of
//! devices that tell what is done. Here are such devices, so what each contract promises is shown without a premise. Tables try that these calls succeed where
//! nothing fails, and what is done where something does.
//!
//! # How it is built
//!
//! `paths` has a path that tells, `folders` a folder, `doors` a door, `streams` standard streams, `lines` a line to a client, `posts` a daemon each second,
//! `volumes` those of a hall, `disks` a disk, and `hosts` the host of a run; `done` is what they keep. `daemons` has a daemon that is asked, and `said` is what
//! it keeps.
#![tactic(auto)]

#[cfg(test)]
mod daemons;
#[cfg(test)]
mod disks;
mod done;
#[cfg(test)]
mod doors;
#[cfg(test)]
mod folders;
#[cfg(test)]
mod hosts;
#[cfg(test)]
mod lines;
#[cfg(test)]
mod paths;
#[cfg(test)]
mod posts;
mod said;
#[cfg(test)]
mod streams;
#[cfg(test)]
mod volumes;
