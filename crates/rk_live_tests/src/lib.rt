//! Tests of the libraries of the daemon that runs: what a proof of them can't show.
//!
//! # Purpose
//!
//! That calls succeed where there is memory; what a hall and its halls answer, by tables that were worked out by hand from docs/MACHINE.md and the manuals;
//! that records, seats and receipts agree, and what is left of devices that fail. Each test uses public calls alone. What programs do that are really
//! started, and many clients side by side, is in tests/serve.
//!
//! They stand apart from those of the machine, in `rk_tests`, so that both are proved side by side.
//!
//! # How it is built
//!
//! `record` (a hall, its turns and volumes), `halls` (four halls and their seats), `threads` (threads that share four halls), `children` (handlers) and
//! `sessions` (whole connections), both over the devices of `fakes`, `texts` (what faults print). `asks` and `answers` have what is asked and answered there;
//! `same` compares a value with the one that was worked out; `kept` is what a wire keeps, and a launcher.
#![tactic(auto)]

#[cfg(test)]
mod answers;
#[cfg(test)]
mod asks;
#[cfg(test)]
mod children;
#[cfg(test)]
mod fakes;
#[cfg(test)]
mod halls;
mod kept;
#[cfg(test)]
mod record;
#[cfg(test)]
mod same;
#[cfg(test)]
mod sessions;
#[cfg(test)]
mod texts;
#[cfg(test)]
mod threads;
