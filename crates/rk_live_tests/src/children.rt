//! Handlers over fakes: `handling` brings one to its end and looks at what came of it, `rows` has what a requester gets for each call of a device that fails,
//! `growths` where memory is refused, and `told` what passes with a handler.
mod growths;
mod handling;
pub mod rows;
mod told;
