//! Four halls and their seats: `opening` makes halls of new ledgers for a scene, `calls` has what a client and its handler do there, `paths` these steps
//! with their receipts, `growths` a client from its coming to its end, also if memory is refused, `counting` how much there is in each hall,
//! `settling` whether seats and receipts agree with the records.
pub mod calls;
pub mod counting;
pub mod growths;
pub mod opening;
pub mod paths;
pub mod settling;
