//! Where volumes go that a hall has handed out.

use rk_hall::{Names, Volume};
use std::sync::Wait;

/// Takes the volumes of the halls' records, outside every lock.
pub trait Shelf {
    /// A volume that was handed out, and goes back to its hall when this returns.
    fn put<N: Names, R: Wait>(&self, rt: &R, volume: &Volume<N>);
}
