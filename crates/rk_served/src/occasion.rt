//! With what the steps of a turn are made.

use rk_conf::Conf;
use rk_names::Moment;
use std::alloc::Global;

/// With what all steps of one turn are made: the own step of a happening, and the moves that follow it.
#[derive(Drop)]
pub struct Occasion<'a> {
    /// Where memory comes from.
    pub alloc: Global,
    /// The configuration, which chooses the commands.
    pub conf: &'a Conf,
    /// The moment of the happening, at which each of these steps is made.
    pub moment: Moment,
}
