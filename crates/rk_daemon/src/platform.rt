//! What is around the sessions of a worker.

use crate::clock::Seconds;
use crate::gate::Relief;
use crate::record::Keeper;
use crate::reporter::Reporter;
use crate::shelf::Outlet;
use rk_hall::Names;
use rk_programs::Programs;
use rk_session::Platform;
use std::io::Eprint;
use std::marker::PhantomData;
use std::process::Processes;
use std::sync::Wait;
use std::time::Clock;

/// The types of what is around a worker's sessions: handlers are the system's programs, seconds are the daemon's, and volumes go where an operator wants
/// them.
pub struct WorkerPlatform<'a, N: Names, R>(PhantomData<(&'a R, N)>);

impl<'a, N: Names + 'a, R: Wait + Processes + Clock + Eprint + Keeper + 'a> Platform
    for WorkerPlatform<'a, N, R> {
    type Names = N;

    type Runtime = R;

    type Launcher = Programs<'a, R>;

    type Clock = Seconds<'a, R>;

    type Gate = Relief<'a, R, N, Outlet<'a, Reporter<'a, R>>>;

    type Shelf = Outlet<'a, Reporter<'a, R>>;
}
