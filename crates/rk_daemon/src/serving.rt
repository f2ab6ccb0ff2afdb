//! The daemon from its start to its end.
ghost use Rattle.std.specs.Prelude.{◌≡◌, IfErr, IfOk, option_map, string_bytes};
ghost use Rattle.rk_daemon.specs.Faults.{IsFound, IsOfConf, IsOfRecord};

use crate::accepting::{Until, accept};
use crate::chain::Run;
use crate::connections::Connections;
use crate::drawn::Drawn;
use crate::entrance::Entrance;
use crate::fault::Fault;
use crate::handlers::Handlers;
use crate::held::Held;
use crate::path::{give_free, take};
use crate::record::{Keeper, is_free};
use crate::reporter::{LogState, Reporter};
use crate::settings::Settings;
use crate::streams::fill;
use crate::style::Style;
use crate::system_door::SystemDoor;
use crate::system_place::SystemPlace;
use crate::system_standard::SystemStandard;
use crate::workers::{Shared, Times, start, start_watch};
use log::warn;
use rk_conf::Conf;
use rk_hall::{Fresh, HallNo, Halls, Names};
use std::alloc::{AllocError, Global};
use std::fs;
use std::fs::{File, Files};
use std::io::{Eprint, Write};
use std::marker::Brand;
use std::net::Net;
use std::os::unix::net::UnixListener;
use std::process::{Processes, SystemProcess};
use std::random::RandomSource;
use std::rt::Env;
use std::sync::{Arc, Wait};
use std::thread::Threads;
use std::time::{Clock, Instant};

/// How many accepted connections may wait for a worker.
const WAITING: usize = 64;

/// How many steps a volume of a hall's record has at most. A record keeps the bytes of what was asked and answered until its volume is handed out and
/// dropped, which is done earlier where these come to much (`gate`).
const VOLUME: usize = 8192;

/// What is said once connections are accepted.
const READY: &[u8] = b"reqkeyd: ready\n";

/// What is there once a daemon may begin.
#[derive(Drop)]
struct Opened {
    /// What was drawn at its start.
    drawn: Drawn,
    /// The configuration, read once.
    conf: Conf,
    /// Where clients connect.
    listener: UnixListener,
    /// How lines of the log look, and how many were written.
    log: LogState,
}

/// Serves what comes at the listener, with new halls, and hands out the last volumes of their record.
fn serve_at<
    N: Names + Send + Sync + 'static,
    R: Threads
        + Wait
        + Processes<Started = SystemProcess>
        + Clock
        + Eprint
        + Keeper
        + Clone
        + Send
        + Drop
        + 'static,
    E: Write,
>(
    rt: &R,
    alloc: Global,
    fresh: Fresh,
    opened: Opened,
    settings: &Settings<'_>,
    errors: &mut E,
) -> Result<(), AllocError>
    requires zero { (fresh.zero.calls.name ≡ N.name 0) × (fresh.zero.out.name ≡ N.name 1) }
    requires one { (fresh.one.calls.name ≡ N.name 2) × (fresh.one.out.name ≡ N.name 3) }
    requires two { (fresh.two.calls.name ≡ N.name 4) × (fresh.two.out.name ≡ N.name 5) }
    requires three { (fresh.three.calls.name ≡ N.name 6) × (fresh.three.out.name ≡ N.name 7) }
{
    let Opened {
        drawn,
        conf,
        listener,
        log,
    } = opened;
    let halls: Halls<N> = Halls::with_volume(alloc, fresh, settings.negative, drawn.seed, VOLUME)?;
    let Ok(begun) = Instant::now(rt) else {
        return Err(AllocError);
    };
    let keyutils = copied(alloc, settings.keyutils)?;
    let run = copied(alloc, settings.folder)?.map(|folder| Run::new(folder, drawn.run));
    let shared = Arc::new(
        alloc,
        Shared {
            halls,
            conf,
            start: begun,
            connections: Connections::new(),
            held: Held::new(),
            handlers: Handlers::new(alloc),
            log,
            keyutils,
            run,
            times: Times::of(settings),
        },
    )?;
    serve_out(rt, alloc, &shared, listener, settings, errors)?;
    if shared.run.is_some() {
        hand_out_all(rt, alloc, &shared);
    }
    Ok(())
}

/// Serves what comes at the listener, until no more is to come and what came is served to its end.
fn serve_out<
    N: Names + Send + Sync + 'static,
    R: Threads
        + Wait
        + Processes<Started = SystemProcess>
        + Clock
        + Eprint
        + Keeper
        + Clone
        + Send
        + Drop
        + 'static,
    E: Write,
>(
    rt: &R,
    alloc: Global,
    shared: &Arc<Shared<N>>,
    listener: UnixListener,
    settings: &Settings<'_>,
    errors: &mut E,
) -> Result<(), AllocError> {
    let (to, from) = crossbeam_channel::bounded(alloc, WAITING)?;
    let workers = start(rt, alloc, shared, &from, settings.sessions)?;
    drop(from);
    let (watched, end) = crossbeam_channel::bounded(alloc, 1)?;
    let watcher = start_watch(rt, shared, end, settings.log)?;
    let _ = errors.write_all(READY);
    let entrance = Entrance::new(&shared.connections, settings.sessions);
    let log = Reporter::new(rt, &shared.log);
    let mut door = SystemDoor::new(rt, &log, listener, entrance, to);
    accept(rt, &log, &mut door, until(settings));
    drop(door);
    for worker in workers {
        worker.join(rt);
    }
    drop(watched);
    watcher.join(rt);
    log.tell_left_out(u64::MAX);
    Ok(())
}

/// When the daemon is to end by itself.
fn until(settings: &Settings<'_>) -> Until
    ensures clients { result.clients ≡ settings.now.clients }
    ensures eof { result.eof ≡ settings.now.until_eof }
{
    Until {
        clients: settings.clients,
        eof: settings.until_eof,
    }
}

/// A copy of a path, where there is one.
fn copied(alloc: Global, path: Option<&str>) -> Result<Option<String>, AllocError>
    ensures { IfOk result (λ copy. option_map string_bytes copy ≡ option_map (λ p. p.now) path.entry) }
{
    match path {
        Some(path) => Ok(Some(String::from_str(alloc, path)?)),
        None => Ok(None),
    }
}

/// Hands out what each hall still records, once nobody serves any more; a volume without a step, too.
fn hand_out_all<N: Names, R: Wait + Eprint + Clock + Keeper>(
    rt: &R,
    alloc: Global,
    shared: &Shared<N>,
) {
    let log = Reporter::new(rt, &shared.log);
    let shelf = shared.shelf(&log, alloc);
    for hall in HallNo::ALL {
        match shared.halls.roll(rt, hall) {
            Ok(volume) => shelf.put_last(rt, &volume),
            Err(fault) => {
                let hall = hall.number();
                warn!(log; "the last volume of hall {hall}: {fault:?}");
            }
        }
    }
}

/// Serves what comes at the listener, with halls that are named here.
fn serve_named<
    R: Threads
        + Wait
        + Processes<Started = SystemProcess>
        + Clock
        + Eprint
        + Keeper
        + Clone
        + Send
        + Drop
        + 'static,
    E: Write,
>(
    rt: &R,
    alloc: Global,
    opened: Opened,
    settings: &Settings<'_>,
    errors: &mut E,
) -> Result<(), AllocError> {
    let fresh = Fresh::new();
    serve_at::<Brand, R, E>(rt, alloc, fresh, opened, settings, errors)
}

/// The configuration of the file at the path.
fn conf_at<R: Files + AllocGlobal>(rt: &R, path: &str) -> Result<Conf, Fault>
    ensures { IfErr result IsOfConf }
{
    let text = match fs::read(rt, path) {
        Ok(text) => text,
        Err(error) => return Err(Fault::Unreadable(error)),
    };
    match Conf::read(rt.alloc(), &text) {
        Ok(conf) => Ok(conf),
        Err(fault) => Err(Fault::Conf(fault)),
    }
}

/// That a record may be written into this folder, where there is one.
fn record_at<R: Files + AllocGlobal + Clone + Drop>(
    rt: &R,
    folder: Option<&str>,
) -> Result<(), Fault>
    ensures { IfErr result IsOfRecord }
{
    match folder {
        Some(folder) => match is_free(rt, folder) {
            Ok(true) => Ok(()),
            Ok(false) => Err(Fault::Recorded),
            Err(error) => Err(Fault::Record(error)),
        },
        None => Ok(()),
    }
}

/// Reads the configuration, draws the seed and the number of this run, looks at the folder of the record and for the library, takes the places of standard
/// streams that are closed and the path of the socket, and serves connections: for good, or until so many have come as the settings say, and those are served
/// out. It says on `errors` when connections are accepted.
pub fn serve<
    R: Files
        + Net
        + Env
        + Threads
        + Wait
        + Processes<Started = SystemProcess>
        + Clock
        + Eprint
        + Keeper
        + RandomSource
        + AllocGlobal
        + Clone
        + Send
        + Drop
        + 'static,
    E: Write,
>(rt: &R, settings: &Settings<'_>, errors: &mut E) -> Result<(), Fault>
    ensures { IfErr result IsFound }
{
    let conf = conf_at(rt, settings.conf)?;
    let drawn = Drawn::of(rt)?;
    record_at(rt, settings.folder)?;
    if let Some(library) = settings.keyutils
        && let Err(error) = File::open(rt, library)
    {
        return Err(Fault::Keyutils(error));
    }
    let _stand_ins = match fill(&mut SystemStandard::new(rt)) {
        Ok(taken) => taken,
        Err(error) => return Err(Fault::Stream(error)),
    };
    let mut place = SystemPlace::new(rt);
    let (listener, taken) = match take(&mut place, settings.socket, settings.mode) {
        Ok(opened) => opened,
        Err(error) => return Err(Fault::Socket(error)),
    };
    let opened = Opened {
        drawn,
        conf,
        listener,
        log: LogState::new(settings.log.level, Style::of_errors(rt)),
    };
    let served = serve_named(rt, rt.alloc(), opened, settings, errors);
    give_free(&mut place, settings.socket, taken);
    match served {
        Ok(()) => Ok(()),
        Err(AllocError) => Err(Fault::NoMemory),
    }
}
