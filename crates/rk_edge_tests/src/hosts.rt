//! A host that tells what is done of a run, and how a program is run by it.
ghost use Rattle.std.specs.Prelude.{◌≡◌, [], ◌∷◌, ◌++◌, map, option_map, Some, string_bytes};
ghost use Rattle.rk_run.specs.Runs.{Runs};
ghost use Rattle.rk_run.specs.Seen.{seen_in};
ghost use Rattle.rk_run.specs.Words.{said_by};
ghost use Rattle.rk_edge_tests.specs.Done.{of_run};

use crate::done::OfRun;
use rk_client::PeerFault;
use rk_message::{Ask, Reply};
use rk_names::Errno;
use rk_run::{Here, Host, RunFault, StartFault, Wanted, run};
use std::alloc::{AllocError, Global};
use std::os::unix::process::ExitStatusExt;
use std::process::{Abort, Command, ExitStatus};

/// What goes wrong at a host; all else goes well.
#[derive(Clone, Copy, Debug, PartialEq, Eq)]
enum Wrong {
    /// Nothing does.
    Nothing,
    /// There is no memory for a look.
    Look,
    /// The environment names no socket.
    Socket,
    /// The file that is sought is not there.
    File,
    /// There is no reply.
    Silence(PeerFault),
    /// HELLO is refused.
    Refusal(Errno),
    /// The reply is none to HELLO.
    Number,
    /// The program is not started.
    Start(StartFault),
    /// A signal ends the program.
    Signal,
    /// Its end is not told.
    End,
}

/// A host that tells what is done. What goes wrong there is given. Out of memory for what it keeps ends the process.
#[derive(Drop)]
struct Telling<'a, R> {
    /// The host that ends the test when memory runs out.
    rt: &'a R,
    /// Where memory for the copies comes from.
    alloc: Global,
    /// What goes wrong.
    wrong: Wrong,
    /// What was done, first things first.
    done: Vec<OfRun>,
}

impl<'a, R: Abort> Telling<'a, R> {
    /// A host by which nothing was done. It takes no memory.
    fn new(rt: &'a R, alloc: Global, wrong: Wrong) -> Telling<'a, R>
        ensures { result.done.items ≡ [] }
    {
        Telling {
            rt,
            alloc,
            wrong,
            done: Vec::new(alloc),
        }
    }

    /// Who runs the program, and what is there.
    fn here(&self) -> Here {
        Here {
            uid: 10,
            gid: 20,
            preloaded: Some(self.copy("/a.so")),
            socket: match self.wrong {
                Wrong::Socket => None,
                _ => Some(self.copy("rk")),
            },
            folder: Some(self.copy("/home")),
            installed: self.copy("/k.so"),
            trap: self.copy("/trap"),
        }
    }

    /// What is answered to HELLO.
    fn answer(&self) -> Result<Reply, PeerFault> {
        match self.wrong {
            Wrong::Silence(fault) => Err(fault),
            Wrong::Refusal(errno) => Ok(Reply::Refused(errno)),
            Wrong::Number => Ok(Reply::Number(7)),
            _ => Ok(Reply::Rings {
                thread: 0,
                process: 0,
                session: 7,
                user: 5,
            }),
        }
    }

    /// A copy of a text.
    fn copy(&self, text: &str) -> String
        ensures { string_bytes result ≡ text.now }
    {
        String::from_str(self.alloc, text).expect(self.rt, "memory")
    }

    /// A copy of a text, if there is one.
    fn copy_of_some(&self, text: &Option<String>) -> Option<String>
        ensures { option_map string_bytes result ≡ option_map string_bytes text.now }
    {
        match text {
            Some(text) => Some(self.copy(text.as_str())),
            None => None,
        }
    }

    /// A copy of what is there.
    fn copy_of_here(&self, here: &Here) -> Here
        ensures { seen_in result ≡ seen_in here.now }
    {
        Here {
            uid: here.uid,
            gid: here.gid,
            preloaded: self.copy_of_some(&here.preloaded),
            socket: self.copy_of_some(&here.socket),
            folder: self.copy_of_some(&here.folder),
            installed: self.copy(here.installed.as_str()),
            trap: self.copy(here.trap.as_str()),
        }
    }

    /// A copy of an ask.
    fn copy_of_ask(&self, ask: &Ask) -> Ask
        ensures { result ≡ ask.now }
    {
        ask.clone().expect(self.rt, "memory")
    }

    /// A copy of an answer.
    fn copy_of_answer(&self, answer: &Result<Reply, PeerFault>) -> Result<Reply, PeerFault>
        ensures { result ≡ answer.now }
    {
        match answer {
            Ok(reply) => Ok(reply.clone().expect(self.rt, "memory")),
            Err(fault) => Err(*fault),
        }
    }

    /// Keeps what was done.
    fn keep(&mut self, done: OfRun)
        ensures { self.new.done.items ≡ self.old.done.items ++ done ∷ [] }
    {
        self.done.push(done).expect(self.rt, "memory");
    }
}

impl<'a, R: Abort> Host for Telling<'a, R> {
    ghost story = { λ host. Some (map of_run host.done.items) };

    fn look(&mut self) -> Result<Here, AllocError> {
        if self.wrong == Wrong::Look {
            return Err(AllocError);
        }
        let here = self.here();
        let copy = self.copy_of_here(&here);
        self.keep(OfRun::Looked(copy));
        Ok(here)
    }

    fn has(&mut self, path: &str) -> bool {
        let (path, is_there) = (self.copy(path), self.wrong != Wrong::File);
        self.keep(OfRun::Sought(path, is_there));
        is_there
    }

    fn greet(&mut self, path: &str, ask: &Ask) -> Result<Reply, PeerFault> {
        let (path, ask) = (self.copy(path), self.copy_of_ask(ask));
        let answer = self.answer();
        let copy = self.copy_of_answer(&answer);
        self.keep(OfRun::Greeted(path, ask, copy));
        answer
    }

    fn start(&mut self, command: Command) -> Result<(), StartFault> {
        let outcome = match self.wrong {
            Wrong::Start(fault) => Err(fault),
            _ => Ok(()),
        };
        self.keep(OfRun::Started(command, outcome));
        outcome
    }

    fn wait(&mut self) -> Option<ExitStatus> {
        let status = match self.wrong {
            Wrong::End => None,
            Wrong::Signal => Some(ExitStatus::from_raw(9)),
            _ => Some(ExitStatus::from_raw(0x300)),
        };
        self.keep(OfRun::Waited(status));
        status
    }

    fn close(&mut self) {
        self.keep(OfRun::Closed);
    }

    fn trouble(&self) -> Option<&str> {
        None
    }
}

/// Runs what is wanted by a host by which nothing was done: all that it does is a run.
fn ran<R: Abort>(
    rt: &R,
    alloc: Global,
    wrong: Wrong,
    wanted: &Wanted<'_>,
) -> (Vec<OfRun>, Result<u8, RunFault>)
    ensures { Runs (said_by wanted.now) (map of_run result.0.items) result.1 }
{
    let mut host = Telling::new(rt, alloc, wrong);
    let outcome = run(alloc, &mut host, wanted);
    (host.done, outcome)
}

/// The words of a call that names a program alone; those of one that names all that it may; and those of one by reqkey-trap.
const PLAIN: &[&str] = &["reqkeyctl", "run", "--", "id", "-u"];

const NAMED: &[&str] = &[
    "reqkeyctl",
    "run",
    "--socket=/run/rk",
    "--uid=1",
    "--gid=2",
    "--library=/n.so",
    "--",
    "id",
];

const TRAP: &[&str] = &["reqkeyctl", "run", "--trap", "--", "id", "-u"];

/// What is seen, with a socket in the environment, and with none.
const LOOKED: &str =
    "Looked(Here { uid: 10, gid: 20, preloaded: Some(\"/a.so\"), socket: Some(\"rk\"), folder: Some(\"/home\"), \
    installed: \"/k.so\", trap: \"/trap\" })";

const SAW_NONE: &str =
    "Looked(Here { uid: 10, gid: 20, preloaded: Some(\"/a.so\"), socket: None, folder: Some(\"/home\"), \
    installed: \"/k.so\", trap: \"/trap\" })";

/// Whether the file that is sought is there: the library that is installed, the one that is named, or reqkey-trap.
const FOUND: &str = r#"Sought("/k.so", true)"#;

const FOUND_NONE: &str = r#"Sought("/k.so", false)"#;

const FOUND_NAMED: &str = r#"Sought("/n.so", true)"#;

const FOUND_TRAP: &str = r#"Sought("/trap", true)"#;

const FOUND_NO_TRAP: &str = r#"Sought("/trap", false)"#;

/// HELLO is answered with rings, for who runs the program and for who is named; with another reply; with a refusal; or not at all.
const GREETED: &str =
    "Greeted(\"rk\", Hello(Greeting { uid: 10, gid: 20, thread: false, process: false, join: None }), \
    Ok(Rings { thread: 0, process: 0, session: 7, user: 5 }))";

const GREETED_NAMED: &str =
    "Greeted(\"/run/rk\", Hello(Greeting { uid: 1, gid: 2, thread: false, process: false, join: None }), \
    Ok(Rings { thread: 0, process: 0, session: 7, user: 5 }))";

const NUMBERED: &str =
    r#"Greeted("rk", Hello(Greeting { uid: 10, gid: 20, thread: false, process: false, join: None }), Ok(Number(7)))"#;

const REFUSED: &str =
    r#"Greeted("rk", Hello(Greeting { uid: 10, gid: 20, thread: false, process: false, join: None }), Ok(Refused(Eacces)))"#;

const LOST: &str =
    r#"Greeted("rk", Hello(Greeting { uid: 10, gid: 20, thread: false, process: false, join: None }), Err(Lost))"#;

const MALFORMED: &str =
    r#"Greeted("rk", Hello(Greeting { uid: 10, gid: 20, thread: false, process: false, join: None }), Err(Malformed))"#;

const NOT_HEARD: &str =
    r#"Greeted("rk", Hello(Greeting { uid: 10, gid: 20, thread: false, process: false, join: None }), Err(NoMemory))"#;

/// The program is started, or it is not; so is the one of the call that names all; and so is reqkey-trap.
const STARTED: &str =
    r#"Started(env -u REQKEYD_STREAMS LD_PRELOAD="/k.so:/a.so" REQKEYD_JOIN="7" REQKEYD_SOCKET="/home/rk" "id" "-u", Ok(()))"#;

const NO_PROGRAM: &str =
    r#"Started(env -u REQKEYD_STREAMS LD_PRELOAD="/k.so:/a.so" REQKEYD_JOIN="7" REQKEYD_SOCKET="/home/rk" "id" "-u", Err(NotFound))"#;

const UNSTARTABLE: &str =
    r#"Started(env -u REQKEYD_STREAMS LD_PRELOAD="/k.so:/a.so" REQKEYD_JOIN="7" REQKEYD_SOCKET="/home/rk" "id" "-u", Err(Unstartable))"#;

const NO_ROOM: &str =
    r#"Started(env -u REQKEYD_STREAMS LD_PRELOAD="/k.so:/a.so" REQKEYD_JOIN="7" REQKEYD_SOCKET="/home/rk" "id" "-u", Err(NoMemory))"#;

const STARTED_NAMED: &str =
    r#"Started(env -u REQKEYD_STREAMS LD_PRELOAD="/n.so:/a.so" REQKEYD_JOIN="7" REQKEYD_SOCKET="/run/rk" "id", Ok(()))"#;

const TRAPPED: &str = r#"Started("/trap" "--socket" "rk" "--" "id" "-u", Ok(()))"#;

const TRAP_UNSTARTABLE: &str =
    r#"Started("/trap" "--socket" "rk" "--" "id" "-u", Err(Unstartable))"#;

/// The program has ended with status 3, or by SIGKILL, or nobody knows how.
const ENDED: &str = "Waited(Some(ExitStatus(unix_wait_status(768))))";

const KILLED: &str = "Waited(Some(ExitStatus(unix_wait_status(9))))";

const UNTOLD: &str = "Waited(None)";

const CLOSED: &str = "Closed";

/// The words, what goes wrong, the result, and all that is done, in order.
const RUNS: &[(&[&str], Wrong, Result<u8, RunFault>, &[&str])] = &[
    (
        PLAIN,
        Wrong::Nothing,
        Ok(3),
        &[LOOKED, FOUND, GREETED, STARTED, ENDED, CLOSED],
    ),
    (
        PLAIN,
        Wrong::Signal,
        Ok(137),
        &[LOOKED, FOUND, GREETED, STARTED, KILLED, CLOSED],
    ),
    (PLAIN, Wrong::Look, Err(RunFault::NoMemory), &[]),
    (PLAIN, Wrong::Socket, Err(RunFault::Socket), &[SAW_NONE]),
    (
        PLAIN,
        Wrong::File,
        Err(RunFault::File),
        &[LOOKED, FOUND_NONE],
    ),
    (
        PLAIN,
        Wrong::Silence(PeerFault::Lost),
        Err(RunFault::Socket),
        &[LOOKED, FOUND, LOST],
    ),
    (
        PLAIN,
        Wrong::Silence(PeerFault::Malformed),
        Err(RunFault::Socket),
        &[LOOKED, FOUND, MALFORMED],
    ),
    (
        PLAIN,
        Wrong::Silence(PeerFault::NoMemory),
        Err(RunFault::NoMemory),
        &[LOOKED, FOUND, NOT_HEARD],
    ),
    (
        PLAIN,
        Wrong::Refusal(Errno::Eacces),
        Err(RunFault::Refused(Errno::Eacces)),
        &[LOOKED, FOUND, REFUSED, CLOSED],
    ),
    (
        PLAIN,
        Wrong::Number,
        Err(RunFault::Socket),
        &[LOOKED, FOUND, NUMBERED, CLOSED],
    ),
    (
        PLAIN,
        Wrong::Start(StartFault::NotFound),
        Err(RunFault::NotFound),
        &[LOOKED, FOUND, GREETED, NO_PROGRAM, CLOSED],
    ),
    (
        PLAIN,
        Wrong::Start(StartFault::Unstartable),
        Err(RunFault::Unstartable),
        &[LOOKED, FOUND, GREETED, UNSTARTABLE, CLOSED],
    ),
    (
        PLAIN,
        Wrong::Start(StartFault::NoMemory),
        Err(RunFault::NoMemory),
        &[LOOKED, FOUND, GREETED, NO_ROOM, CLOSED],
    ),
    (
        PLAIN,
        Wrong::End,
        Err(RunFault::Unknown),
        &[LOOKED, FOUND, GREETED, STARTED, UNTOLD, CLOSED],
    ),
    (
        NAMED,
        Wrong::Socket,
        Ok(3),
        &[
            SAW_NONE,
            FOUND_NAMED,
            GREETED_NAMED,
            STARTED_NAMED,
            ENDED,
            CLOSED,
        ],
    ),
    (
        TRAP,
        Wrong::Nothing,
        Ok(3),
        &[LOOKED, FOUND_TRAP, TRAPPED, ENDED],
    ),
    (
        TRAP,
        Wrong::Signal,
        Ok(137),
        &[LOOKED, FOUND_TRAP, TRAPPED, KILLED],
    ),
    (TRAP, Wrong::Look, Err(RunFault::NoMemory), &[]),
    (TRAP, Wrong::Socket, Err(RunFault::Socket), &[SAW_NONE]),
    (
        TRAP,
        Wrong::File,
        Err(RunFault::File),
        &[LOOKED, FOUND_NO_TRAP],
    ),
    (
        TRAP,
        Wrong::Start(StartFault::Unstartable),
        Err(RunFault::Unstartable),
        &[LOOKED, FOUND_TRAP, TRAP_UNSTARTABLE],
    ),
    (
        TRAP,
        Wrong::End,
        Err(RunFault::Unknown),
        &[LOOKED, FOUND_TRAP, TRAPPED, UNTOLD],
    ),
];

/// Words with memory of their own.
fn owned(alloc: Global, words: &[&str]) -> Result<Vec<String>, AllocError> {
    let mut owned = Vec::new(alloc);
    for word in words {
        owned.push(String::from_str(alloc, *word)?)?;
    }
    Ok(owned)
}

#[test]
fn a_program_is_run(rt: HostRuntime) {
    for (words, wrong, outcome, lines) in RUNS {
        let words = owned(rt.alloc(), words).expect(&rt, "memory");
        let Some(wanted) = Wanted::read(words.as_slice()) else {
            panic!(rt; "no run");
        };
        let (done, ended) = ran(&rt, rt.alloc(), *wrong, &wanted);
        assert_eq!(rt; ended, *outcome);
        assert_eq!(rt; done.len(), lines.len());
        for (one, line) in done.iter().zip(*lines) {
            let told = format!(in rt.alloc(); "{one:?}").expect(&rt, "memory");
            assert_eq!(rt; told.as_str(), *line);
        }
    }
}
