//! A daemon that tells what is said to it, and what words have said to one.
ghost use Rattle.std.specs.Prelude.{◌≡◌, [], ◌∷◌, ◌++◌, map, Some, None, string_bytes};
ghost use Rattle.std.specs.Option.{option_copied};
ghost use Rattle.rk_ctl.specs.Addresses.{address_by};
ghost use Rattle.rk_ctl.specs.Outcome.{HasDone, HasSpoken};
ghost use Rattle.rk_ctl.specs.Searching.{answer_said};
ghost use Rattle.rk_edge_tests.specs.Said.{socket_kept, to_daemon};

use crate::said::{Socket, ToDaemon};
use rk_client::PeerFault;
use rk_ctl::{Address, Around, Daemon, Found, Invocation, Search, Streams, run_words};
use rk_message::{Ask, Reply, ReplyBytes};
use rk_names::Errno;
use rk_run::{Here, Host, StartFault};
use std::alloc::{AllocError, Global};
use std::fs::Files;
use std::process::{Abort, Command, ExitStatus};

/// What a daemon answers, whatever it is asked.
#[derive(Clone, Copy)]
enum Answer {
    /// Bytes; to a search they are the text of what was found.
    Bytes(&'static [u8]),
    /// A refusal.
    Refused(Errno),
    /// Nothing, since it is not there.
    Nothing,
}

/// A copy of bytes.
fn copy_of<R: Abort>(rt: &R, alloc: Global, bytes: &[u8]) -> Vec<u8>
    ensures { result.items ≡ bytes.now }
{
    Vec::from_slice(alloc, bytes).expect(rt, "memory")
}

/// A daemon that tells what is said to it. Out of memory for what it keeps ends the process.
#[derive(Drop)]
struct Telling<'a, R> {
    /// The host, which ends the test when memory runs out.
    rt: &'a R,
    /// Where memory for the copies comes from.
    alloc: Global,
    /// What it answers.
    answer: Answer,
    /// What was said, first things first.
    said: Vec<ToDaemon>,
}

impl<'a, R: Abort> Telling<'a, R> {
    /// A daemon to which nothing was said. It takes no memory.
    fn new(rt: &'a R, alloc: Global, answer: Answer) -> Telling<'a, R>
        ensures { result.said.items ≡ [] }
    {
        Telling {
            rt,
            alloc,
            answer,
            said: Vec::new(alloc),
        }
    }

    /// A copy of an address.
    fn copy(&self, address: Address<'_>) -> Socket
        ensures { socket_kept result ≡ address_by address.entry }
    {
        Socket {
            path: String::from_str(self.alloc, address.path).expect(self.rt, "memory"),
            seconds: address.seconds,
        }
    }

    /// A copy of an ask.
    fn copy_ask(&self, ask: &Ask) -> Ask
        ensures { result ≡ ask.now }
    {
        ask.clone().expect(self.rt, "memory")
    }

    /// A copy of a greeting, if there is one.
    fn copy_greeting(&self, greeting: Option<&Ask>) -> Option<Ask>
        ensures { result ≡ option_copied greeting.entry }
    {
        match greeting {
            Some(greeting) => Some(self.copy_ask(greeting)),
            None => None,
        }
    }

    /// A reply, or why there is none.
    fn reply(&self) -> Result<Reply, PeerFault> {
        match self.answer {
            Answer::Bytes(bytes) => match ReplyBytes::new(self.alloc, bytes).expect(
                self.rt, "memory",
            ) {
                Some(bytes) => Ok(Reply::Bytes(bytes)),
                None => Err(PeerFault::Malformed),
            },
            Answer::Refused(errno) => Ok(Reply::Refused(errno)),
            Answer::Nothing => Err(PeerFault::Lost),
        }
    }

    /// A copy of a reply.
    fn copy_reply(&self, reply: &Result<Reply, PeerFault>) -> Result<Reply, PeerFault>
        ensures { result ≡ reply.now }
    {
        match reply {
            Ok(Reply::Number(number)) => Ok(Reply::Number(*number)),
            Ok(Reply::Bytes(bytes)) => Ok(Reply::Bytes(bytes.clone().expect(self.rt, "memory"))),
            Ok(
                Reply::Rings {
                    thread,
                    process,
                    session,
                    user,
                },
            ) => Ok(Reply::Rings {
                thread: *thread,
                process: *process,
                session: *session,
                user: *user,
            }),
            Ok(Reply::Refused(errno)) => Ok(Reply::Refused(*errno)),
            Err(fault) => Err(*fault),
        }
    }

    /// What was found, or why nothing is known of it.
    fn found(&self) -> Result<Found, PeerFault> {
        match self.answer {
            Answer::Bytes(bytes) => Ok(Found::Text(copy_of(self.rt, self.alloc, bytes))),
            Answer::Refused(errno) => Ok(Found::Refused(errno)),
            Answer::Nothing => Err(PeerFault::Lost),
        }
    }

    /// A copy of what was found.
    fn copy_found(&self, found: &Result<Found, PeerFault>) -> Result<Found, PeerFault>
        ensures { answer_said result ≡ answer_said found.now }
    {
        match found {
            Ok(Found::Text(text)) => Ok(Found::Text(copy_of(self.rt, self.alloc, text))),
            Ok(Found::Refused(errno)) => Ok(Found::Refused(*errno)),
            Err(fault) => Err(*fault),
        }
    }

    /// Keeps what was said.
    fn keep(&mut self, said: ToDaemon)
        ensures { self.new.said.items ≡ self.old.said.items ++ said ∷ [] }
    {
        self.said.push(said).expect(self.rt, "memory");
    }
}

impl<'a, R: Abort> Daemon for Telling<'a, R> {
    ghost story = { λ daemon. Some (map to_daemon daemon.said.items) };

    fn ask(
        &mut self,
        address: Address<'_>,
        greeting: Option<&Ask>,
        ask: &Ask,
    ) -> Result<Reply, PeerFault> {
        let reply = self.reply();
        let (socket, greeting) = (self.copy(address), self.copy_greeting(greeting));
        let (ask, kept) = (self.copy_ask(ask), self.copy_reply(&reply));
        self.keep(ToDaemon::Asked(socket, greeting, ask, kept));
        reply
    }

    fn search(
        &mut self,
        address: Address<'_>,
        greeting: &Ask,
        search: Search,
    ) -> Result<Found, PeerFault> {
        let found = self.found();
        let (socket, greeting) = (self.copy(address), self.copy_ask(greeting));
        let kept = self.copy_found(&found);
        self.keep(ToDaemon::Searched(socket, greeting, search, kept));
        found
    }

    fn trouble(&self) -> Option<&str> {
        match self.answer {
            Answer::Nothing => Some("nobody is there"),
            _ => None,
        }
    }
}

/// A host that counts how often it is called, and does nothing.
#[derive(Drop)]
struct Counting {
    /// How often it was called.
    calls: u32,
}

impl Counting {
    /// It is called once more.
    fn count(&mut self) {
        self.calls = self.calls.saturating_add(1);
    }
}

impl Host for Counting {
    ghost story = { λ host. None };

    fn look(&mut self) -> Result<Here, AllocError> {
        self.count();
        Err(AllocError)
    }

    fn has(&mut self, _path: &str) -> bool {
        self.count();
        false
    }

    fn greet(&mut self, _path: &str, _ask: &Ask) -> Result<Reply, PeerFault> {
        self.count();
        Err(PeerFault::Lost)
    }

    fn start(&mut self, _command: Command) -> Result<(), StartFault> {
        self.count();
        Err(StartFault::NotFound)
    }

    fn wait(&mut self) -> Option<ExitStatus> {
        self.count();
        None
    }

    fn close(&mut self) {
        self.count();
    }

    fn trouble(&self) -> Option<&str> {
        None
    }
}

/// What words lead to.
#[derive(Drop)]
struct Outcome<'a> {
    /// The status.
    status: u8,
    /// What was said to the daemon, first things first.
    said: Vec<ToDaemon>,
    /// How often the host was called.
    calls: u32,
    /// What is left of standard input.
    left: &'a [u8],
    /// What was written to standard output.
    output: Vec<u8>,
    /// What was written to standard error.
    errors: Vec<u8>,
}

/// Does what words say over a daemon to which nothing was said: all that is said to it is what they ask, and with status 0 that was done.
fn carried_out<'a, R: Abort + AllocGlobal + Files>(
    rt: &R,
    invocation: Invocation<'_>,
    answer: Answer,
    input: &'a [u8],
) -> Outcome<'a>
    ensures done { result.status ≡ 0 → HasDone invocation.entry.around.now (map string_bytes invocation.entry.words.now)
        (Some []) (Some (map to_daemon result.said.items)) (Some input.now) (Some result.left.now)
        (Some []) (Some result.output.items) (Some []) (Some result.errors.items) }
    ensures spoke { HasSpoken invocation.entry.around.now (map string_bytes invocation.entry.words.now) (Some []) (Some (map to_daemon result.said.items))
        result.status }
{
    let mut host = Counting { calls: 0 };
    let mut daemon = Telling::new(rt, rt.alloc(), answer);
    let mut streams = Streams {
        reader: input,
        writer: Vec::new(rt.alloc()),
        errors: Vec::new(rt.alloc()),
    };
    let status = run_words(rt, &mut host, &mut daemon, invocation, &mut streams);
    Outcome {
        status,
        said: daemon.said,
        calls: host.calls,
        left: streams.reader,
        output: streams.writer,
        errors: streams.errors,
    }
}

/// The words of a command line.
fn words_of<R: Abort>(rt: &R, alloc: Global, line: &[&str]) -> Vec<String> {
    let mut words = Vec::new(alloc);
    for word in line {
        let word = String::from_str(alloc, word).expect(rt, "memory");
        words.push(word).expect(rt, "memory");
    }
    words
}

/// What was said, in parts: of each talk the path of the socket and the seconds, the body of HELLO, empty if there is none, and the body of the ask or the
/// name of the search.
fn parts_of<R: Abort>(rt: &R, alloc: Global, said: &[ToDaemon]) -> Vec<Vec<u8>> {
    let mut parts = Vec::new(alloc);
    for talk in said {
        let (socket, greeting, last) = match talk {
            ToDaemon::Asked(socket, greeting, ask, _) => {
                let body = body_of(rt, alloc, Some(ask));
                (socket, greeting.as_ref(), body)
            }
            ToDaemon::Searched(socket, greeting, search, _) => {
                let name = copy_of(rt, alloc, name_of(*search));
                (socket, Some(greeting), name)
            }
        };
        let Socket { path, seconds } = socket;
        let shown = format!(in alloc; "{path} {seconds}").expect(rt, "memory");
        let shown = copy_of(rt, alloc, shown.as_bytes());
        let greeting = body_of(rt, alloc, greeting);
        parts.push(shown).expect(rt, "memory");
        parts.push(greeting).expect(rt, "memory");
        parts.push(last).expect(rt, "memory");
    }
    parts
}

/// The name of a search.
fn name_of(search: Search) -> &'static [u8] {
    match search {
        Search::List => b"list",
        Search::Sweep => b"sweep",
    }
}

/// The body of an ask; nothing if there is none.
fn body_of<R: Abort>(rt: &R, alloc: Global, ask: Option<&Ask>) -> Vec<u8> {
    match ask {
        Some(ask) => ask.write(alloc).expect(rt, "memory"),
        None => Vec::new(alloc),
    }
}

/// Words and what is around them, and what has to come of them.
#[derive(Clone, Copy)]
struct Case {
    /// The words, of which the first is the name of the program.
    words: &'static [&'static str],
    /// Whether it is called as a handler is, between two pipes.
    is_handler: bool,
    /// What is on standard input.
    input: &'static [u8],
    /// What the daemon answers.
    answer: Answer,
    /// The status.
    status: u8,
    /// What is said to the daemon, in parts.
    said: &'static [&'static [u8]],
    /// What is written to standard output.
    output: &'static [u8],
    /// What is written to standard error.
    errors: &'static [u8],
    /// What is left on standard input.
    left: &'static [u8],
    /// How often the host is called.
    calls: u32,
}

/// No words, to which nothing is said.
const SILENT: Case = Case {
    words: &[],
    is_handler: false,
    input: b"",
    answer: Answer::Nothing,
    status: 0,
    said: &[],
    output: b"",
    errors: b"",
    left: b"",
    calls: 0,
};

/// The body of HELLO for uid 1000 and gid 100, with a new session ring, and of READ for key 12 (docs/PROTOCOL.md).
const HELLO: &[u8] = b"\x01\0\0\x03\xe8\0\0\0\x64\0\0\0\0\0";

const READ: &[u8] = b"\x07\0\0\0\x0c";

/// The environment names the socket /run/d.
const CASES: &[Case] = &[
    Case {
        words: &[
            "reqkeyctl",
            "--socket",
            "/s",
            "--uid",
            "1000",
            "--gid=100",
            "read",
            "12",
        ],
        answer: Answer::Bytes(b"hello"),
        said: &[b"/s 0", HELLO, READ],
        output: b"hello\n",
        ..SILENT
    },
    Case {
        words: &["reqkeyctl", "--uid", "1000", "--gid", "100", "read", "12"],
        answer: Answer::Refused(Errno::Enokey),
        status: 1,
        said: &[b"/run/d 0", HELLO, READ],
        errors: b"errno 126\n",
        ..SILENT
    },
    Case {
        words: &["reqkeyctl", "--uid", "1000", "--gid", "100", "read", "12"],
        answer: Answer::Nothing,
        status: 1,
        said: &[b"/run/d 0", HELLO, READ],
        errors: b"reqkeyctl: socket\n  nobody is there\n",
        ..SILENT
    },
    Case {
        words: &["reqkeyctl", "--uid", "1000", "--gid", "100", "list"],
        answer: Answer::Bytes(b"12 user;1000;valid;a\n"),
        said: &[b"/run/d 0", HELLO, b"list"],
        output: b"12 user;1000;valid;a\n",
        ..SILENT
    },
    Case {
        words: &["reqkeyctl", "--uid", "1000", "--gid", "100", "sweep"],
        answer: Answer::Bytes(b"2\n"),
        said: &[b"/run/d 0", HELLO, b"sweep"],
        output: b"2\n",
        ..SILENT
    },
    Case {
        words: &["reqkeyctl", "--uid", "1000", "--gid", "100", "sweep"],
        answer: Answer::Refused(Errno::Edquot),
        status: 1,
        said: &[b"/run/d 0", HELLO, b"sweep"],
        errors: b"errno 122\n",
        ..SILENT
    },
    Case {
        words: &["reqkeyctl", "--uid", "1000", "read", "x"],
        input: b"unread",
        status: 2,
        errors: b"error: <key> is a number up to 2147483647, or auth: the authority that is assumed\n",
        left: b"unread",
        ..SILENT
    },
    Case {
        words: &[
            "reqkeyctl",
            "--timeout",
            "7",
            "--uid",
            "1000",
            "--gid",
            "100",
            "read",
            "12",
        ],
        is_handler: true,
        answer: Answer::Bytes(b"hello"),
        said: &[b"/run/d 7", HELLO, READ],
        output: b"hello\n",
        ..SILENT
    },
    Case {
        words: &[
            "reqkeyctl",
            "--timeout=8",
            "--uid=1000",
            "--gid=100",
            "list",
        ],
        is_handler: true,
        answer: Answer::Bytes(b"12 user;1000;valid;a\n"),
        said: &[b"/run/d 8", HELLO, b"list"],
        output: b"12 user;1000;valid;a\n",
        ..SILENT
    },
    Case {
        words: &["reqkeyctl", "assume", "12"],
        is_handler: true,
        input: b"\0\0\0\x05\0\0\0\0\0unread",
        output: b"\0\0\0\x05\x03\0\0\0\x0c",
        errors: b"0\n",
        left: b"unread",
        ..SILENT
    },
    Case {
        words: &["reqkeyctl", "run", "--", "true"],
        status: 1,
        errors: b"reqkeyctl: memory\n",
        calls: 1,
        ..SILENT
    },
];

#[test]
fn words_are_done(rt: HostRuntime) {
    for case in CASES {
        let socket = String::from_str(rt.alloc(), "/run/d").expect(&rt, "memory");
        let around = Around {
            socket: Some(socket),
            piped: case.is_handler,
            terminal: false,
        };
        let words = words_of(&rt, rt.alloc(), case.words);
        let invocation = Invocation {
            words: words.as_slice(),
            around: &around,
        };
        let outcome = carried_out(&rt, invocation, case.answer, case.input);
        assert_eq!(rt; outcome.status, case.status);
        assert_eq!(rt; outcome.output.as_slice(), case.output);
        assert_eq!(rt; outcome.errors.as_slice(), case.errors);
        assert_eq!(rt; outcome.left, case.left);
        assert_eq!(rt; outcome.calls, case.calls);
        let parts = parts_of(&rt, rt.alloc(), &outcome.said);
        assert_eq!(rt; parts.len(), case.said.len());
        for (part, wanted) in parts.iter().zip(case.said) {
            assert_eq!(rt; part.as_slice(), *wanted);
        }
    }
}
