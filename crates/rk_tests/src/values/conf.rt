//! What no script shows of a configuration: how many lines it has, which line is for a request, and what results from failed allocations.
use crate::same::same;
use rk_conf::{Conf, ConfKind, picks_one};
use rk_names::{Callout, Description, NameFault, TypeName};
use std::alloc::Global;
use std::test::Fail;

/// The example of request-key.conf(5).
const EXAMPLE: &[u8] = b"# by the manual
create user debug:* negate /bin/keyctl negate %k 30 %S
create user debug:loop:* * |/bin/cat
create user debug:* * /bin/debug.sh %k %%k %d
\t # white space before a comment
negate * * * /bin/keyctl negate %k 30 %S";

/// The numbers of the lines that are for the creation of `user` `debug:loop:x` with the callout `q`, and of the one that is picked.
fn fitting(alloc: Global, conf: &Conf) -> Result<(usize, usize), NameFault> {
    let typ = TypeName::new(b"user")?;
    let desc = Description::new(alloc, b"debug:loop:x")?;
    let callout = Callout::new(alloc, b"q")?;
    let mut last = 0;
    for line in conf.lines() {
        if line.is_for(b"create", &typ, &desc, &callout) {
            last = line.number;
        }
    }
    let picked = conf.pick(b"create", &typ, &desc, &callout);
    Ok((picked.map_or(0, |line| line.number), last))
}

#[test]
fn the_first_line_that_fits_is_picked(rt: HostRuntime) -> Result<(), Fail> {
    picks_one();
    let conf = Conf::read(rt.alloc(), EXAMPLE)?;
    same(&rt, conf.lines().len(), 4);
    same(&rt, fitting(rt.alloc(), &conf), Ok((3, 4)));
    Ok(())
}

/// A stock handler's line: white space before it, tabs between its fields, and four arguments, of which the last two are macros.
#[test]
fn reads_the_line_of_nfsidmap(rt: HostRuntime) -> Result<(), Fail> {
    let text = b"\tcreate\tid_resolver\t*\t*\t/usr/sbin/nfsidmap -t 600\t%k %d\n";
    let conf = Conf::read(rt.alloc(), text)?;
    same(&rt, conf.lines().len(), 1);
    for line in conf.lines() {
        let args = line.args.as_slice();
        same(&rt, line.typ.as_bytes(), b"id_resolver");
        same(&rt, line.prog.as_bytes(), b"/usr/sbin/nfsidmap");
        same(&rt, (line.number, line.piped, args.len()), (1, false, 4));
    }
    Ok(())
}

/// Run with each allocation refused in turn, it still passes: a sound text is read, or out of memory is answered.
#[test]
fn wants_nothing_but_memory(rt: HostRuntime) {
    match Conf::read(rt.alloc(), EXAMPLE) {
        Ok(conf) => same(&rt, conf.lines().len(), 4),
        Err(fault) => same(&rt, fault.kind, ConfKind::NoMemory),
    }
    match Conf::read(rt.alloc(), b"create * * * /bin/h\nx\n") {
        Ok(_) => panic!(rt; "a line of one field is read"),
        Err(fault) => same(&rt, fault.kind, ConfKind::TooFewFields),
    }
}
