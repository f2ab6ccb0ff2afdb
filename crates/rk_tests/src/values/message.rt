//! The table of asks, as in docs/PROTOCOL.md, and what results from failed allocations.
use crate::same::same;
use rk_message::{
    Ask, AskShape, Fault, Op, ReadError, Reply, asks_have_one_reading, replies_have_one_reading,
};
use std::alloc::{AllocError, Global};
use std::process::Abort;
use std::test::Fail;

/// Reads the body and writes it again: as it was, or out of memory, and never by halves.
fn ask_may_want_memory(rt: &impl Abort, alloc: Global, body: &[u8]) {
    match Ask::read(alloc, body) {
        Ok(ask) => {
            let mut out = Vec::new(alloc);
            match ask.write_into(&mut out) {
                Ok(()) => same(rt, out.as_slice(), body),
                Err(AllocError) => same(rt, out.len(), 0),
            }
        }
        Err(error) => same(rt, error, ReadError::NoMemory),
    }
}

/// Whichever allocation is refused, a body is read as what it spells, or out of memory is answered.
#[test]
fn memory_may_be_refused(rt: HostRuntime) {
    let alloc = rt.alloc();
    let request = b"\x02\0\x04user\0\x01a\x01\0\x01x\0\0\0\0".as_slice();
    ask_may_want_memory(&rt, alloc, request);
    let add = b"\x0f\0\x04user\0\x01a\0\x02hi\0\0\0\x04".as_slice();
    ask_may_want_memory(&rt, alloc, add);
    let body = b"\x01\0\x02hi".as_slice();
    match Reply::read(alloc, body) {
        Ok(reply) => {
            if let Ok(bytes) = reply.write(alloc) {
                same(&rt, bytes.as_slice(), body);
            }
        }
        Err(error) => same(&rt, error, ReadError::NoMemory),
    }
    let bad = Ask::read(alloc, b"\x02\0\x04user\0\x01a\x01\0\x01x\0\0\0\0\0");
    same(&rt, bad.err(), Some(ReadError::Fault(Fault::Trailing)));
}

/// The asks and their fields as docs/PROTOCOL.md has them, by rising op byte.
const ASKS: &str = "HELLO uid gid flags join
REQUEST type description callout ring
ASSUME key
INSTANTIATE key payload ring
NEGATE key seconds ring
REJECT key seconds error ring
READ key
DESCRIBE key
REVOKE key
TIMEOUT key seconds
LINK key ring
UNLINK key ring
CLEAR ring
DEFAULT setting
ADD type description payload ring
CALLOUT
";

/// Adds the name of an ask and those of its fields, as a line.
fn put_line(lines: &mut String, shape: &AskShape) -> Result<(), AllocError> {
    lines.push_str(shape.name)?;
    for field in shape.fields {
        lines.push(' ')?;
        lines.push_str(field.name())?;
    }
    lines.push('\n')
}

/// The lines of all asks.
fn all_lines(alloc: Global) -> Result<String, AllocError> {
    let mut lines = String::new(alloc);
    for shape in AskShape::all() {
        put_line(&mut lines, shape)?;
    }
    Ok(lines)
}

#[test]
fn the_table_of_asks_is_the_formats(rt: HostRuntime) -> Result<(), Fail> {
    let lines = all_lines(rt.alloc())?;
    same(&rt, lines.as_str(), ASKS);
    Ok(())
}

#[test]
fn an_op_is_known_by_its_byte(rt: HostRuntime) -> Result<(), Fail> {
    asks_have_one_reading();
    replies_have_one_reading();
    same(
        &rt,
        (Op::from_byte(16), Op::from_byte(17)),
        (Some(Op::Callout), None),
    );
    same(
        &rt,
        (Op::Negate.byte(), Op::Negate.shape().name),
        (5, "NEGATE"),
    );
    same(&rt, Reply::Number(3).body_len(), 5);
    let callout = Ask::Callout;
    same(
        &rt,
        (callout.op(), callout.name(), callout.body_len()),
        (Op::Callout, "CALLOUT", 1),
    );
    let body = callout.write(rt.alloc())?;
    same(&rt, body.as_slice(), [16].as_slice());
    Ok(())
}
