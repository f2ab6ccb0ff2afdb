//! Answers as rows.
ghost use Rattle.std.specs.Prelude.{◌≡◌, ◌++◌, OnOk};
ghost use Rattle.rk_frame.specs.Framing.{frame};
ghost use Rattle.rk_volumes.specs.Rows.{answer_row, row_bytes};
ghost use Rattle.rk_volumes.specs.Rules.{IsAnswer, IsTold};

use crate::kinds::op_kind;
use crate::row::put_row;
use crate::subject::subject_text;
use rk_machine::Answer;
use std::alloc::{AllocError, Global};

/// Appends the row of an answer with its length before it. An `Err` is out of memory, and a part of it may have been appended.
pub(crate) fn put_answer(
    alloc: Global,
    out: &mut Vec<u8>,
    answer: &Answer,
) -> Result<(), AllocError>
    ensures bytes { OnOk result (out.new.items ≡ out.old.items ++ frame (row_bytes (answer_row answer.now))) }
    ensures is { OnOk result (IsAnswer answer.now) }
    ensures told { OnOk result (IsTold (answer_row answer.now)) }
{
    match answer {
        Answer::Done(reply) => {
            let mut body = Vec::with_capacity(alloc, reply.body_len())?;
            reply.write_into(&mut body)?;
            put_row(out, 1, 0, 0, &body)
        }
        Answer::Start(key, subject) => {
            let subject = subject.as_subject();
            let rest = subject_text(alloc, subject)?;
            put_row(out, 2, op_kind(subject.op), key.get(), &rest)
        }
        Answer::Negate(key) => put_row(out, 3, 0, key.get(), &[]),
        Answer::Waiting(key) => put_row(out, 4, 0, key.get(), &[]),
        Answer::Refused(errno) => put_row(out, 5, errno.number(), 0, &[]),
    }
}
