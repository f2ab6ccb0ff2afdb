//! Replies as bodies: the kind byte and the fields of each.

ghost use Rattle.std.specs.Prelude.{◌≡◌, ◌+◌, ◌≤◌, ◌++◌, length, vec_len, vec_capacity, IfOk, OnOk, OnErr, IsOk};
ghost use Rattle.rk_message.specs.declared.reply.Reply.TheVariants.{Refused as refused};
ghost use Rattle.rk_message.specs.Wire.{spelling};
ghost use Rattle.rk_message.specs.Replies.{IsReply, reply_message};
ghost use Rattle.rk_message.specs.Spellings.{all_bytes, AreTold};

use crate::reply::Reply;
use crate::spelling::{self, Field, Spelling};
use rk_names::Errno;
use std::alloc::{AllocError, Global};

impl Reply {
    /// The body of `Refused(errno)`. It takes no memory, so a refusal can always be answered.
    #[tactic(auto, unfolding(crate::specs::Wire::spelled))]
    pub fn refusal(errno: Errno) -> [u8; 2]
        ensures { result ≡ spelling (reply_message (refused errno)) }
    {
        [3, errno.number()]
    }

    /// How many bytes the reply's body has: at least 1, and few enough for a frame.
    #[inline(always)]
    pub fn body_len(&self) -> usize
        ensures len { result ≡ length (spelling (reply_message self.now)) }
        ensures fits { (1 ≤ result) × (result ≤ 65536) }
    {
        spelling::len(self.spelled())
    }

    /// The one spelling of the reply. The only refusal is out of memory.
    pub fn write(&self, alloc: Global) -> Result<Vec<u8>, AllocError>
        ensures ok { IfOk result (λ v. v.items ≡ spelling (reply_message self.now)) }
        // The fields keep what their types promise, so that the bytes read back as this reply alone.
        ensures reply { IsReply self.now }
    {
        let mut out = Vec::new(alloc);
        self.write_into(&mut out)?;
        Ok(out)
    }

    /// Appends the one spelling of the reply. Memory is taken once, before anything is written, and
    /// only if there is no room; an `Err` leaves the bytes as they were.
    pub fn write_into(&self, out: &mut Vec<u8>) -> Result<(), AllocError>
        ensures ok { OnOk result (out.new.items ≡ out.old.items ++ spelling (reply_message self.now)) }
        ensures err { OnErr result (out.new.items ≡ out.old.items) }
        ensures succeeds { vec_len out.old + length (spelling (reply_message self.now)) ≤ vec_capacity out.old → IsOk result }
        ensures reply { IsReply self.now }
    {
        let message = self.spelled();
        out.reserve(spelling::len(message))?;
        spelling::put(out, message);
        Ok(())
    }

    /// The line of the table, with this reply's fields.
    #[inline(always)]
    fn spelled(&self) -> Spelling<'_>
        ensures bytes { all_bytes result ≡ spelling (reply_message self.now) }
        ensures told { AreTold result }
        ensures reply { IsReply self.now }
    {
        use Field::{Absent, Block, Byte, Word};
        match self {
            Reply::Number(number) => Spelling {
                op: 0,
                fields: (Word(*number), Absent, Absent, Absent),
            },
            Reply::Bytes(bytes) => Spelling {
                op: 1,
                fields: (Block(bytes.as_bytes()), Absent, Absent, Absent),
            },
            Reply::Rings {
                thread,
                process,
                session,
                user,
            } => Spelling {
                op: 2,
                fields: (Word(*thread), Word(*process), Word(*session), Word(*user)),
            },
            Reply::Refused(errno) => Spelling {
                op: 3,
                fields: (Byte(errno.number()), Absent, Absent, Absent),
            },
        }
    }
}
