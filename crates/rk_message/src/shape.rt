//! The table of asks: the op byte, the name and the fields of each.

ghost use Rattle.std.specs.Prelude.{◌≡◌, ◌==◌, map, find, option_map, None, MatchOption};
ghost use Rattle.rk_message.specs.declared.shape.AskShape.{AskShape as Line};
ghost use Rattle.rk_message.specs.Wire.{kinds_of};
ghost use Rattle.rk_message.specs.Table.{asks, ops, ask_line, op_byte, line_of, field_name};

/// What an ask asks, by its first byte: each is the op of the variant of `Ask` that has its name.
#[derive(Clone, Copy, Debug, PartialEq, Eq)]
pub enum Op {
    /// 1: makes the session's context.
    Hello = 1,
    /// 2: finds a key, or has it made.
    Request,
    /// 3: takes on the authority to make a key, or lays it down.
    Assume,
    /// 4: gives a key its payload.
    Instantiate,
    /// 5: makes a key negative with ENOKEY.
    Negate,
    /// 6: makes a key negative with another error.
    Reject,
    /// 7: returns a payload, or a callout.
    Read,
    /// 8: returns a key's type, owner, state and description.
    Describe,
    /// 9: marks a key as revoked.
    Revoke,
    /// 10: sets when a key expires.
    Timeout,
    /// 11: links a key into a ring.
    Link,
    /// 12: takes a link out of a ring.
    Unlink,
    /// 13: takes every link out of a ring.
    Clear,
    /// 14: sets, or returns, where made keys are linked by default.
    Default,
    /// 15: makes a key with its payload.
    Add,
    /// 16: returns the callout of the key that a handler makes.
    Callout,
}

/// What a field means, and so how it is spelled and which rule it keeps.
#[derive(Clone, Copy, Debug, PartialEq, Eq)]
pub enum FieldKind {
    /// The user who asks: a `u32`.
    Uid,
    /// The group: a `u32`.
    Gid,
    /// Which own rings there are: a byte, bit 0 the thread ring, bit 1 the process ring.
    Flags,
    /// The session ring to join: a `u32`, 0 for a new one, at most 2,147,483,647.
    Join,
    /// A type: a text of 1 to 31 bytes after its length, the first no dot.
    Type,
    /// A description: a text of 1 to 4,095 bytes after its length.
    Description,
    /// The callout for the handler: a byte 0 for none, or a byte 1 and a text of at most 4,095 bytes after its length.
    Callout,
    /// A key, by its serial or its role: an `i32`.
    Key,
    /// What a key holds: 1 to 32,767 bytes with their length before them.
    Payload,
    /// A ring, by its serial or its role: an `i32`.
    Ring,
    /// How long: a `u32`.
    Seconds,
    /// The error of a key: a `u32`, 126 to 129.
    Error,
    /// The setting of the default ring: an `i32`.
    Setting,
}

impl FieldKind {
    /// What the format calls the field, as `description`.
    pub fn name(self) -> &'static str
        ensures { result.now ≡ field_name self }
    {
        match self {
            FieldKind::Uid => "uid",
            FieldKind::Gid => "gid",
            FieldKind::Flags => "flags",
            FieldKind::Join => "join",
            FieldKind::Type => "type",
            FieldKind::Description => "description",
            FieldKind::Callout => "callout",
            FieldKind::Key => "key",
            FieldKind::Payload => "payload",
            FieldKind::Ring => "ring",
            FieldKind::Seconds => "seconds",
            FieldKind::Error => "error",
            FieldKind::Setting => "setting",
        }
    }
}

/// A line of the table: the name of an ask, and the fields after its op byte in their order.
#[derive(Clone, Copy, Debug, PartialEq, Eq)]
pub struct AskShape {
    /// What it asks.
    pub op: Op,
    /// What the format calls it, as `REQUEST`.
    pub name: &'static str,
    /// At most four, and none twice.
    pub fields: &'static [FieldKind],
}

macro_rules! ask {
    ($op:ident, $name:literal $(, $field:ident)*) => {
        AskShape { op: Op::$op, name: $name, fields: &[$(FieldKind::$field),*] }
    };
}

/// The table, in the order of the op bytes.
static ASKS: [AskShape; 16] = [
    ask!(Hello, "HELLO", Uid, Gid, Flags, Join),
    ask!(Request, "REQUEST", Type, Description, Callout, Ring),
    ask!(Assume, "ASSUME", Key),
    ask!(Instantiate, "INSTANTIATE", Key, Payload, Ring),
    ask!(Negate, "NEGATE", Key, Seconds, Ring),
    ask!(Reject, "REJECT", Key, Seconds, Error, Ring),
    ask!(Read, "READ", Key),
    ask!(Describe, "DESCRIBE", Key),
    ask!(Revoke, "REVOKE", Key),
    ask!(Timeout, "TIMEOUT", Key, Seconds),
    ask!(Link, "LINK", Key, Ring),
    ask!(Unlink, "UNLINK", Key, Ring),
    ask!(Clear, "CLEAR", Ring),
    ask!(Default, "DEFAULT", Setting),
    ask!(Add, "ADD", Type, Description, Payload, Ring),
    ask!(Callout, "CALLOUT"),
];

impl AskShape {
    /// The whole table, in the order of the op bytes.
    pub fn all() -> &'static [AskShape]
        ensures { map line_of result.now ≡ map (λ op. (op, ask_line op)) ops }
    {
        &ASKS
    }
}

impl Op {
    /// The first byte of its bodies: 1 for HELLO to 16 for CALLOUT.
    pub fn byte(self) -> u8
        ensures { result ≡ op_byte self }
    {
        self as u8
    }

    /// The op with this byte; `None` if the table has none.
    pub fn from_byte(byte: u8) -> Option<Op>
        ensures { MatchOption result (kinds_of asks byte ≡ None) (λ op. op_byte op ≡ byte) }
    {
        op_with(AskShape::all(), byte)
    }

    /// Its line of the table.
    pub fn shape(self) -> &'static AskShape
        ensures { line_of result.now ≡ (self, ask_line self) }
    {
        &AskShape::all()[usize::from(self.byte()) - 1]
    }
}

/// The first op of the lines that has this byte.
fn op_with(lines: &[AskShape], byte: u8) -> Option<Op>
    ensures { result ≡ option_map (λ (line : Line). line.op) (find (λ (line : Line). byte == op_byte line.op) lines.now) }
{
    let line = lines.iter().find(|line| byte == line.op.byte())?;
    Some(line.op)
}
