//! A message that is to be written: its first byte and its fields.

ghost use Rattle.std.specs.Prelude.{◌≡◌, ◌+◌, ◌<◌, ◌≤◌, ◌^◌, ◌++◌, length, vec_len, vec_capacity};
ghost use Rattle.rk_message.specs.Wire.{block};
ghost use Rattle.rk_message.specs.Spellings.{field_bytes, all_bytes, IsTold, AreTold};

/// One field. A number has its highest byte first, a length has two bytes.
#[derive(Clone, Copy)]
pub enum Field<'a> {
    /// A number of one byte, or flags.
    Byte(u8),
    /// A number of four bytes, without a sign.
    Word(u32),
    /// Four bytes, in two's complement.
    Signed(i32),
    /// Bytes with their length before them.
    Block(&'a [u8]),
    /// A byte 0 for none, or a byte 1 before the bytes.
    Optional(Option<&'a [u8]>),
    /// The message has fewer fields.
    Absent,
}

/// A first byte and at most four fields, which are all that any message has.
#[derive(Clone, Copy)]
pub struct Spelling<'a> {
    /// What the message is.
    pub op: u8,
    /// What follows it; the absent ones come last.
    pub fields: (Field<'a>, Field<'a>, Field<'a>, Field<'a>),
}

/// How many bytes the message has.
#[inline(always)]
pub fn len(message: Spelling<'_>) -> usize
    requires { AreTold message }
    ensures { result ≡ length (all_bytes message.entry) }
{
    let (first, second, third, fourth) = message.fields;
    1 + field_len(first) + field_len(second) + field_len(third) + field_len(fourth)
}

/// Appends the bytes of the message if there is room for them.
pub fn put(out: &mut Vec<u8>, message: Spelling<'_>)
    requires told { AreTold message }
    requires room { vec_len out.old + length (all_bytes message) ≤ vec_capacity out.old }
    ensures { out.new.items ≡ out.old.items ++ all_bytes message.entry }
{
    let (first, second, third, fourth) = message.fields;
    out.push_reserved(message.op);
    put_field(out, first);
    put_field(out, second);
    put_field(out, third);
    put_field(out, fourth);
}

#[tactic(auto, unfolding(crate::specs::Wire::spelled))]
fn field_len(field: Field<'_>) -> usize
    requires { IsTold field }
    ensures len { result ≡ length (field_bytes field.entry) }
    ensures small { result ≤ 65538 }
{
    match field {
        Field::Byte(_) => 1,
        Field::Word(_) | Field::Signed(_) => 4,
        Field::Block(bytes) => 2 + bytes.len(),
        Field::Optional(None) => 1,
        Field::Optional(Some(bytes)) => 3 + bytes.len(),
        Field::Absent => 0,
    }
}

#[tactic(auto, unfolding(crate::specs::Wire::spelled))]
fn put_field(out: &mut Vec<u8>, field: Field<'_>)
    requires told { IsTold field }
    requires room { vec_len out.old + length (field_bytes field) ≤ vec_capacity out.old }
    ensures items { out.new.items ≡ out.old.items ++ field_bytes field.entry }
    ensures len { vec_len out.new ≡ vec_len out.old + length (field_bytes field.entry) }
    ensures capacity { vec_capacity out.old ≤ vec_capacity out.new }
{
    match field {
        Field::Byte(number) => out.push_reserved(number),
        Field::Word(number) => put_bytes(out, &number.to_be_bytes()),
        Field::Signed(number) => put_bytes(out, &number.to_be_bytes()),
        Field::Block(bytes) => put_block(out, bytes),
        Field::Optional(None) => out.push_reserved(0),
        Field::Optional(Some(bytes)) => {
            out.push_reserved(1);
            put_block(out, bytes);
        }
        Field::Absent => {}
    }
}

/// Bytes with their length before them.
fn put_block(out: &mut Vec<u8>, bytes: &[u8])
    requires told { length bytes.now < 2 ^ 16 }
    requires room { vec_len out.old + length (block bytes.now) ≤ vec_capacity out.old }
    ensures items { out.new.items ≡ out.old.items ++ block bytes.now }
    ensures len { vec_len out.new ≡ vec_len out.old + length (block bytes.now) }
    ensures capacity { vec_capacity out.old ≤ vec_capacity out.new }
{
    put_bytes(out, &(bytes.len() as u16).to_be_bytes());
    put_bytes(out, bytes);
}

fn put_bytes(out: &mut Vec<u8>, bytes: &[u8])
    requires { vec_len out.old + length bytes.now ≤ vec_capacity out.old }
    ensures items { out.new.items ≡ out.old.items ++ bytes.now }
    ensures len { vec_len out.new ≡ vec_len out.old + length bytes.now }
    ensures capacity { vec_capacity out.old ≤ vec_capacity out.new }
{
    out.extend_from_slice(bytes).unwrap();
}
