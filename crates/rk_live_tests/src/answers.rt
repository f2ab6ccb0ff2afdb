//! Answers in few words.
use rk_machine::Answer;
use rk_message::Reply;
use rk_names::Errno;

/// What is said to an event.
#[derive(Clone, Copy, Debug, PartialEq, Eq)]
pub enum Said {
    /// This number, as the serial of a key.
    Number(u32),
    /// The session ring and the user ring.
    Rings(u32, u32),
    /// Bytes, whichever they are.
    Bytes,
    /// The handler of this key is to be started.
    Start(u32),
    /// A `negate` handler of this key is to be started.
    Negate(u32),
    /// It waits for this key.
    Waiting(u32),
    /// It is refused with this error.
    Refused(Errno),
    /// Nothing, since the record is full.
    Full,
    /// Nothing, since memory ran out.
    NoMemory,
}

/// What was answered.
pub fn in_words(answer: &Answer) -> Said {
    match answer {
        Answer::Done(Reply::Number(number)) => Said::Number(*number),
        Answer::Done(Reply::Rings { session, user, .. }) => Said::Rings(*session, *user),
        Answer::Done(Reply::Bytes(_)) => Said::Bytes,
        Answer::Done(Reply::Refused(errno)) => Said::Refused(*errno),
        Answer::Start(key, _) => Said::Start(key.get()),
        Answer::Negate(key) => Said::Negate(key.get()),
        Answer::Waiting(key) => Said::Waiting(key.get()),
        Answer::Refused(errno) => Said::Refused(*errno),
    }
}
