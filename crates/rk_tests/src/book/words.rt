//! The words of a line.
use rk_client::ArgumentFault;
use rk_names::{NameFault, Payload, Serial, SessionId};
use std::alloc::{AllocError, Global};

/// Why a line can't be read.
#[derive(Debug, Drop)]
pub enum Fault {
    /// A word is missing, or is not what stands there.
    Word,
    /// There is no memory for a word.
    NoMemory,
}

impl From<AllocError> for Fault {
    fn from(_error: AllocError) -> Fault {
        Fault::NoMemory
    }
}

impl From<NameFault> for Fault {
    fn from(fault: NameFault) -> Fault {
        match fault {
            NameFault::NoMemory => Fault::NoMemory,
            _ => Fault::Word,
        }
    }
}

impl From<ArgumentFault> for Fault {
    fn from(fault: ArgumentFault) -> Fault {
        match fault {
            ArgumentFault::NoMemory => Fault::NoMemory,
            _ => Fault::Word,
        }
    }
}

/// The words of a line, as arguments.
pub fn words<'a>(alloc: Global, line: &'a str) -> Result<Vec<&'a str>, AllocError> {
    let mut words = Vec::new(alloc);
    for word in line.split_whitespace() {
        words.push(word)?;
    }
    Ok(words)
}

/// The word as a number from 0 on.
pub fn number(word: &str) -> Result<u32, Fault> {
    word.parse::<u32>().ok().ok_or(Fault::Word)
}

/// The word as a serial, 1 or more.
pub fn serial(word: &str) -> Result<Serial, Fault> {
    Serial::new(number(word)?).ok_or(Fault::Word)
}

/// The bytes of the word as a payload, 1 to 32,767 of them.
pub fn payload(alloc: Global, word: &str) -> Result<Payload, Fault> {
    Ok(Payload::new(Vec::from_slice(alloc, word.as_bytes())?)?)
}

/// `c1` is a client, `h3` the handler of a key.
pub fn session(word: &str) -> Result<SessionId, Fault> {
    if let Some(client) = word.strip_prefix('c') {
        return Ok(SessionId::Client(number(client)?));
    }
    let key = word.strip_prefix('h').ok_or(Fault::Word)?;
    Ok(SessionId::Handler(serial(key)?))
}
