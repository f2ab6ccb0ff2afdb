//! Copies of the subject of a start.
ghost use Rattle.std.specs.Prelude.{◌≡◌, IfOk};
ghost use Rattle.rk_core.specs.Copies.{copies_of, keyed, pair_of};

use rk_machine::BoxedSubject;
use rk_names::Serial;
use std::alloc::AllocError;

/// Copies of the subject of a start, for a caller that keeps the answer and launches the handler too. A start makes them with its subject, before its first
/// change, so that they take no memory afterwards.
#[derive(Debug, Drop)]
pub enum SubjectCopies {
    /// A start makes none.
    Unwanted,
    /// A start makes two.
    Wanted,
    /// Two copies of the subject of the start that was answered.
    Made(BoxedSubject, BoxedSubject),
}

impl SubjectCopies {
    /// The copies that a start is to hand out, of its subject while that has no key yet. An `Err` is out of memory.
    pub(crate) fn of(&self, subject: &BoxedSubject) -> Result<SubjectCopies, AllocError>
        ensures { IfOk result (λ made. made ≡ copies_of self.now subject.now) }
    {
        match self {
            SubjectCopies::Wanted => Ok(SubjectCopies::Made(subject.clone()?, subject.clone()?)),
            SubjectCopies::Unwanted | SubjectCopies::Made(_, _) => Ok(SubjectCopies::Unwanted),
        }
    }

    /// The same copies with this key. They take no memory.
    pub(crate) fn of_key(self, key: Serial) -> SubjectCopies
        ensures { result ≡ keyed key self }
    {
        match self {
            SubjectCopies::Made(first, second) => {
                SubjectCopies::Made(first.of_key(key), second.of_key(key))
            }
            other => other,
        }
    }

    /// The two copies, `None` where none were made. They take no memory.
    pub fn into_pair(self) -> (Option<BoxedSubject>, Option<BoxedSubject>)
        ensures { result ≡ pair_of self }
    {
        match self {
            SubjectCopies::Made(first, second) => (Some(first), Some(second)),
            SubjectCopies::Unwanted | SubjectCopies::Wanted => (None, None),
        }
    }
}
