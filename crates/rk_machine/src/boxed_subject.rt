//! The subject of a construction on the heap, so that an answer is small to move.
ghost use Rattle.std.specs.Prelude.{◌≡◌, IfOk};
ghost use Rattle.rk_macro.specs.declared.subject.Op.TheVariants as op;
ghost use Rattle.rk_macro.specs.contracts.subject.SubjectPartialEq.TheImpl as partial;
ghost use Rattle.rk_macro.specs.contracts.subject.SubjectPartialEq.TheImpl.Laws as partial_laws;
ghost use Rattle.rk_macro.specs.contracts.subject.SubjectEq.TheImpl.Laws as total_laws;

use rk_macro::{Op, Subject};
use rk_names::Serial;
use std::alloc::{AllocError, Global};
use std::marker::Model;

/// A subject on the heap. Contracts see it as the subject itself, and two of equal subjects as equal.
#[derive(Debug, Drop)]
pub struct BoxedSubject {
    /// The subject, on the heap.
    subject: Box<Subject>,
}

impl Model for BoxedSubject {
    ghost use Rattle.rk_macro.specs.declared.subject.Subject.{Subject};

    ghost Value = { Subject };

    ghost view = { λ b. b.subject.value };
}

impl BoxedSubject {
    /// Moves a subject to the heap. An `Err` is out of memory.
    pub fn new(alloc: Global, subject: Subject) -> Result<BoxedSubject, AllocError>
        ensures { IfOk result (λ b. b ≡ subject) }
    {
        Ok(BoxedSubject {
            subject: Box::new(alloc, subject)?,
        })
    }

    /// The subject.
    pub fn as_subject(&self) -> &Subject
        ensures { result.now ≡ self.now }
    {
        &self.subject
    }

    /// The subject, taken off the heap.
    pub fn into_subject(self) -> Subject
        ensures { result ≡ self }
    {
        let BoxedSubject { subject } = self;
        Box::into_inner(subject)
    }

    /// The same subject with this key. It takes no memory.
    pub fn of_key(self, key: Serial) -> BoxedSubject
        ensures { result ≡ record self { key = key } }
    {
        let mut subject = self;
        subject.subject.key = key;
        subject
    }

    /// The same subject for a handler that is to negate the key. It takes no memory.
    pub fn negated(self) -> BoxedSubject
        ensures { result ≡ record self { op = op.Negate } }
    {
        let mut subject = self;
        subject.subject.op = Op::Negate;
        subject
    }
}

impl Clone for BoxedSubject {
    ghost is_clone = { λ subject copy. copy ≡ subject };

    fn clone(&self) -> Result<BoxedSubject, AllocError> {
        Ok(BoxedSubject {
            subject: self.subject.clone()?,
        })
    }
}

impl PartialEq for BoxedSubject {
    ghost eq = { partial.ghosts.eq };

    ghost laws = { partial_laws.laws-law };

    fn eq(&self, other: &BoxedSubject) -> bool {
        self.as_subject() == other.as_subject()
    }
}

impl Eq for BoxedSubject {
    ghost laws = { total_laws.laws-law };
}
