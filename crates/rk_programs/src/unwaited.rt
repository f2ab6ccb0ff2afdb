//! Programs that came back before they were waited for.
ghost use Rattle.std.specs.Prelude.{◌≡◌, None};

use std::alloc::Global;
use std::process::{Child, OpenProcess};

/// Programs that were not waited for. One that has ended stays in the list of processes until it is asked (`waitpid(2)`), so they are asked now and then.
#[derive(Drop)]
pub struct Unwaited<P: OpenProcess + Drop> {
    /// Those that still ran when they were looked at last, their pipes closed.
    children: Vec<Child<P>>,
}

impl<P: OpenProcess + Drop> Unwaited<P> {
    /// None yet. It takes no memory.
    pub fn new(alloc: Global) -> Unwaited<P> {
        Unwaited {
            children: Vec::new(alloc),
        }
    }

    /// Keeps one that still runs, its pipes closed. If there is no memory for it, it is let go.
    pub fn keep(&mut self, child: Child<P>) {
        let mut child = cut_off(child);
        if still_runs(&mut child) {
            let _ = self.children.push(child);
        }
    }

    /// Lets go of those that have ended meanwhile.
    pub fn let_ended_go(&mut self) {
        self.children.retain_mut(|child| still_runs(child));
    }
}

/// It, its pipes closed: its input ends, and nobody reads its output.
fn cut_off<P: OpenProcess>(child: Child<P>) -> Child<P>
    ensures input { result.stdin ≡ None }
    ensures output { result.stdout ≡ None }
{
    let mut child = child;
    drop(child.stdin.take());
    drop(child.stdout.take());
    child
}

/// Whether it has not ended yet. One that can't be asked was waited for already, so it has.
fn still_runs<P: OpenProcess>(child: &mut Child<P>) -> bool {
    matches!(child.try_wait(), Ok(None))
}
