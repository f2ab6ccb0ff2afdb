//! The replay: `take` plays happenings while allocations fail, `script` runs scripts from a reader that fails, or to a writer that does.
mod script;
mod take;
