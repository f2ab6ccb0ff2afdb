//! A hall and its record: `events` has what happens in the tests, `turns` the turns of one hall, what they answer and where a hall is full, `volumes` that
//! volumes that were handed out join to a run.
pub mod events;
mod turns;
mod volumes;
