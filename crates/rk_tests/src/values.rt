//! The libraries of values, where no script shows them: `numbers`, `names` and `payload` for rk_names, `frame` for rk_frame, `message` for rk_message, `glob` for
//! rk_glob, `conf` for rk_conf.
mod conf;
mod frame;
mod glob;
mod message;
mod names;
mod numbers;
mod payload;
