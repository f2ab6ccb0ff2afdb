//! The libraries of the daemon's state, where no script shows them: `table` for rk_table, `keys` for rk_keys, `rings` for rk_rings and `auths` for rk_auth.
mod auths;
mod keys;
mod rings;
mod table;
