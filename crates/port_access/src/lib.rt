//! Accesses over a port whose answers may be of any form, for the drivers' ends of all queues.
#![tactic(auto)]

mod accesses;

pub use accesses::{get, get_written, mark_where_due, put, put_data, put_u16};
