//! What beamkit reads from and writes to: hosts of files, sinks of output, and the loops over them.
#![tactic(auto)]

mod file_host;
mod file_list;
mod host;
mod mem_host;
mod mem_sink;
mod reading;
mod script_host;
mod script_sink;
mod sink;
mod std_sink;
mod writing;

pub use file_host::FileHost;
pub use file_list::FileList;
pub use host::{Failed, Host};
pub use mem_host::MemHost;
pub use mem_sink::MemSink;
pub use reading::{LoadFault, MOST_BYTES, load};
pub use script_host::{NumberList, ScriptHost};
pub use script_sink::ScriptSink;
pub use sink::{Sink, WriteFault};
pub use std_sink::StdSink;
pub use writing::{emit, emit_all};

#[cfg(test)]
mod tests;
