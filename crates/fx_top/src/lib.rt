//! The top call: the words of the command line, a host, a sink and a gate in, a status out.
#![tactic(auto)]

pub mod gate;
pub mod host;
pub mod sink;
pub mod status;
pub mod top;
