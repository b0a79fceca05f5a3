//! What the workers of a run share.
use crate::logged::Logged;
use crate::shares::Shares;
use fx_spec::Base;
use std::alloc::Global;
use std::sync::Arc;

/// What the workers of a run share: the runtime, the base, the log and the gate.
#[derive(Drop)]
pub struct Crew<'a, R, G, T: Logged> {
    pub rt: &'a R,
    pub alloc: Global,
    pub base: &'a Arc<Base>,
    pub shares: &'a Shares<T>,
    pub gate: &'a G,
}
