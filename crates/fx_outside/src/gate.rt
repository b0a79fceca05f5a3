//! Moments between the steps of a transaction on a thread, at which a caller may hold the thread.
use std::sync::Wait;

/// The step that a transaction has come to.
#[derive(Clone, Copy, Debug, PartialEq, Eq)]
pub enum Moment {
    BeforeLook,
    BeforeSettle,
    Settled,
}

/// A gate that every thread passes before and after its steps. It may wait, and changes nothing of what is computed.
pub trait Gate {
    fn pass<R: Wait>(&self, rt: &R, shell: u32, txn: u32, moment: Moment);
}

/// A gate that holds nobody.
#[derive(Clone, Copy, Debug)]
pub struct OpenGate;

impl Gate for OpenGate {
    fn pass<R: Wait>(&self, _rt: &R, _shell: u32, _txn: u32, _moment: Moment) {}
}
