use fx_outside::{Gate, Moment, OpenGate};

#[test]
fn an_open_gate_holds_nobody(rt: HostRuntime) {
    OpenGate.pass(&rt, 0, 0, Moment::BeforeLook);
    OpenGate.pass(&rt, 1, 0, Moment::BeforeSettle);
    OpenGate.pass(&rt, 0, 7, Moment::Settled);
}
