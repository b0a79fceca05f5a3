//! Transactions on a folder of plain files: the program over the real folders, files and standard output.
#![tactic(auto)]

use fx_program::{Ended, program};

fn main(rt: HostRuntime) -> Ended {
    program(&rt, &rt)
}
