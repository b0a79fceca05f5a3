//! Cases of the whole program over real folders, as data. It reads cases from standard input, leaves out each line that
//! begins with `>`, and prints each other line again with what it gives behind it, in lines that begin with `>`. So the
//! output is a copy of the input exactly where the answers that stand beside the cases are right. All paths are below the
//! folder that it runs in.
#![tactic(auto)]

mod calls;
mod cases;
mod run;
mod stage;
mod telling;

use cases::{Before, add_answers};
use std::io;
use std::io::ErrorKind;

fn main(rt: HostRuntime) -> io::Result<()> {
    let alloc = rt.alloc();
    let cases = io::read_to_string(alloc, rt.reader())?;
    let mut answers = String::new(alloc);
    let mut before = Before {
        pipe: None,
        room: u64::MAX,
    };
    match add_answers(&rt, &rt, cases.as_str(), &mut before, &mut answers) {
        Ok(()) => rt.print(answers),
        Err(fx_base::NoMemory) => Err(io::Error::from(ErrorKind::OutOfMemory)),
    }
}
