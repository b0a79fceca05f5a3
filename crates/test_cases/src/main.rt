//! Cases as data. The program reads cases from standard input, leaves out each line that begins with `>`, and prints each
//! other line again with what it gives behind it, in lines that begin with `>`. So the answers that stand beside the cases
//! can't reach what is tried, and the output is a copy of the input exactly where they are right.
#![tactic(auto)]

mod answers;
mod door;
mod program;
mod replay;
mod shells;
mod steps;
mod threads;
mod views;
mod watches;

use answers::Tried;
use door::Door;
use program::top_on;
use std::io;
use std::io::ErrorKind;
use test_lines::add_answers;
use test_stage::Stage;

fn main(rt: HostRuntime) -> io::Result<()> {
    let alloc = rt.alloc();
    let cases = io::read_to_string(alloc, rt.reader())?;
    let mut answers = String::new(alloc);
    let mut stage = Stage::new(alloc);
    let door = Door::new();
    let top = top_on(&rt, &door);
    let mut tried = Tried {
        program: &top,
        door: &door,
        stage: &mut stage,
    };
    match add_answers(alloc, &mut tried, cases.as_str(), &mut answers) {
        Ok(()) => rt.print(answers),
        Err(fx_base::NoMemory) => Err(io::Error::from(ErrorKind::OutOfMemory)),
    }
}
