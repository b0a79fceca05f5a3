//! Cases of moves, questions and edits, one command after another at one zipper. The program reads cases from standard
//! input, leaves out each line that begins with `>`, and prints each other line again with what it gives behind it, in lines
//! that begin with `>`. So the output is a copy of the input exactly where the answers that stand beside the cases are right.
#![tactic(auto)]

mod acts;
mod cases;
mod spelled;
mod stage;
mod telling;
mod verbs;
mod walk;

use cases::add_cases;
use std::io;
use std::io::ErrorKind;

fn main(rt: HostRuntime) -> io::Result<()> {
    let alloc = rt.alloc();
    let cases = io::read_to_string(alloc, rt.reader())?;
    let mut answers = String::new(alloc);
    match add_cases(alloc, cases.as_str(), &mut answers) {
        Ok(()) => rt.print(answers),
        Err(fx_base::NoMemory) => Err(io::Error::from(ErrorKind::OutOfMemory)),
    }
}
