//! Cases as data, of reports that are read back, and of what no text can show: what is copied and added where memory is ample, and
//! what is known inside an attempt. The program reads cases from standard input, leaves out each line that begins with `>`, and
//! prints each other line again with what it gives behind it, in lines that begin with `>`. So the output is a copy of the input
//! exactly where the answers that stand beside the cases are right.
#![tactic(auto)]

mod answers;
mod known;
mod plans;
mod stores;
mod values;
mod words;

use answers::Report;
use std::io;
use std::io::ErrorKind;
use test_lines::add_answers;

fn main(rt: HostRuntime) -> io::Result<()> {
    let alloc = rt.alloc();
    let cases = io::read_to_string(alloc, rt.reader())?;
    let mut report = Report::new(alloc);
    let mut answers = String::new(alloc);
    match add_answers(alloc, &mut report, cases.as_str(), &mut answers) {
        Ok(()) => rt.print(answers),
        Err(fx_base::NoMemory) => Err(io::Error::from(ErrorKind::OutOfMemory)),
    }
}
