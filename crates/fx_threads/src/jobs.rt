//! A call at each of many jobs.
ghost use denote.Param.Send.{IsSync, IsSend};
ghost use Rattle.std.specs.Prelude.{◌≡◌, ◌<◌, IfOk, vec_len};
ghost use Rattle.std.specs.Fork.{AcceptsJobs, GivesJobs};
ghost use Rattle.std.specs.Fork.Halves.{GivesFor};

use crate::pair::join;
use std::alloc::AllocError;
use std::sync::Wait;
use std::thread::Threads;

/// Calls `f(job)` at each job, each in a thread of its own where one can be had, and gives the answers in order. Where memory
/// runs out, the answers are dropped, and some jobs may have been dropped with no call.
///
/// It is [`std::thread::map_vec`] but for the threads' stacks, which are of the stated size.
pub fn map_vec<R, J, X, F>(rt: &R, jobs: Vec<J>, f: &F) -> Result<Vec<X>, AllocError>
where
    R: Threads + Wait + Sync,
    J: Send + Drop,
    X: Send + Drop,
    F: Fn(J) -> X + Sync,
    requires { AcceptsJobs F.Fn f.now jobs.items }
    ensures len { IfOk result (λ v. vec_len v ≡ vec_len jobs) }
    ensures each { IfOk result (λ v. GivesJobs F.Fn f.now jobs.items v.items) }
{
    call_each(rt, f, jobs)
}

/// One half of the jobs goes to a new thread.
#[cycle(jobs)]
fn call_each<R, J, X, F>(rt: &R, f: &F, mut low: Vec<J>) -> Result<Vec<X>, AllocError>
where
    R: Threads + Wait + Sync,
    J: Send + Drop,
    X: Send + Drop,
    F: Fn(J) -> X + Sync,
    requires { AcceptsJobs F.Fn f.now low.items }
    ensures { IfOk result (λ v. GivesFor F.Fn f.now low.items v.items) }
{
    if low.len() < 2 {
        return call_once(f, low);
    }
    let high = low.split_off(low.len() / 2)?;
    let front = move || -> Result<Vec<X>, AllocError>
        requires { IsSync R.row × IsSync F.row × IsSend J.row × IsSend X.row
            × AcceptsJobs F.Fn f.now low.items }
        ensures { IfOk result (λ v. GivesFor F.Fn f.entry.now low.items v.items) }
    { call_each(rt, f, low) };
    let back = move || -> Result<Vec<X>, AllocError>
        requires { IsSync R.row × IsSync F.row × IsSend J.row × IsSend X.row
            × AcceptsJobs F.Fn f.now high.items }
        ensures { IfOk result (λ v. GivesFor F.Fn f.entry.now high.items v.items) }
    { call_each(rt, f, high) };
    let (first, second) = join(rt, front, back);
    let mut all = first?;
    let mut rest = second?;
    all.append(&mut rest)?;
    Ok(all)
}

/// At most one job, in this thread.
fn call_once<J: Drop, X: Drop, F: Fn(J) -> X>(f: &F, mut jobs: Vec<J>) -> Result<Vec<X>, AllocError>
    requires short { vec_len jobs < 2 }
    requires accepts { AcceptsJobs F.Fn f.now jobs.items }
    ensures { IfOk result (λ v. GivesFor F.Fn f.now jobs.items v.items) }
{
    let mut done = Vec::new(*jobs.allocator());
    let Some(job) = jobs.pop() else {
        return Ok(done);
    };
    done.push(f(job))?;
    Ok(done)
}
