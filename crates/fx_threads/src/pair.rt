//! Two calls at once.

use crate::task::{AnswerOf, Call, Task};
use core::thread::Stack;
use std::snapshot::Snapshot;
use std::sync::Wait;
use std::thread::{self, Scope, Threads};

/// The bytes of the stack of each thread that is started here. The deepest description takes a quarter of it.
pub const STACK_BYTES: usize = 16_777_216;

/// Calls `f` in a new thread, or last where none can be had, and `g` in this one.
///
/// It is [`std::thread::join`] but for the new thread's stack, which has [`STACK_BYTES`] whatever the shell's limit is.
pub fn join<R, F, G, A, B>(rt: &R, f: F, g: G) -> (A, B)
where
    R: Threads + Wait,
    F: FnOnce() -> A + Send + Drop,
    G: FnOnce() -> B + Drop,
    A: Send + Drop,
    requires { F.pre f × G.pre g }
    ensures first { F.post f result.0 }
    ensures second { G.post g result.1 }
{
    join_task(rt, Call(f), g)
}

fn join_task<R, S, G, A, B>(rt: &R, task: S, g: G) -> (A, B)
where
    R: Threads + Wait,
    S: Task<Output = A> + Send + Drop,
    G: FnOnce() -> B + Drop,
    A: Send + Drop,
    requires { S.can_run task × G.pre g }
    ensures { S.gives task result.0 × G.post g result.1 }
{
    thread::scope(
        thread::scope_env(),
        rt,
        move |scope| -> (A, B)
            requires { S.can_run task × G.pre g }
            ensures { S.gives task result.0 × G.post g result.1 }
        { join_in(rt, scope, task, g) },
    )
}

fn join_in<'s, E, R, S, G, A, B>(rt: &R, scope: &Scope<'s, E>, task: S, g: G) -> (A, B)
where
    R: Threads,
    S: Task<Output = A> + Send + Drop + 's,
    G: FnOnce() -> B,
    A: Send + Drop + 's,
    requires { S.can_run task × G.pre g }
    ensures { S.gives task result.0 × G.post g result.1 }
{
    let stack = Stack::new().stack_size(STACK_BYTES);
    let promise = AnswerOf(Snapshot::of(&task));
    let run = move || -> A
        requires { S.can_run task }
        ensures { S.gives task result }
    { task.run() };
    match stack.spawn_scoped_with(scope, promise, run) {
        Ok(running) => {
            let second = g();
            (running.join(rt), second)
        }
        Err(refused) => {
            let second = g();
            ((refused.value)(), second)
        }
    }
}
