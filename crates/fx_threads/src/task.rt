//! What a thread is to do.
ghost use Rattle.std.specs.Prelude.{◌≡◌};

use std::snapshot::Snapshot;
use std::thread::Promise;

/// A call that is still to be made, and what its answers are.
pub(crate) trait Task {
    type Output;

    ghost can_run: { Self → Type 0 };

    ghost gives: { Self → Self.Output → Type 0 };

    fn run(self) -> Self::Output
        requires { can_run self }
        ensures { gives self result };
}

/// The call of a closure.
#[derive(Drop)]
pub(crate) struct Call<F>(pub(crate) F);

impl<F: FnOnce() -> A, A> Task for Call<F> {
    type Output = A;

    ghost can_run = { λ call. F.pre call.0 };

    ghost gives = { λ call answer. F.post call.0 answer };

    fn run(self) -> A {
        (self.0)()
    }
}

/// That an answer is one that the task may give.
#[derive(Drop)]
pub(crate) struct AnswerOf<S>(pub(crate) Snapshot<S>);

impl<S: Task<Output = A>, A> Promise<A> for AnswerOf<S> {
    ghost kept_by = { λ promise answer. S.gives promise.0.value answer };
}
