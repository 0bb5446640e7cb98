//! Work for one thread.

ghost use Rattle.std.specs.Prelude.{◌≡◌};
ghost use Rattle.live_run.specs.inner.Jobs.{Keeps};

use std::snapshot::Snapshot;
use std::thread::{Promise, PromisedHandle, Scope, Threads};

/// Work for one thread.
pub trait Job<D> {
    /// The job can be done.
    ghost can: { Self → Type 0 };

    /// What the job gives is what it is to give.
    ghost owes: { Self → D → Type 0 };

    /// Does the job.
    fn run(self) -> D
        requires { can self }
        ensures { owes self result };
}

/// The promise that a thread gives what its job owes.
#[derive(Drop)]
pub struct Owes<J> {
    /// The job as it was handed to the thread.
    pub given: Snapshot<J>,
}

impl<D, J: Job<D>> Promise<D> for Owes<J> {
    ghost kept_by = { λ p r. J.owes p.given.value r };
}

/// A job that was started.
#[derive(Drop)]
pub enum Started<J: Job<D>, D> {
    /// A thread is at work on it.
    There(PromisedHandle<D, Owes<J>>),
    /// No thread could be made, and the caller has done it.
    Here(D),
}

/// Starts a job in a thread of its own, and does it at once where no thread can be made.
pub fn start<'s, E, J: Job<D> + Drop + Send + 's, D: Send + Drop + 's>(
    scope: &Scope<'s, E>,
    job: J,
) -> Started<J, D>
    requires { J.can job }
    ensures { Keeps J.owes job result }
{
    let promise = Owes {
        given: Snapshot::of(&job),
    };
    match scope.spawn_with(promise, move || job.run()) {
        Ok(child) => Started::There(child),
        Err(refused) => Started::Here((refused.value)()),
    }
}

/// Waits for a job, and answers what it gave.
pub fn wait_for<R: Threads, J: Job<D>, D>(rt: &R, started: Started<J, D>) -> D
    ensures { (job : J) → Keeps J.owes job started → J.owes job result }
{
    match started {
        Started::There(child) => child.join(rt),
        Started::Here(done) => done,
    }
}
