//! What a worker's schedule is kept up to date by.

ghost use Rattle.std.specs.Prelude.{◌-◌, ◌^◌, ℕ, min};

use crate::service::Service;
use bundle_model::Schedule;
use std::sync::Wait;
use tile_workers::Feed;

/// What a worker's schedule is kept up to date by.
#[derive(Drop)]
pub struct Seat<'a, S: Service<P>, P, R> {
    /// What all threads share.
    pub service: &'a S,
    /// The runtime.
    pub rt: &'a R,
    /// The worker's own pass.
    pub pass: P,
    /// The pass is of what all threads share, and rests between two calls.
    pub ghost rests: { S.rests service.now pass } by { S.rests_prop service.now pass },
}

impl<'a, P, S: Service<P>, R: Wait> Feed for Seat<'a, S, P, R> {
    ghost setup = { λ f. S.setup f.service.now };

    ghost Kept = { S × ℕ };

    ghost kept = { λ f. (f.service.now, S.share f.pass) };

    ghost seen = { λ f. S.seen f.pass };

    ghost turns = { λ f. min (S.entered f.pass) (2 ^ 64 - 1) };

    fn refresh(&mut self, into: &mut Schedule) {
        self.service.refresh(self.rt, &mut self.pass, into);
    }
}
