ghost use Rattle.std.specs.Prelude.{◌≡◌, ◌+◌, ◌-◌, ◌<◌, ◌≤◌, ◌^◌};

use std::marker::Model;
use std::sync::ledger::{Ledger, Share};

/// A counter of steps, beside a share of a ledger. It can be cut into parts, one for each worker, that are
/// counted apart and joined again; contracts see its count and its parts, so that a part which is never
/// joined is missed. Code that is given none can't make one.
#[derive(Drop)]
pub struct Steps<L: Ledger> {
    count: u64,
    share: Share<L>,
}

impl<L: Ledger> Model for Steps<L> {
    ghost use Rattle.calc_model.specs.Counters.{Counter};

    ghost Value = { Counter };

    ghost view = { λ s. record { count = s.count; parts = s.share.parts } };
}

impl<L: Ledger> Steps<L> {
    pub fn new(share: Share<L>) -> Steps<L>
        requires { share.amount ≡ 0 }
        ensures count { result.count ≡ 0 }
        ensures parts { result.parts ≡ share.parts }
    {
        Steps { count: 0, share }
    }

    pub fn count(&self) -> u64
        ensures { result ≡ self.now.count }
    {
        self.count
    }

    /// Counts one step.
    pub fn tick(&mut self)
        requires { self.old.count < 2 ^ 64 - 1 }
        ensures count { self.new.count ≡ self.old.count + 1 }
        ensures parts { self.new.parts ≡ self.old.parts }
    {
        self.count += 1;
    }

    /// A counter for a worker, with one of the parts.
    pub fn fork(&mut self) -> Steps<L>
        requires { 2 ≤ self.old.parts }
        ensures fresh { result.count ≡ 0 }
        ensures given { result.parts ≡ 1 }
        ensures count { self.new.count ≡ self.old.count }
        ensures parts { self.new.parts + 1 ≡ self.old.parts }
    {
        Steps {
            count: 0,
            share: self.share.split_off(1, 0),
        }
    }

    /// Adds what the other has counted, and takes its parts.
    pub fn join(&mut self, other: Steps<L>)
        requires { self.old.count + other.count < 2 ^ 64 }
        ensures count { self.new.count ≡ self.old.count + other.count }
        ensures parts { self.new.parts ≡ self.old.parts + other.parts }
    {
        let Steps { count, share } = other;
        self.count += count;
        self.share.merge(share);
    }
}
