ghost use Rattle.std.specs.Prelude.{◌≡◌, ℕ, ◌<◌, ◌^◌, length};
ghost use Rattle.lane_kernels.specs.Counting.{raised};

use crate::arithmetic::{self, Crossed};
use crate::kernels::Kernels;
use crate::{choices, folds, windows};
use calc_model::Op;
use std::marker::Model;

/// The kernels of this crate, which count the items of their first slices, up to the greatest u64.
#[derive(Drop)]
pub struct Lanes {
    items: u64,
}

impl Model for Lanes {
    ghost Value = { ℕ };

    ghost view = { λ lanes. lanes.items };
}

impl Lanes {
    pub fn new() -> Self
        ensures { result ≡ 0 }
    {
        Lanes { items: 0 }
    }

    /// How many items the kernels were given, or the greatest u64 where they were more.
    pub fn items(&self) -> u64
        ensures { result ≡ self.now }
    {
        self.items
    }

    fn raise(&mut self, count: usize)
        ensures { self.new ≡ raised self.old count }
    {
        self.items = self.items.saturating_add(count as u64);
    }
}

impl Kernels for Lanes {
    ghost items = { λ lanes. lanes };

    fn sum(&mut self, span: &[i64]) -> i128 {
        self.raise(span.len());
        folds::sum(span)
    }

    fn min(&mut self, span: &[i64]) -> Option<i64> {
        self.raise(span.len());
        folds::min(span)
    }

    fn max(&mut self, span: &[i64]) -> Option<i64> {
        self.raise(span.len());
        folds::max(span)
    }

    fn count_where(&mut self, span: &[i64], op: Op, with: i64) -> usize {
        self.raise(span.len());
        folds::count_where(span, op, with)
    }

    fn add(&mut self, a: &[i64], b: &[i64], out: &mut [i64]) -> Result<(), Crossed> {
        self.raise(a.len());
        arithmetic::add(a, b, out)
    }

    fn sub(&mut self, a: &[i64], b: &[i64], out: &mut [i64]) -> Result<(), Crossed> {
        self.raise(a.len());
        arithmetic::sub(a, b, out)
    }

    fn compare(&mut self, a: &[i64], b: &[i64], op: Op, out: &mut [i64]) {
        self.raise(a.len());
        choices::compare(a, b, op, out)
    }

    fn select(&mut self, mask: &[i64], a: &[i64], b: &[i64], out: &mut [i64]) {
        self.raise(mask.len());
        choices::select(mask, a, b, out)
    }

    fn window_sums(&mut self, span: &[i64], width: usize, out: &mut [i128]) {
        self.raise(span.len());
        windows::window_sums(span, width, out)
    }
}
