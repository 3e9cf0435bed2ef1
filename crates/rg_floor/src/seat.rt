//! A part's seat at the floor.

ghost use Rattle.std.specs.Prelude.{◌≡◌, ◌<◌, ◌≤◌, ◌+◌, [], map, length, vec_len, IfOk, IfSome, IsSome, sum_by};
ghost use Rattle.rg_floor.specs.Turns.{numbers_to};

use crate::round::Round;
use std::alloc::{AllocError, Global};
use std::marker::Model;
use std::sync::ledger::{Book, Ledger, Share};

/// A part, with its share of the run's ledger: the count of the steps that it made from this seat.
///
/// Nobody makes a second seat for a part: each has one of the ledger's parts.
#[derive(Drop)]
pub struct Seat<L: Round> {
    part: usize,
    share: Share<L>,
}

impl<L: Round> Model for Seat<L> {
    ghost use Rattle.std.specs.Prelude.{◌≡◌, ◌<◌, ◌≤◌, length};
    ghost use Rattle.rg_floor.specs.Seats.{SeatView};

    ghost Value = { SeatView };

    ghost view = { λ s. record { part = s.part; steps = s.share.amount } };

    ghost invariant = { λ s. (s.share.parts ≡ 1) × (0 < s.part) × (s.part ≤ length L.code) };
}

impl<L: Round> Seat<L> {
    fn new(part: usize, share: Share<L>) -> Seat<L>
        requires one { share.parts ≡ 1 }
        requires named { (0 < part) × (part ≤ length L.code) }
        ensures { result ≡ record { part = part; steps = share.amount } }
    {
        Seat { part, share }
    }

    /// The number of the part, from 1.
    pub fn part(&self) -> usize
        ensures part { result ≡ self.now.part }
        ensures named { (0 < result) × (result ≤ length L.code) }
    {
        self.part
    }

    /// Counts one step.
    pub(crate) fn count(&mut self, book: &mut Book<L>)
        ensures seat { self.new ≡ record { part = self.old.part; steps = self.old.steps + 1 } }
        ensures book { book.new.total ≡ book.old.total + 1 }
    {
        book.add(&mut self.share, 1);
    }

    /// What is left of the seat.
    fn into_share(self) -> Share<L>
        ensures parts { result.parts ≡ 1 }
        ensures amount { result.amount ≡ self.steps }
    {
        let Seat { part: _, share } = self;
        share
    }
}

/// A seat for each part, in order.
pub(crate) fn seats<L: Round>(
    alloc: Global,
    count: usize,
    share: Share<L>,
) -> Result<Vec<Seat<L>>, AllocError>
    requires parts { share.parts ≡ count }
    requires amount { share.amount ≡ 0 }
    requires count { count ≤ length L.code }
    ensures parts { IfOk result (λ v. map (λ s. s.part) v.items ≡ numbers_to count) }
    ensures counts { IfOk result (λ v. sum_by (λ s. s.steps) v.items ≡ 0) }
    ensures all { IfOk result (λ v. vec_len v ≡ count) }
{
    let mut rest = share;
    let mut seats = Vec::new(alloc);
    for i in 0..count {
        seats.push(Seat::new(i + 1, rest.split_off(1, 0)))?;
    }
    Ok(seats)
}

/// The shares of all seats in one.
pub(crate) fn gathered<L: Round>(mut seats: Vec<Seat<L>>) -> Option<Share<L>>
    ensures parts { IfSome result (λ s. s.parts ≡ vec_len seats) }
    ensures amount { IfSome result (λ s. s.amount ≡ sum_by (λ s. s.steps) seats.items) }
    ensures some { 0 < vec_len seats → IsSome result }
{
    let mut all = seats.pop()?.into_share();
    while let Some(seat) = seats.pop() {
        all.merge(seat.into_share());
    }
    Some(all)
}
