// The fault ledger: a book, and shares whose amounts it sums up.
ghost use Rattle.std.specs.Prelude.{◌≡◌, ◌+◌, ◌-◌, ◌^◌, min, List, IfOk, All, vec_len};

use std::alloc::{AllocError, Global};
use std::marker::Model;
use std::sync::ledger::{Blank, Book, Ledger, Share};

/// The number of failures that were booked, on all shares together.
#[derive(Drop)]
pub struct FaultBook<L: Ledger> {
    book: Book<L>,
}

impl<L: Ledger> Model for FaultBook<L> {
    ghost use Rattle.std.specs.Prelude.{ℕ};

    ghost Value = { ℕ };

    ghost view = { λ b. b.book.total };
}

/// One part of a ledger, with the number of failures that were booked on it.
#[derive(Drop)]
pub struct FaultShare<L: Ledger> {
    share: Share<L>,
    spent: u64,
}

impl<L: Ledger> Model for FaultShare<L> {
    ghost use Rattle.std.specs.Prelude.{◌≡◌, ◌-◌, ◌^◌, ℕ, min};

    ghost Value = { ℕ };

    ghost view = { λ s. s.share.amount };

    ghost invariant = { λ s. (s.share.parts ≡ 1) × (s.spent ≡ min s.share.amount (2 ^ 64 - 1)) };
}

impl<L: Ledger> FaultShare<L> {
    ghost use Rattle.std.specs.Prelude.{◌≡◌, ◌-◌, ◌^◌, min};

    // The amount, as far as a u64 goes.
    pub(crate) fn spent(&self) -> u64
        ensures { result ≡ min self.now (2 ^ 64 - 1) }
    {
        self.spent
    }
}

impl<L: Ledger> FaultBook<L> {
    ghost use Rattle.std.specs.Prelude.{◌≡◌, ◌+◌, ◌<◌, IfOk, All, vec_len, sum};

    /// A new book, and its shares: one for each part of the ledger.
    pub fn split(
        alloc: Global,
        blank: Blank,
        n: usize,
    ) -> Result<(Self, Vec<FaultShare<L>>), AllocError>
        requires name { blank.name ≡ L.name }
        requires parts { blank.parts ≡ L.parts }
        requires one_each { blank.parts ≡ n }
        ensures book { IfOk result (λ made. made.0 ≡ 0) }
        ensures count { IfOk result (λ made. vec_len made.1 ≡ n) }
        ensures shares { IfOk result (λ made. All (λ share. share ≡ 0) made.1.items) }
    {
        let (book, mut rest) = blank.open::<L>();
        let mut shares = Vec::with_capacity(alloc, n)?;
        for _i in 0..n {
            shares.push(FaultShare {
                share: rest.split_off(1, 0),
                spent: 0,
            })?;
        }
        Ok((FaultBook { book }, shares))
    }

    // Books one failure on the share.
    pub(crate) fn add(&mut self, share: &mut FaultShare<L>)
        ensures book { self.new ≡ self.old + 1 }
        ensures share { share.new ≡ share.old + 1 }
    {
        self.book.add(&mut share.share, 1);
        share.spent = share.spent.saturating_add(1);
    }

    /// Takes all shares back: the book is their sum.
    pub fn sum(&mut self, shares: Vec<FaultShare<L>>)
        requires some { 0 < vec_len shares }
        requires all { vec_len shares ≡ L.parts }
        ensures same { self.new ≡ self.old }
        ensures sum { self.old ≡ sum shares.items }
    {
        let mut shares = shares;
        let Some(first) = shares.pop() else {
            return;
        };
        let FaultShare {
            share: mut all,
            spent: _,
        } = first;
        while let Some(next) = shares.pop() {
            let FaultShare { share, spent: _ } = next;
            all.merge(share);
        }
        self.book.audit(&mut all);
    }
}
