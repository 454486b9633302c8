//! The rule, and what each step tells. These types are for the proofs alone.

ghost use Rattle.std.specs.Prelude.{◌+◌};
ghost use Rattle.lr_gate.specs.Shows.{Shows};
ghost use Rattle.lr_gate.specs.Steps.{new_view, spent_view, after_split, after_join};
ghost use Rattle.lr_gate.specs.Steps.{PutTells, TakeTells, StockTells, StopTells, GrabTells, LookTells};
ghost use Rattle.lr_gate.specs.Steps.{ClaimTells, FinishTells};

use crate::slot_value::SlotValue;
use crate::view::View;
use atomic_table::{Join, Play, Split, TableRule};
use lr_gatecore::{RingSize, Work};
use std::marker::PhantomData;

/// The rule of the ring.
pub struct Law<W> {
    marker: PhantomData<W>,
}

impl<J, D, W: Work<Job = J, Done = D>> TableRule<SlotValue<J, D>, View<J>, RingSize> for Law<W> {
    ghost holds = { Shows W.gives };

    ghost first = { λ _. new_view 0 };
}

/// The conductor picks all cells up.
pub struct Stocks;

impl<J, D> Play<SlotValue<J, D>, View<J>> for Stocks {
    ghost then = { StockTells };
}

/// The conductor splits a worker's seat off.
pub struct SplitsOff;

impl<J> Split<View<J>> for SplitsOff {
    ghost left = { after_split };

    ghost right = { λ v. new_view (v.split_off + 1) };
}

/// The store of a put.
pub struct Puts;

impl<J, D> Play<SlotValue<J, D>, View<J>> for Puts {
    ghost then = { PutTells };
}

/// The load of a take.
pub struct Grabs<W> {
    marker: PhantomData<W>,
}

impl<J, D, W: Work<Job = J, Done = D>> Play<SlotValue<J, D>, View<J>> for Grabs<W> {
    ghost then = { GrabTells W.gives };
}

/// The store of a take.
pub struct TakesOut;

impl<J, D> Play<SlotValue<J, D>, View<J>> for TakesOut {
    ghost then = { TakeTells };
}

/// The store of a stop.
pub struct Stops;

impl<J, D> Play<SlotValue<J, D>, View<J>> for Stops {
    ghost then = { StopTells };
}

/// The load of the stop word, and that of a claim.
pub struct Looks<W> {
    marker: PhantomData<W>,
}

impl<J, D, W: Work<Job = J, Done = D>> Play<SlotValue<J, D>, View<J>> for Looks<W> {
    ghost then = { LookTells W.gives };
}

/// The exchange of a claim.
pub struct Claims<W> {
    marker: PhantomData<W>,
}

impl<J, D, W: Work<Job = J, Done = D>> Play<SlotValue<J, D>, View<J>> for Claims<W> {
    ghost then = { ClaimTells W.gives };
}

/// The store of a finish.
pub struct Finishes<W> {
    marker: PhantomData<W>,
}

impl<J, D, W: Work<Job = J, Done = D>> Play<SlotValue<J, D>, View<J>> for Finishes<W> {
    ghost then = { FinishTells W.gives };
}

/// The conductor takes a worker's seat in.
pub struct Joins;

impl<J> Join<View<J>> for Joins {
    ghost both = { after_join };

    ghost spent = { spent_view };
}
