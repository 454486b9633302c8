//! The receipts of one downlink, one after another.
ghost use Rattle.std.specs.Prelude.{◌≡◌, ◌^◌};
ghost use Rattle.lr_downlinks.specs.Counting.{FindsPlace};

use crate::receipt::Receipt;
use crate::run::Run;
use std::marker::Model;

/// The receipts of one downlink that are still to come, in the order of its files. Contracts see it as their list.
#[derive(Drop)]
pub struct Receipts<'a> {
    /// The part of the order that is still to be looked through.
    order: &'a [u8],
    downlink: u8,
    /// How often the downlink came before that part.
    place: u64,
    /// The number of the entry at which that part begins.
    number: u64,
}

impl<'a> Model for Receipts<'a> {
    ghost use Rattle.std.specs.Prelude.{◌<◌, ◌≤◌, ◌+◌, ◌^◌, List, length};
    ghost use Rattle.lr_downlinks.specs.Receipts.{receipts_from};
    ghost use Rattle.lr_downlinks.specs.declared.receipt.Receipt.{Receipt};

    ghost Value = { List Receipt };

    ghost view = { λ r. receipts_from r.downlink r.place r.number r.order.now };

    ghost invariant = { λ r. (r.number + length r.order.now < 2 ^ 64) × (r.place ≤ r.number) };
}

/// The first place at which a downlink stands in an order.
fn find_place(order: &[u8], downlink: u8) -> Option<usize>
    ensures { FindsPlace downlink order.now result }
{
    for place in 0..order.len() {
        if order[place] == downlink {
            return Some(place);
        }
    }
    None
}

impl<'a> Iterator for Receipts<'a> {
    ghost use Rattle.std.specs.Iterator.{item_count};
    ghost use Rattle.lr_downlinks.specs.Receipts.{GivesReceipt};

    type Item = Receipt;

    ghost next_gives = { GivesReceipt };

    ghost remaining = { item_count (λ receipts. receipts) };

    fn next(&mut self) -> Option<Receipt> {
        let skipped = find_place(self.order, self.downlink)?;
        let place = self.place;
        let number = self.number + skipped as u64;
        self.order = &self.order[skipped + 1..];
        self.place = place + 1;
        self.number = number + 1;
        Some(Receipt {
            downlink: self.downlink,
            place,
            number,
        })
    }
}

impl Run {
    ghost use Rattle.std.specs.Prelude.{◌≡◌};
    ghost use Rattle.lr_downlinks.specs.Receipts.{receipts_of};

    /// The receipts of a downlink, in the order of its files. To take all of them goes through the order once, and
    /// takes no memory.
    pub fn receipts_of(&self, downlink: u8) -> Receipts<'_>
        ensures { result ≡ receipts_of self.now.base self.now.order downlink }
    {
        Receipts {
            order: self.order.as_slice(),
            downlink,
            place: 0,
            number: self.base,
        }
    }
}
