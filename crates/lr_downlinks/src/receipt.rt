//! Receipts.
ghost use Rattle.std.specs.Prelude.{◌≡◌};
ghost use Rattle.lr_downlinks.specs.Merge.{times_in_order};

use crate::run::Run;

/// Says which file of which downlink an entry of the shelf is.
#[derive(Clone, Copy)]
pub struct Receipt {
    /// The number of the downlink, counted from 0.
    pub downlink: u8,
    /// Which of the downlink's files it is, counted from 0.
    pub place: u64,
    /// The number of the entry.
    pub number: u64,
}

/// How often the downlink stands among these.
fn count_of(order: &[u8], downlink: u8) -> u64
    ensures value { result ≡ times_in_order downlink order.now }
{
    let mut count = 0;
    for one in order {
        if *one == downlink {
            count += 1;
        }
    }
    count
}

impl Run {
    ghost use Rattle.std.specs.Prelude.{◌≡◌, ◌<◌, length};
    ghost use Rattle.lr_downlinks.specs.Receipts.{receipt_at};

    /// The receipt of the file at this place of the order.
    pub fn receipt(&self, at: usize) -> Receipt
        requires { at < length self.now.order }
        ensures { result ≡ receipt_at self.now.base self.now.order at }
    {
        let order = self.order.as_slice();
        let downlink = order[at];
        Receipt {
            downlink,
            place: count_of(&order[..at], downlink),
            number: self.base + at as u64,
        }
    }
}
