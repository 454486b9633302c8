//! The imbalance of a receiver's I and Q: its two gains differ, and its two phases aren't a quarter of a turn apart.
//!
//! A signal away from the middle of the band has as much power in I as in Q, and the two are not correlated. So running
//! means of the squares and of the product, of one pole, say what was done to them, and this is undone (Valkama,
//! Renfors and Koivunen, "Advanced Methods for I/Q Imbalance Compensation in Communication Receivers", IEEE
//! Transactions on Signal Processing 49, 2001). BPSK with its carrier in the very middle is not so, and then nothing is
//! learnt.

ghost use Rattle.std.specs.Prelude.{◌≡◌, length};
ghost use Rattle.lr_demod.specs.declared.sizes.TheConstants.{BLOCK_SAMPLES};

/// How much of a new block comes into the running means, once they have had some.
const BLOCK_PART: f32 = 0.02;

/// The greatest correction: of Q by a part of I, and of Q's gain, to both sides.
const MOST_SHARE: f32 = 0.5;

const MOST_GAIN: f32 = 2.0;

/// Powers below this are those of nothing.
const NO_POWER: f32 = 0.000000000001;

/// What a block's samples are like: the sums of I², of Q² and of I Q.
#[derive(Clone, Copy)]
pub(crate) struct Moments {
    pub(crate) i: f32,
    pub(crate) q: f32,
    pub(crate) product: f32,
}

/// The running means, and what corrects Q by them.
#[derive(Clone, Copy)]
pub(crate) struct Imbalance {
    means: Moments,
    /// How much of a new block comes in next.
    part: f32,
    /// The part of I that is in Q, and Q's gain after this is taken off.
    share: f32,
    gain: f32,
}

fn clamped(value: f32, least: f32, most: f32) -> f32 {
    if value > most {
        most
    } else if value > least {
        value
    } else {
        least
    }
}

impl Imbalance {
    pub(crate) fn new() -> Imbalance {
        Imbalance {
            means: Moments {
                i: 0.0,
                q: 0.0,
                product: 0.0,
            },
            part: 1.0,
            share: 0.0,
            gain: 1.0,
        }
    }

    /// Learns from a block of a signal whose carrier stands away from the middle. Each block counts the same, whatever
    /// its power.
    pub(crate) fn learn(&mut self, block: &Moments) {
        let power = (block.i + block.q).max(NO_POWER);
        let block = Moments {
            i: block.i / power,
            q: block.q / power,
            product: block.product / power,
        };
        let part = self.part;
        self.part = clamped(part / (1.0 + part), BLOCK_PART, 1.0);
        self.means.i = self.means.i + (block.i - self.means.i) * part;
        self.means.q = self.means.q + (block.q - self.means.q) * part;
        self.means.product = self.means.product + (block.product - self.means.product) * part;
        if self.means.i > NO_POWER && self.means.q > NO_POWER {
            self.share = clamped(self.means.product / self.means.i, -MOST_SHARE, MOST_SHARE);
            let rest = self.means.q - self.share * self.means.product;
            self.gain = clamped((self.means.i / rest).sqrt(), 1.0 / MOST_GAIN, MOST_GAIN);
        }
    }

    /// Corrects the Q of a block.
    pub(crate) fn correct(&self, i: &[f32], q: &mut [f32])
        requires i { length i.now ≡ BLOCK_SAMPLES }
        requires q { length q.old ≡ BLOCK_SAMPLES }
        ensures { length q.new ≡ BLOCK_SAMPLES }
    {
        for k in 0..q.len() {
            q[k] = (q[k] - self.share * i[k]) * self.gain;
        }
    }
}
