//! Elements of the field, and values of polynomials.
#![tactic(auto)]

ghost use Rattle.std.specs.Prelude.{◌≡◌, ℕ, ◌<◌, ◌≢◌, bit_xor};
ghost use Rattle.lr_gf.specs.Field.{times, power, value_of};

use crate::tables::{exponent_of, power_of_x};
use std::marker::Model;

/// An element of the field: bit i is the coefficient of x^i.
#[derive(Clone, Copy)]
pub struct Gf(pub u8);

impl Model for Gf {
    ghost Value = { ℕ };

    ghost view = { λ g. g.0 };

    ghost invariant = { λ g. g.0 < 256 };

    ghost inverse = { λ n. record { 0 = n } };
}

impl Gf {
    /// The sum, which is the difference too.
    pub fn add(self, other: Gf) -> Gf
        ensures { result ≡ bit_xor self other }
    {
        Gf(self.0 ^ other.0)
    }

    /// The product.
    pub fn mul(self, other: Gf) -> Gf
        ensures { result ≡ times self other }
    {
        if self.0 == 0 || other.0 == 0 {
            return Gf(0);
        }
        Gf(power_of_x(exponent_of(self.0) + exponent_of(other.0)))
    }

    /// The n-th power; the power 0 of every element is 1.
    pub fn pow(self, n: u32) -> Gf
        ensures { result ≡ power self n }
    {
        if n == 0 {
            return Gf(1);
        }
        if self.0 == 0 {
            return Gf(0);
        }
        let exponent = exponent_of(self.0) as u64 * n as u64 % 255;
        Gf(power_of_x(exponent as usize))
    }

    /// The inverse: the element whose product with this one is 1.
    pub fn inv(self) -> Gf
        requires { self ≢ 0 }
        ensures { times self result ≡ 1 }
    {
        Gf(power_of_x(255 - exponent_of(self.0)))
    }
}

/// The value of a polynomial at an element; its coefficients are given from the highest power down.
pub fn value(coefficients: &[Gf], at: Gf) -> Gf
    ensures { result ≡ value_of coefficients.now at }
{
    // So the proof sees that the place is a byte.
    let _ = &at.0;
    let mut sum = Gf(0);
    for coefficient in coefficients {
        let Gf(last) = *coefficient;
        sum = Gf(sum.mul(at).0 ^ last);
    }
    sum
}
