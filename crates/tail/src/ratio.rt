// A ratio of two numbers, compared by cross multiplication.
ghost use Rattle.std.specs.Prelude.{◌≡◌, ◌*◌, ◌≤◌, max, nat_le};
ghost use Rattle.std.proofs.Common.{arith, leb-true, leb-false, le-leb};
ghost use Rattle.tail.specs.Crosses.{cross_chain};

use super::order::Ranked;

#[derive(Clone, Copy)]
pub struct Ratio {
    num: u32,
    den: u32,
    ghost ok: { 1 ≤ den },
}

impl Ratio {
    // A divisor of 0 counts as 1, so that every ratio can be compared.
    pub fn new(num: u32, den: u32) -> Ratio
        ensures num { result.num ≡ num }
        ensures den { result.den ≡ max den 1 }
    {
        Ratio {
            num,
            den: den.max(1),
        }
    }

    pub fn num(self) -> u32
        ensures { result ≡ self.num }
    {
        self.num
    }

    pub fn den(self) -> u32
        ensures value { result ≡ self.den }
        ensures bound { 1 ≤ result }
    {
        self.den
    }
}

impl Ranked for Ratio {
    ghost reaches = { λ x y. nat_le (y.num * x.den) (x.num * y.den) };

    ghost orders = { record {
      any_two = λ x y h. le-leb _ _ (let l = leb-false _ _ h in omega arith);
      chain = λ x y z h k. le-leb _ _ (cross_chain x.num x.den y.num y.den z.num z.den (let o = y.ok in omega arith) (leb-true _ _ h) (leb-true _ _ k));
    } };

    fn at_least(&self, other: &Ratio) -> bool {
        other.num as u64 * self.den as u64 <= self.num as u64 * other.den as u64
    }
}
