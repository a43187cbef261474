// Exact intervals of whole numbers, whose ends lie in -2^60 to 2^60.

#![tactic(auto)]

ghost use Rattle.std.specs.Prelude.{◌≡◌, true, false, ◌*◌, ◌≤◌, ◌^◌, leb, nat_abs, ◌*ℤ◌};
ghost use Rattle.interval.specs.Rules.{sum, difference, product, square};
ghost use Rattle.interval.specs.Limit.{SmallEnds, is_small, bounded_of};
ghost use Rattle.interval.specs.Inner.{OrderedEnds, is_across, both_across, clamp_of, clamped, ordered_of, least_factor, greatest_factor};

use replies::End;

// The limit: the greatest end, the least end, and the greatest magnitude.
const GREATEST: i64 = 1152921504606846976;

const LEAST: i64 = -GREATEST;

const LIMIT: u64 = GREATEST as u64;

// The product of two numbers up to this magnitude, 2^30, is within the limit.
const SHORT: i64 = 1073741824;

#[derive(Clone, Copy, Debug, PartialEq, Eq)]
pub struct Interval {
    pub low: i64,
    pub high: i64,
}

// Whether x lies in -2^60 to 2^60.
#[tactic(auto, unfolding(crate::specs::Limit::is_small))]
fn is_small(x: i64) -> bool
    ensures { result ≡ is_small x }
{
    LEAST <= x && x <= GREATEST
}

// Whether x lies in -2^30 to 2^30.
fn is_short(x: i64) -> bool
    ensures { result ≡ leb (nat_abs x) (2 ^ 30) }
{
    -SHORT <= x && x <= SHORT
}

// Whether m * n is at most 2^60. The limit is divided, so that no product wraps.
fn is_small_product(m: u64, n: u64) -> bool
    ensures { result ≡ leb (m * n) (2 ^ 60) }
{
    if n == 0 {
        return true;
    }
    m <= LIMIT / n
}

// The product if it is within the limit; otherwise the first number past the limit, on the product's side. Short factors are tested first, since a division
// takes longer than all the rest, and some compilers begin it before they know that it is needed.
fn times(a: i64, b: i64) -> i64
    requires a_small { nat_abs a ≤ 2 ^ 60 }
    requires b_small { nat_abs b ≤ 2 ^ 60 }
    ensures { result ≡ clamp_of (a *ℤ b) }
{
    if is_short(a) && is_short(b) {
        return a * b;
    }
    if is_small_product(a.unsigned_abs(), b.unsigned_abs()) {
        return a * b;
    }
    if (a < 0) == (b < 0) {
        return GREATEST + 1;
    }
    LEAST - 1
}

impl Interval {
    // The interval if both its ends lie within the limit, otherwise the end past it, of which the low one counts first.
    #[tactic(auto, unfolding(crate::specs::Limit::bounded_of, crate::specs::Limit::past_end))]
    pub fn limited(self) -> Result<Interval, End>
        ensures { result ≡ bounded_of self }
    {
        if !is_small(self.low) {
            return Err(End::Low);
        }
        if !is_small(self.high) {
            return Err(End::High);
        }
        Ok(self)
    }

    #[tactic(auto, unfolding(crate::specs::Rules::sum))]
    pub fn sum(self, other: Interval) -> Result<Interval, End>
        requires self_small { SmallEnds self }
        requires other_small { SmallEnds other }
        ensures { result ≡ bounded_of (sum self other) }
    {
        let low = self.low + other.low;
        let high = self.high + other.high;
        Interval { low, high }.limited()
    }

    #[tactic(auto, unfolding(crate::specs::Rules::difference))]
    pub fn difference(self, other: Interval) -> Result<Interval, End>
        requires self_small { SmallEnds self }
        requires other_small { SmallEnds other }
        ensures { result ≡ bounded_of (difference self other) }
    {
        let low = self.low - other.high;
        let high = self.high - other.low;
        Interval { low, high }.limited()
    }

    // The same two ends, the lesser one first.
    #[tactic(auto, unfolding(crate::specs::Inner::ordered_of))]
    fn ordered(self) -> Interval
        ensures { result ≡ ordered_of self }
    {
        if self.low <= self.high {
            return self;
        }
        Interval {
            low: self.high,
            high: self.low,
        }
    }

    // Whether zero lies strictly inside.
    #[tactic(auto, unfolding(crate::specs::Inner::is_across))]
    fn is_across(self) -> bool
        ensures { result ≡ is_across self }
    {
        self.low < 0 && 0 < self.high
    }

    // Whether it does in both operands.
    #[tactic(auto, unfolding(crate::specs::Inner::both_across))]
    fn both_across(self, other: Interval) -> bool
        ensures { result ≡ both_across self other }
    {
        self.is_across() && other.is_across()
    }

    // The end that is this operand's factor in the low end of the product, if zero is not strictly inside both: by the sign of the other operand, and
    // by its own if the other has zero strictly inside.
    #[tactic(auto, unfolding(crate::specs::Inner::least_factor, crate::specs::Inner::by_sign))]
    fn least_factor(self, other: Interval) -> i64
        ensures { result ≡ least_factor self other }
    {
        if 0 <= other.low {
            return self.low;
        }
        if other.high <= 0 {
            return self.high;
        }
        if self.high <= 0 {
            return self.low;
        }
        self.high
    }

    // The same for the high end. (One function for both ends would take the ends in another order each time: no plainer.)
    #[tactic(auto, unfolding(crate::specs::Inner::greatest_factor, crate::specs::Inner::by_sign))]
    fn greatest_factor(self, other: Interval) -> i64
        ensures { result ≡ greatest_factor self other }
    {
        if 0 <= other.low {
            return self.high;
        }
        if other.high <= 0 {
            return self.low;
        }
        if 0 <= self.low {
            return self.high;
        }
        self.low
    }

    // The product, clamped, of two operands of which one does not have zero strictly inside: two products of ends.
    fn two_corners(self, other: Interval) -> Interval
        requires self_ordered { OrderedEnds self }
        requires other_ordered { OrderedEnds other }
        requires not_both_across { both_across self other ≡ false }
        ensures { result ≡ clamped (product self other) }
    {
        Interval {
            low: times(self.least_factor(other), other.least_factor(self)),
            high: times(self.greatest_factor(other), other.greatest_factor(self)),
        }
    }

    // The product, clamped, of two operands that both have zero strictly inside: four products of ends, two of which are negative and two positive.
    fn four_corners(self, other: Interval) -> Interval
        requires self_ordered { OrderedEnds self }
        requires other_ordered { OrderedEnds other }
        requires both_across { both_across self other ≡ true }
        ensures { result ≡ clamped (product self other) }
    {
        Interval {
            low: times(self.low, other.high).min(times(self.high, other.low)),
            high: times(self.low, other.low).max(times(self.high, other.high)),
        }
    }

    // The product, clamped, by the signs of the operands.
    fn corners(self, other: Interval) -> Interval
        requires self_ordered { OrderedEnds self }
        requires other_ordered { OrderedEnds other }
        ensures { result ≡ clamped (product self other) }
    {
        if self.both_across(other) {
            return self.four_corners(other);
        }
        self.two_corners(other)
    }

    pub fn product(self, other: Interval) -> Result<Interval, End>
        requires self_small { SmallEnds self }
        requires other_small { SmallEnds other }
        ensures { result ≡ bounded_of (product self other) }
    {
        self.ordered().corners(other.ordered()).limited()
    }

    pub fn square(self) -> Result<Interval, End>
        requires { SmallEnds self }
        ensures { result ≡ bounded_of (square self) }
    {
        let a = self.low;
        let b = self.high;
        let aa = times(a, a);
        let bb = times(b, b);
        if 0 <= a {
            return Interval { low: aa, high: bb }.limited();
        }
        if b <= 0 {
            return Interval { low: bb, high: aa }.limited();
        }
        let high = aa.max(bb);
        Interval { low: 0, high }.limited()
    }
}
