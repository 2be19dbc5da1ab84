//! Static numbers (ISO/IEC 8652:2012, 4.9), which have no limit of their own.
ghost use Rattle.std.specs.Prelude.{◌≡◌, ◌+◌, ◌*◌, ◌+ℤ◌, ◌-◌, ◌<◌, ◌^◌};
ghost use Rattle.std.specs.Prelude.{int_le, nat_le, nat_lt, neg_ℤ, pos};
ghost use Rattle.std.specs.Option.{SomeIff};
ghost use Rattle.ada_legality.specs.Numbers.{is_below_zero, size_in};

use std::marker::Model;

/// A number of 192 bits. Contracts see that number.
#[derive(Clone, Copy)]
struct Size {
    high: u128,
    low: u64,
}

impl Model for Size {
    ghost use Rattle.std.specs.Prelude.{ℕ, ◌+◌, ◌*◌, ◌/◌, ◌%◌, ◌<◌, ◌^◌};
    ghost use Rattle.std.proofs.Common.{ap, ◌∙◌};
    ghost use Rattle.std.proofs.lemmas.Nat.{div-mul-add, mod-mul-add};

    ghost Value = { ℕ };

    ghost view = { λ n. n.high * 2 ^ 64 + n.low };

    ghost invariant = { λ n. n.low < 2 ^ 64 };

    ghost inverse = { λ n. record {
      high = n / 2 ^ 64;
      low = n % 2 ^ 64;
    } };

    ghost inverse_ok = { λ n i.
        ap (λ h. record { high = h; low = (n.high * 2 ^ 64 + n.low) % 2 ^ 64 })
        (div-mul-add n.high (2 ^ 64) n.low i)
        ∙ ap (λ l. record { high = n.high; low = l }) (mod-mul-add n.high (2 ^ 64) n.low i) };
}

/// The number of 128 bits.
fn size_of(number: u128) -> Size
    ensures { result ≡ number }
{
    Size {
        high: number / (1 << 64),
        low: (number % (1 << 64)) as u64,
    }
}

/// A number of seconds in microseconds, with more of these.
fn micros(seconds: u128, more: u64) -> Size
    ensures { result ≡ seconds * 1000000 + more }
{
    let low = seconds % (1 << 64) * 1_000_000 + u128::from(more);
    Size {
        high: seconds / (1 << 64) * 1_000_000 + low / (1 << 64),
        low: (low % (1 << 64)) as u64,
    }
}

/// Whether a number with some more is at most another one.
fn reaches(from: Size, more: u16, to: Size) -> bool
    ensures { result ≡ nat_le (from + more) to }
{
    if from.high == to.high {
        u128::from(from.low) + u128::from(more) <= u128::from(to.low)
    } else if from.high < to.high {
        let apart = to.high - from.high;
        1 < apart || u128::from(from.low) + u128::from(more) <= u128::from(to.low) + (1 << 64)
    } else {
        false
    }
}

/// Whether two numbers together are at least so many.
fn together(a: Size, b: Size, least: u16) -> bool
    ensures { result ≡ nat_le least (a + b) }
{
    let low = u128::from(a.low) + u128::from(b.low);
    0 < a.high || 0 < b.high || u128::from(least) <= low
}

/// The number before another one; of 0, 0.
fn before(number: Size) -> Size
    ensures { result ≡ number - 1 }
{
    if 0 < number.low {
        Size {
            high: number.high,
            low: number.low - 1,
        }
    } else if 0 < number.high {
        Size {
            high: number.high - 1,
            low: u64::MAX,
        }
    } else {
        number
    }
}

/// Whether it is 0.
fn is_zero(number: Size) -> bool
    ensures { result ≡ nat_le number 0 }
{
    number.high == 0 && number.low == 0
}

/// The number, where it is less than so many.
fn below(number: Size, length: usize) -> Option<usize>
    ensures { SomeIff result (number < length) number }
{
    if number.high == 0 && number.low < length as u64 {
        Some(number.low as usize)
    } else {
        None
    }
}

/// A whole number with a sign. Contracts see that number.
#[derive(Clone, Copy)]
pub struct Number {
    is_negative: bool,
    size: Size,
}

impl Model for Number {
    ghost use Rattle.std.specs.Prelude.{ℤ, Bool, true, false};
    ghost use Rattle.ada_legality.specs.Numbers.{is_below_zero, signed, size_in};

    ghost Value = { ℤ };

    ghost view = { λ n. signed n.is_negative n.size };

    ghost inverse = { λ n. record {
      is_negative = is_below_zero n;
      size = size_in n;
    } };
}

/// This one.
fn plus(size: Size) -> Number
    ensures { result ≡ pos size }
{
    Number {
        is_negative: false,
        size,
    }
}

/// Minus this one.
fn minus(size: Size) -> Number
    ensures { result ≡ neg_ℤ (pos size) }
{
    Number {
        is_negative: !is_zero(size),
        size: before(size),
    }
}

impl Number {
    /// A number of 64 bits.
    pub fn of(number: i64) -> Number
        ensures { result ≡ number }
    {
        if number < 0 {
            minus(size_of(u128::from(number.unsigned_abs())))
        } else {
            plus(size_of(number as u128))
        }
    }

    /// How many there are.
    pub fn of_count(count: usize) -> Number
        ensures { result ≡ pos count }
    {
        plus(size_of(count as u128))
    }

    /// A number of 128 bits.
    pub fn of_whole(number: u128) -> Number
        ensures { result ≡ pos number }
    {
        plus(size_of(number))
    }

    /// Minus a number of 128 bits.
    pub fn minus_whole(number: u128) -> Number
        ensures { result ≡ neg_ℤ (pos number) }
    {
        minus(size_of(number))
    }

    /// A number of seconds in microseconds, with more of these.
    pub fn of_seconds(seconds: u128, more: u64) -> Number
        ensures { result ≡ pos (seconds * 1000000 + more) }
    {
        plus(micros(seconds, more))
    }

    /// Minus a number of seconds in microseconds, with more of these.
    pub fn minus_seconds(seconds: u128, more: u64) -> Number
        ensures { result ≡ neg_ℤ (pos (seconds * 1000000 + more)) }
    {
        minus(micros(seconds, more))
    }

    /// Whether it is below 0.
    pub fn is_negative(self) -> bool
        ensures { result ≡ is_below_zero self }
    {
        self.is_negative
    }

    /// How far it is from 0, of a number below 0 from -1, where that is less than so many.
    pub fn place_below(self, length: usize) -> Option<usize>
        ensures { SomeIff result (size_in self < length) (size_in self) }
    {
        below(self.size, length)
    }

    /// Whether it is at most another one.
    pub fn is_at_most(self, other: Number) -> bool
        ensures { result ≡ int_le self other }
    {
        self.is_before(0, other)
    }

    /// Whether it with some more is at most another one.
    pub fn is_before(self, more: u16, other: Number) -> bool
        ensures { result ≡ int_le (self +ℤ pos more) other }
    {
        if self.is_negative {
            if other.is_negative {
                reaches(other.size, more, self.size)
            } else {
                more == 0 || together(self.size, other.size, more - 1)
            }
        } else {
            !other.is_negative && reaches(self.size, more, other.size)
        }
    }
}
