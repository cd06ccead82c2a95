// The articulations of a row, in the order added and none twice.
ghost use Rattle.std.specs.Prelude.{◌≡◌, ◌-◌, ◌/◌, ◌%◌};
ghost use Rattle.model.specs.Kinds.{articulation_word};
ghost use Rattle.model.specs.Marks.{added_in, byte_counted, no_marks, has_digit, with_digit, add_mark, shifted, mark_at};

use crate::{Articulation, Articulations};

// Articulations while they are added. Two whole words: a struct with padding is copied in pieces (docs/PROVING.md, Speed).
#[derive(Clone, Copy)]
pub struct Marks {
    pub count: u64,
    pub digits: u64,
}

pub const NO_ARTICULATIONS: Articulations = Articulations {
    count: 0,
    digits: 0,
};

pub fn none_added() -> Marks
    ensures { added_in result ≡ no_marks }
{
    Marks {
        count: 0,
        digits: 0,
    }
}

// Whether a digit is among the last `count`.
fn has_digit(count: u64, digits: u64, digit: u64) -> bool
    ensures { result ≡ has_digit digit count digits }
{
    let mut n = count;
    let mut d = digits;
    while 0 < n {
        if d % 16 == digit {
            return true;
        }
        d /= 16;
        n -= 1;
    }
    false
}

fn digit_of(a: Articulation) -> u64
    ensures { result ≡ articulation_word a }
{
    u32::from(a) as u64
}

// One more digit; sixteen stay as they are.
fn with_digit(m: Marks, digit: u64) -> Marks
    ensures { added_in result ≡ with_digit digit (added_in m) }
{
    if 16 <= m.count {
        return m;
    }
    Marks {
        count: m.count + 1,
        digits: m.digits % 1152921504606846976 * 16 + digit % 16,
    }
}

// With one more, unless it is there.
pub fn added(m: Marks, a: Articulation) -> Marks
    ensures { added_in result ≡ add_mark a (added_in m) }
{
    let digit = digit_of(a);
    if has_digit(m.count, m.digits, digit) {
        return m;
    }
    with_digit(m, digit)
}

// As a row holds them: there are sixteen at most, so that a byte counts them.
#[tactic(auto, unfolding(crate::specs::Marks::added_in, crate::specs::Marks::byte_counted))]
pub fn listed(m: Marks) -> Articulations
    ensures { result ≡ byte_counted (added_in m) }
{
    Articulations {
        count: (m.count % 256) as u8,
        digits: m.digits,
    }
}

// A number without its last `n` digits.
fn without_last(digits: u64, n: u8) -> u64
    ensures { result ≡ shifted n digits }
{
    let mut d = digits;
    let mut left = n;
    while 0 < left {
        d /= 16;
        left -= 1;
    }
    d
}

// The articulation that was added as number `k`, from 0.
pub fn mark_at(m: Articulations, k: u8) -> Option<Articulation>
    ensures { result ≡ mark_at m k }
{
    if m.count <= k {
        return None;
    }
    let d = without_last(m.digits, m.count - 1 - k);
    Some(Articulation::from((d % 16) as u32))
}
