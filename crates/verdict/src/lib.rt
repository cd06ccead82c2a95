// How a reading ends, whatever was read: no more bytes than the limit are looked at, and a stop becomes an outcome.
#![tactic(auto)]

ghost use Rattle.std.specs.Prelude.{◌≡◌};
ghost use Rattle.format.specs.Verdict.{up_to};
ghost use Rattle.words.specs.Left.{stop_answer};

use format::Stop;
use model::Outcome;

// The first n bytes, or all.
#[tactic(auto, using(format::proofs::Verdict::upto_all), unfolding(format::specs::Verdict::up_to))]
pub fn up_to(data: &[u8], n: usize) -> &[u8]
    ensures { result.now ≡ up_to n «data».now }
{
    &data[..n.min(data.len())]
}

// Why reading stopped, as an outcome: where the bytes end, the file ends or the limit was met. `longer` is that fact, and no
// choice of a step.
pub fn refusal_of(stop: Stop, longer: bool) -> Outcome
    ensures { result ≡ stop_answer longer stop }
{
    match stop {
        Stop::Ends if longer => Outcome::TooLong,
        Stop::Ends | Stop::Text => Outcome::Truncated,
        Stop::Version => Outcome::Version,
        Stop::Count(which, value, offset) => {
            Outcome::Count(which, bin::signed::to_i32(value), offset as usize)
        }
        Stop::Empty => Outcome::Empty,
    }
}
