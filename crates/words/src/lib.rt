// The tables of a page as words: sums and losses, as far as a word goes.
#![tactic(auto)]

ghost use Rattle.std.specs.Prelude.{◌≡◌, [], ◌∷◌};
ghost use Rattle.score.specs.Losses.{report_if};
ghost use Rattle.words.specs.Words.{word_plus};
ghost use Rattle.words.specs.Reports.{reports};

use model::{Loss, answers};

pub mod voice; // a voice as words that are lent

// A sum, as far as a word goes.
#[tactic(auto, unfolding(crate::specs::Words::word_plus))]
pub fn plus(a: u32, b: u32) -> u32
    ensures { result ≡ word_plus a b }
{
    a.saturating_add(b)
}

pub fn report(mut losses: [u32; 17], loss: Loss) -> [u32; 17]
    ensures { result ≡ reports (loss ∷ []) losses }
{
    answers::add_loss(&mut losses, loss);
    losses
}

// By a flag, as the definition `report_if`: a closure would be called under the same test.
#[tactic(auto, using(crate::proofs::Reports::reports_none))]
pub fn report_if(losses: [u32; 17], lost: bool, loss: Loss) -> [u32; 17]
    ensures { result ≡ reports (report_if lost loss) losses }
{
    if lost { report(losses, loss) } else { losses }
}
