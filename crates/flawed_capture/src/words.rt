//! The words of a seed.
ghost use Rattle.std.specs.Prelude.{◌≡◌};
ghost use Rattle.flawed_capture.specs.Draws.{generator, word, behind};

use rand_core::utils::NextWord;
use rand_pcg::Pcg32;

/// The generator of a seed's words.
#[tactic(auto, unfolding(crate::specs::Draws::generator))]
pub(crate) fn words_of(seed: u32) -> Pcg32
    ensures { result ≡ generator seed }
{
    Pcg32::new(u64::from(seed), 54)
}

/// The next word of a generator.
#[tactic(auto, unfolding(crate::specs::Draws::word, crate::specs::Draws::behind))]
pub(crate) fn next_word(words: &mut Pcg32) -> u32
    ensures word { result ≡ word words.old }
    ensures rest { words.new ≡ behind words.old }
{
    words.next_word()
}
