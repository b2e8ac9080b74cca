//! How many turns are drawn, and which.
ghost use Rattle.std.specs.Prelude.{◌≡◌, ℕ, ◌+◌, ◌≤◌};
ghost use Rattle.ipa_schedule.specs.Schedules.{draw, drawn_of};
ghost use Rattle.ipa_schedule.specs.Draws.{IsDrawing};

use rand_core::utils::NextWord;
use rand_pcg::Lcg64Xsh32;

// How many turns are drawn of a round of this length, where this is the greatest number of requests.
pub(crate) fn drawn(number: u64, round: u32, longest: usize) -> u32
    ensures count { result ≡ drawn_of number round longest }
    ensures few { result ≤ 65536 }
{
    if number == 0 {
        return 0;
    }
    let turns = 2 * u128::from(round) * (longest as u128 + 1);
    if turns < 65536 { turns as u32 } else { 65536 }
}

// The generator of the turns of a number.
pub(crate) fn draws(number: u64) -> Lcg64Xsh32
    ensures { IsDrawing number 0 result }
{
    Lcg64Xsh32::new(number, 64)
}

// The next number that is drawn.
pub(crate) fn next_draw(words: &mut Lcg64Xsh32) -> u32
    ensures drawn { (number k : ℕ) → IsDrawing number k words.old → result ≡ draw number k }
    ensures moved { (number k : ℕ) → IsDrawing number k words.old → IsDrawing number (k + 1) words.new }
{
    words.next_word()
}
