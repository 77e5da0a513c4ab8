//! Draws: each takes the next word of a generator.
ghost use Rattle.std.specs.Prelude.{◌≡◌, ◌<◌, ◌%◌, IfOk};
ghost use Rattle.tower_gen.specs.Words.{after, words_of};
ghost use Rattle.tower_gen.specs.Draws.{choice_at, behind, choices_from};

use rand_core::utils::NextWord;
use rand_pcg::Lcg64Xsh32;
use std::alloc::Global;
use tower_syntax::Choice;
use tower_types::NoMemory;

/// How many choices are drawn.
const CHOICES: usize = 400;

/// The next word modulo `m`.
pub fn draw(generator: &mut Lcg64Xsh32, m: u32) -> u32
    requires { 0 < m }
    ensures value { result ≡ words_of generator.old 0 % m }
    ensures less { result < m }
    ensures moved { generator.new ≡ after 1 generator.old }
{
    generator.next_word() % m
}

/// The next choice: an entry of the record comes, or a task goes up to its next visible instruction.
fn choice(generator: &mut Lcg64Xsh32) -> Choice
    ensures value { result ≡ choice_at (words_of generator.old) 0 }
    ensures moved { generator.new ≡ after (behind (words_of generator.old) 0) generator.old }
{
    if draw(generator, 4) == 0 {
        return Choice::Ev(1);
    }
    let task = draw(generator, 16);
    Choice::See(task, 1)
}

/// The choices of a run.
pub fn choices(alloc: Global, generator: &mut Lcg64Xsh32) -> Result<Vec<Choice>, NoMemory>
    ensures { IfOk result (λ cs. cs.items ≡ choices_from (words_of generator.old) 400 0) }
{
    let mut choices = Vec::with_capacity(alloc, CHOICES)?;
    for _ in 0..CHOICES {
        let next = choice(generator);
        choices.push(next)?;
    }
    Ok(choices)
}
