// The answer to a text of six numbers.
ghost use Rattle.std.specs.Result.{MatchResult};
ghost use Rattle.overlap.specs.Pairs.{Answered, Refused};

use crate::answer::Answer;
use crate::fault::{Fault, Limits};
use crate::pair::Pair;

pub(crate) fn reply(text: &str) -> Result<Answer, Fault<'_>> {
    Ok(answer_figures(six_numbers(text)?)?)
}

// The answer to six figures: three of the first entry, then three of the second.
pub fn answer_figures(figures: [u64; 6]) -> Result<Answer, Limits>
    ensures { MatchResult result (Answered figures) (Refused figures) }
{
    let pair = Pair::of(figures)?;
    Ok(Answer::about(&pair.first, &pair.second))
}

// Words are judged before their number: a bad one among the first six is told. The text is cut into words once.
fn six_numbers(text: &str) -> Result<[u64; 6], Fault<'_>> {
    let mut numbers = [0; 6];
    let mut words = text.split_whitespace();
    for (place, number) in numbers.iter_mut().enumerate() {
        let word = words.next().ok_or(Fault::Count(place))?;
        *number = word
            .parse()
            .map_err(|_| Fault::Word(place.saturating_add(1), word))?;
    }
    match words.fold(6usize, |count, _| count.saturating_add(1)) {
        6 => Ok(numbers),
        count => Err(Fault::Count(count)),
    }
}
