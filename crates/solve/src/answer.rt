// The answer to a text that is read.
ghost use Rattle.std.specs.Prelude.{◌≡◌, IfOk};
ghost use Rattle.workspace.specs.Floor.{Room};
ghost use Rattle.solve.specs.Answers.{Answers, unmarked};

use crate::first::first_row;
use crate::question::{Question, question_of};
use crate::stop::Stop;
use first_word::first_word::Found;
use rows::modules::modules;
use std::alloc::Global;
use trees::tree::Item;
use workspace::largest::largest;

/// Of which places and sets a text's claim holds, of those that meet its assumptions. A word has a column for each place, in which bit x says whether the x-th declared name has the place. Where the text speaks of a row or a ring, the words are rows: each has as many places as its row, or as its ring, whose places stand from place 0 on.
#[derive(Debug, Drop)]
pub enum Answer {
    /// of all of them, and there are some
    Always,
    /// nothing meets the assumptions
    Unmet,
    /// of none of them, and there are some
    Never,
    /// the first word of which it holds, and the first of which it does not
    Both(Vec<u32>, Vec<u32>),
    /// it was not found out, since more classes than so many would have to be told apart
    TooLarge(u32),
}

/// How many classes may be told apart: as many as are wanted, or as many as both claims fit with. Fails where more are wanted than fit.
pub fn allowed(question: &Question, wanted: Option<u32>) -> Result<u32, Stop>
    ensures holds { IfOk result (λ n. Room question.now.holds.items n) }
    ensures fails { IfOk result (λ n. Room question.now.fails.items n) }
{
    let most = largest(&question.fails, largest(&question.holds, u32::MAX));
    let n = wanted.unwrap_or(most);
    if n <= most {
        Ok(n)
    } else {
        Err(Stop::Most(most))
    }
}

// A first word as it is shown: the columns of the declared places and sets alone, without the row's or the ring's.
fn shown(alloc: Global, question: &Question, word: Vec<u32>) -> Result<Vec<u32>, Stop>
    ensures { IfOk result (λ w. w.items ≡ unmarked question.now.others word.items) }
{
    match question.others {
        None => Ok(word),
        Some(others) => Ok(modules(alloc, others as u8, &word)?),
    }
}

/// The answer to a text, with at most so many classes told apart as are wanted, or as there is memory for. Fails where the text says nothing, where its claim takes too many bytes or sets, where more classes are wanted than there is memory for, and for memory.
pub fn answered(alloc: Global, items: &[Item], wanted: Option<u32>) -> Result<Answer, Stop>
    ensures { IfOk result (λ a. Answers items.now a) }
{
    let question = question_of(alloc, items)?;
    let n = allowed(&question, wanted)?;
    let holds = first_row(alloc, &question.holds, n)?;
    let fails = first_row(alloc, &question.fails, n)?;
    match (holds, fails) {
        (Found::First(first), Found::First(second)) => Ok(Answer::Both(
            shown(alloc, &question, first)?,
            shown(alloc, &question, second)?,
        )),
        (Found::First(_), Found::Nothing) => Ok(Answer::Always),
        (Found::Nothing, Found::Nothing) => Ok(Answer::Unmet),
        (Found::Nothing, Found::First(_)) => Ok(Answer::Never),
        (Found::TooLarge, _) => Ok(Answer::TooLarge(n)),
        (Found::First(_), Found::TooLarge) => Ok(Answer::TooLarge(n)),
        (Found::Nothing, Found::TooLarge) => Ok(Answer::TooLarge(n)),
    }
}
