// The smallest automaton of a text's claim, for people and for Graphviz.
ghost use Rattle.std.specs.Prelude.{IfOk};
ghost use Rattle.claim_report.specs.Drawn.{IsAutomaton, IsDrawn};

use crate::declared::set_names;
use crate::stop::Stop;
use minimal::automaton::Automaton;
use minimal::automaton_of::automaton_of;
use minimal::refusal::Refusal;
use solve::answer::allowed;
use solve::question::question_of;
use state_diagram::diagram::{Undrawn, state_diagram};
use state_diagram::dot::Dot;
use state_diagram::plain::Plain;
use std::alloc::Global;
use trees::tree::Item;

/// How an automaton is shown: its states and transitions line by line, or as Graphviz reads it.
#[derive(Clone, Copy, Debug, PartialEq, Eq)]
pub enum Drawing {
    Plain,
    Dot,
}

/// An automaton, or how many classes do not suffice for its claim.
#[derive(Debug, Drop)]
pub enum Smallest {
    Automaton(Automaton),
    TooLarge(u32),
}

/// The smallest automaton of a text's claim under its assumptions, whose set x is that of the x-th declared name; the row or the ring, where one is spoken of, is the set behind these. It is worked out with at most so many classes told apart, or as many as there is memory for. Fails where the text says nothing, where its claim takes too many bytes or sets, where more classes are wanted than there is memory for, and for memory.
pub fn smallest_automaton(
    alloc: Global,
    items: &[Item],
    most: Option<u32>,
) -> Result<Smallest, Stop>
    ensures { IfOk result (λ s. IsAutomaton items.now s) }
{
    let question = question_of(alloc, items)?;
    let n = allowed(&question, most)?;
    match automaton_of(alloc, &question.holds, n) {
        Ok(automaton) => Ok(Smallest::Automaton(automaton)),
        Err(Refusal::TooLarge(n)) => Ok(Smallest::TooLarge(n)),
        Err(Refusal::OutOfMemory) => Err(Stop::Memory),
        Err(Refusal::NoClaim) => unreachable!(),
    }
}

/// The automaton in words.
///
/// # Errors
/// That a set on which it depends has no name, and memory.
pub fn drawn(
    alloc: Global,
    items: &[Item],
    automaton: &Automaton,
    drawing: Drawing,
) -> Result<String, Stop>
    ensures { IfOk result (λ _. IsDrawn items.now automaton.now) }
{
    let names = set_names(alloc, items)?;
    let diagram = match state_diagram(alloc, automaton, &names) {
        Ok(diagram) => diagram,
        Err(Undrawn::OutOfMemory) => return Err(Stop::Memory),
        Err(Undrawn::Unnamed) => return Err(Stop::Unnamed),
    };
    match drawing {
        Drawing::Plain => {
            let plain = Plain(&diagram);
            Ok(format!(in alloc; "{plain}")?)
        }
        Drawing::Dot => {
            let dot = Dot(&diagram);
            Ok(format!(in alloc; "{dot}")?)
        }
    }
}
