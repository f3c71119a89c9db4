// A diagram for Graphviz.
use crate::diagram::{State, StateDiagram};
use crate::letters::Letters;
use std::fmt;
use transitions::pattern::Transition;

/// The diagram as a graph in Graphviz's language DOT: a state that accepts is a double circle, an arrow without a label leads to the start, and transitions between the same two states are one arrow, whose label has a line for each pattern.
#[derive(Clone, Copy)]
pub struct Dot<'d, 'n, 't>(pub &'d StateDiagram<'n, 't>);

// A text within a quoted string.
#[derive(Clone, Copy)]
struct Quoted<'a>(&'a str);

impl fmt::Display for Quoted<'_> {
    fn fmt<W: fmt::Write>(&self, f: &mut fmt::Formatter<W>) -> fmt::Result {
        for c in self.0.chars() {
            let escape = if c == '"' || c == '\\' { "\\" } else { "" };
            write!(f, "{escape}{c}")?;
        }
        Ok(())
    }
}

// The patterns of the transitions that lead to a state, on lines of one label.
#[derive(Clone, Copy)]
struct Label<'d> {
    transitions: &'d [Transition],
    to: u32,
    names: usize,
}

impl fmt::Display for Label<'_> {
    fn fmt<W: fmt::Write>(&self, f: &mut fmt::Formatter<W>) -> fmt::Result {
        let mut first = true;
        for transition in self.transitions {
            if transition.to == self.to {
                let end = if first { "" } else { "\\n" };
                first = false;
                let letters = Letters {
                    pattern: &transition.pattern,
                    names: self.names,
                };
                write!(f, "{end}{letters}")?;
            }
        }
        Ok(())
    }
}

// Whether one of the transitions leads to the state.
fn leads_to(transitions: &[Transition], to: u32) -> bool {
    transitions.iter().any(|t| t.to == to)
}

// The arrows of a state: one to each state to which a transition leads, in the order in which they come.
#[derive(Clone, Copy)]
struct Arrows<'d> {
    q: usize,
    state: &'d State,
    names: usize,
}

impl fmt::Display for Arrows<'_> {
    fn fmt<W: fmt::Write>(&self, f: &mut fmt::Formatter<W>) -> fmt::Result {
        let q = self.q;
        let transitions = self.state.transitions.as_slice();
        for (i, transition) in transitions.iter().enumerate() {
            let to = transition.to;
            if !leads_to(&transitions[..i], to) {
                write!(f, "    {q} -> {to}")?;
                if self.names > 0 {
                    let label = Label {
                        transitions,
                        to,
                        names: self.names,
                    };
                    write!(f, " [label = \"{label}\"]")?;
                }
                write!(f, ";\n")?;
            }
        }
        Ok(())
    }
}

// The names of the sets.
#[derive(Clone, Copy)]
struct Names<'n, 't>(&'n [&'t str]);

impl fmt::Display for Names<'_, '_> {
    fn fmt<W: fmt::Write>(&self, f: &mut fmt::Formatter<W>) -> fmt::Result {
        for name in self.0 {
            let quoted = Quoted(name);
            write!(f, " {quoted}")?;
        }
        Ok(())
    }
}

// The line that tells the names, if there are any.
#[derive(Clone, Copy)]
struct Title<'n, 't>(&'n [&'t str]);

impl fmt::Display for Title<'_, '_> {
    fn fmt<W: fmt::Write>(&self, f: &mut fmt::Formatter<W>) -> fmt::Result {
        if self.0.is_empty() {
            return Ok(());
        }
        let names = Names(self.0);
        write!(f, "    label = \"sets:{names}\";\n")
    }
}

// The states, a line for each.
#[derive(Clone, Copy)]
struct Circles<'d>(&'d [State]);

impl fmt::Display for Circles<'_> {
    fn fmt<W: fmt::Write>(&self, f: &mut fmt::Formatter<W>) -> fmt::Result {
        for (q, state) in self.0.iter().enumerate() {
            let shape = if state.accepts {
                "doublecircle"
            } else {
                "circle"
            };
            write!(f, "    {q} [shape = {shape}];\n")?;
        }
        Ok(())
    }
}

impl fmt::Display for Dot<'_, '_, '_> {
    fn fmt<W: fmt::Write>(&self, f: &mut fmt::Formatter<W>) -> fmt::Result {
        let diagram = self.0;
        let title = Title(diagram.names);
        let circles = Circles(&diagram.states);
        write!(f, "digraph automaton {{\n    rankdir = LR;\n{title}")?;
        write!(f, "    start [shape = point];\n{circles}    start -> 0;\n")?;
        for (q, state) in diagram.states.iter().enumerate() {
            let arrows = Arrows {
                q,
                state,
                names: diagram.names.len(),
            };
            write!(f, "{arrows}")?;
        }
        write!(f, "}}\n")
    }
}
