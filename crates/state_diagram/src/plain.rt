// A diagram as lines of text.
use crate::diagram::{State, StateDiagram};
use crate::letters::Letters;
use std::fmt;

/// The diagram in lines: the names of the sets in the order of a pattern's letters, how many states there are, the start, the states that accept, and then each state's transitions, a line for each pattern.
#[derive(Clone, Copy)]
pub struct Plain<'d, 'n, 't>(pub &'d StateDiagram<'n, 't>);

// The names of the sets.
#[derive(Clone, Copy)]
struct Names<'n, 't>(&'n [&'t str]);

impl fmt::Display for Names<'_, '_> {
    fn fmt<W: fmt::Write>(&self, f: &mut fmt::Formatter<W>) -> fmt::Result {
        for name in self.0 {
            write!(f, " {name}")?;
        }
        if self.0.is_empty() {
            write!(f, " none")
        } else {
            Ok(())
        }
    }
}

// The numbers of the states that accept.
#[derive(Clone, Copy)]
struct Accepting<'d, 'n, 't>(&'d StateDiagram<'n, 't>);

impl fmt::Display for Accepting<'_, '_, '_> {
    fn fmt<W: fmt::Write>(&self, f: &mut fmt::Formatter<W>) -> fmt::Result {
        let diagram = self.0;
        let mut some = false;
        for (q, state) in diagram.states.iter().enumerate() {
            if state.accepts {
                some = true;
                write!(f, " {q}")?;
            }
        }
        if some { Ok(()) } else { write!(f, " none") }
    }
}

// The transitions of a state, a line for each pattern.
#[derive(Clone, Copy)]
struct Lines<'d> {
    q: usize,
    state: &'d State,
    names: usize,
}

impl fmt::Display for Lines<'_> {
    fn fmt<W: fmt::Write>(&self, f: &mut fmt::Formatter<W>) -> fmt::Result {
        let q = self.q;
        for transition in &self.state.transitions {
            let to = transition.to;
            if self.names > 0 {
                let letters = Letters {
                    pattern: &transition.pattern,
                    names: self.names,
                };
                write!(f, "state {q} -> state {to}: {letters}\n")?;
            } else {
                write!(f, "state {q} -> state {to}\n")?;
            }
        }
        Ok(())
    }
}

impl fmt::Display for Plain<'_, '_, '_> {
    fn fmt<W: fmt::Write>(&self, f: &mut fmt::Formatter<W>) -> fmt::Result {
        let diagram = self.0;
        let names = Names(diagram.names);
        let count = diagram.states.len();
        let accepting = Accepting(diagram);
        write!(
            f,
            "sets:{names}\nstates: {count}\nstart: 0\naccepting:{accepting}\n"
        )?;
        for (q, state) in diagram.states.iter().enumerate() {
            let lines = Lines {
                q,
                state,
                names: diagram.names.len(),
            };
            write!(f, "{lines}")?;
        }
        Ok(())
    }
}
