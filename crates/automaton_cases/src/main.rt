// Smallest automata of claims whose automata can be said by hand, as lines and for Graphviz, and what is refused.
#![tactic(auto)]

use minimal::automaton_of::automaton_of;
use state_diagram::diagram::{StateDiagram, state_diagram};
use state_diagram::dot::Dot;
use state_diagram::plain::Plain;

// A claim, at most so many classes, the names of its sets.
#[derive(Clone, Copy)]
struct Case<'a> {
    title: &'a str,
    claim: &'a [u8],
    most: u32,
    names: &'a [&'a str],
}

// Whether a case is printed for Graphviz as well.
#[derive(Clone, Copy)]
enum Form {
    Lines,
    Both,
}

fn tell_diagram(rt: &HostRuntime, diagram: &StateDiagram, form: Form) -> anyhow::Result<()> {
    let plain = Plain(diagram);
    print!(rt; "{plain}")?;
    if let Form::Both = form {
        let dot = Dot(diagram);
        print!(rt; "{dot}")?;
    }
    Ok(())
}

fn tell(rt: &HostRuntime, case: Case, form: Form) -> anyhow::Result<()> {
    let title = case.title;
    println!(rt; "{title}")?;
    match automaton_of(rt.alloc(), case.claim, case.most) {
        Ok(automaton) => match state_diagram(rt.alloc(), &automaton, case.names) {
            Ok(diagram) => tell_diagram(rt, &diagram, form)?,
            Err(undrawn) => println!(rt; "{undrawn}")?,
        },
        Err(refusal) => println!(rt; "{refusal}")?,
    }
    println!(rt; "")?;
    Ok(())
}

// Claims about no set: there is a set with one place, and there is none.
fn no_sets(rt: &HostRuntime) -> anyhow::Result<()> {
    let always = Case {
        title: "always",
        claim: &[1, 6, 0, 1, 0],
        most: 8,
        names: &[],
    };
    let never = Case {
        title: "never",
        claim: &[1, 4, 6, 0, 1, 0],
        most: 8,
        names: &[],
    };
    tell(rt, always, Form::Both)?;
    tell(rt, never, Form::Both)
}

// About one set: it has one place; it has not; it is the set of one place, and some further place is behind it, which is always so.
fn one_set(rt: &HostRuntime) -> anyhow::Result<()> {
    let single = Case {
        title: "one place",
        claim: &[1, 1, 0],
        most: 8,
        names: &["place"],
    };
    let other = Case {
        title: "not one place",
        claim: &[1, 4, 1, 0],
        most: 8,
        names: &["set"],
    };
    let behind = Case {
        title: "a place, and another behind it",
        claim: &[2, 6, 1, 3, 0, 1],
        most: 8,
        names: &["place"],
    };
    tell(rt, single, Form::Both)?;
    tell(rt, other, Form::Lines)?;
    tell(rt, behind, Form::Lines)
}

// About two sets: within, next, before.
fn two_sets(rt: &HostRuntime) -> anyhow::Result<()> {
    let within = Case {
        title: "part within whole",
        claim: &[2, 0, 0, 1],
        most: 8,
        names: &["part", "whole"],
    };
    let next = Case {
        title: "right is next to left",
        claim: &[2, 2, 0, 1],
        most: 8,
        names: &["left", "right"],
    };
    let before = Case {
        title: "left is before right",
        claim: &[2, 3, 0, 1],
        most: 8,
        names: &["left", "right"],
    };
    tell(rt, within, Form::Both)?;
    tell(rt, next, Form::Both)?;
    tell(rt, before, Form::Both)
}

// About three sets and about twelve; about a set with an odd name; about one set, with a name to spare.
fn more_names(rt: &HostRuntime) -> anyhow::Result<()> {
    let chain = Case {
        title: "a within b within c",
        claim: &[3, 5, 0, 0, 1, 0, 1, 2],
        most: 8,
        names: &["a", "b", "c"],
    };
    let twelve = Case {
        title: "the last of twelve sets has one place",
        claim: &[12, 1, 11],
        most: 4294967295,
        names: &["a", "b", "c", "d", "e", "f", "g", "h", "i", "j", "k", "l"],
    };
    let quoted = Case {
        title: "a name that has to be quoted",
        claim: &[1, 0, 0, 0],
        most: 8,
        names: &["a\"\\b"],
    };
    let spare = Case {
        title: "a name of which nothing is said",
        claim: &[1, 1, 0],
        most: 8,
        names: &["place", "spare"],
    };
    tell(rt, chain, Form::Both)?;
    tell(rt, twelve, Form::Lines)?;
    tell(rt, quoted, Form::Both)?;
    tell(rt, spare, Form::Lines)
}

// No claim; more classes than allowed; more than there is memory for; a set without a name.
fn refused(rt: &HostRuntime) -> anyhow::Result<()> {
    let empty = Case {
        title: "no bytes",
        claim: &[],
        most: 8,
        names: &[],
    };
    let no_sign = Case {
        title: "no sign",
        claim: &[1, 7],
        most: 8,
        names: &["set"],
    };
    let many = Case {
        title: "one place, and two classes",
        claim: &[1, 1, 0],
        most: 2,
        names: &["place"],
    };
    let none = Case {
        title: "no classes",
        claim: &[1, 1, 0],
        most: 0,
        names: &["place"],
    };
    let memory = Case {
        title: "six pairs of places among twelve sets",
        claim: &[
            12, 5, 2, 0, 1, 5, 2, 2, 3, 5, 2, 4, 5, 5, 2, 6, 7, 5, 2, 8, 9, 2, 10, 11,
        ],
        most: 4294967295,
        names: &["a", "b", "c", "d", "e", "f", "g", "h", "i", "j", "k", "l"],
    };
    let unnamed = Case {
        title: "one name for two sets",
        claim: &[2, 2, 0, 1],
        most: 8,
        names: &["left"],
    };
    tell(rt, empty, Form::Lines)?;
    tell(rt, no_sign, Form::Lines)?;
    tell(rt, many, Form::Lines)?;
    tell(rt, none, Form::Lines)?;
    tell(rt, memory, Form::Lines)?;
    tell(rt, unnamed, Form::Lines)
}

fn run(rt: &HostRuntime) -> anyhow::Result<()> {
    no_sets(rt)?;
    one_set(rt)?;
    two_sets(rt)?;
    more_names(rt)?;
    refused(rt)
}

fn main(rt: HostRuntime) -> anyhow::Result<()> {
    run(&rt)
}
