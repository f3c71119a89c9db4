// A tree as a text in one form: a line for each statement, words with one space between them, headings and their lines as examples have them. A formula
// is printed as it stands in the text that was read; comments outside of formulas are not in the tree.
use rule_file::token::Token;
use rule_file::tree::{
    Change, Effects, File, Module, Motion, Named, Pattern, Source, Statement, Term,
};
use std::alloc::{AllocError, Global};
use thiserror::Error;

/// Why a tree cannot be printed.
#[derive(Clone, Copy, Debug, PartialEq, Eq, Error)]
pub enum Unprintable {
    #[error("the tree was not read from this text")]
    OtherText,
    #[error("out of memory")]
    OutOfMemory,
}

impl From<AllocError> for Unprintable {
    fn from(_error: AllocError) -> Unprintable {
        Unprintable::OutOfMemory
    }
}

// A token as it stands in the text.
fn put(out: &mut String, text: &str, token: Token) -> Result<(), Unprintable> {
    let Some(word) = text.get(token.span.start..token.span.end) else {
        return Err(Unprintable::OtherText);
    };
    out.push_str(word)?;
    Ok(())
}

fn put_term(out: &mut String, text: &str, term: Term) -> Result<(), Unprintable> {
    if let Term::Clear(sign, _) = term {
        put(out, text, sign)?;
    }
    put(out, text, term.name())
}

fn put_part(out: &mut String, text: &str, part: &[Term]) -> Result<(), Unprintable> {
    for (i, term) in part.iter().enumerate() {
        if i > 0 {
            out.push_str(" ")?;
        }
        put_term(out, text, *term)?;
    }
    Ok(())
}

fn put_pattern(out: &mut String, text: &str, pattern: &Pattern) -> Result<(), Unprintable> {
    put_part(out, text, &pattern.left)?;
    out.push_str(" | ")?;
    put_part(out, text, &pattern.own)?;
    out.push_str(" | ")?;
    put_part(out, text, &pattern.right)
}

fn put_source(out: &mut String, text: &str, source: Source) -> Result<(), Unprintable> {
    match source {
        Source::Own(_) => {}
        Source::Left(_, _, _) => out.push_str("left.")?,
        Source::Right(_, _, _) => out.push_str("right.")?,
    }
    put(out, text, source.name())
}

fn put_change(out: &mut String, text: &str, change: Change) -> Result<(), Unprintable> {
    match change {
        Change::Set(name) => put(out, text, name),
        Change::Clear(sign, name) => {
            put(out, text, sign)?;
            put(out, text, name)
        }
        Change::AsWas(name, equal, source) => {
            put(out, text, name)?;
            put(out, text, equal)?;
            put_source(out, text, source)
        }
    }
}

fn put_effects(out: &mut String, text: &str, effects: &Effects) -> Result<(), Unprintable> {
    for change in &effects.before {
        put_change(out, text, *change)?;
        out.push_str(" ")?;
    }
    match effects.motion {
        Motion::Moves(word) | Motion::Waits(word) => put(out, text, word)?,
    }
    for change in &effects.after {
        out.push_str(" ")?;
        put_change(out, text, *change)?;
    }
    Ok(())
}

fn put_module(out: &mut String, text: &str, module: &Module) -> Result<(), Unprintable> {
    match module {
        Module::Bare(point) => put(out, text, *point),
        Module::Bits(name, more) => {
            put(out, text, *name)?;
            for joined in more {
                put(out, text, joined.plus)?;
                put(out, text, joined.name)?;
            }
            Ok(())
        }
    }
}

fn put_row(out: &mut String, text: &str, modules: &[Module]) -> Result<(), Unprintable> {
    out.push_str("row:")?;
    for module in modules {
        out.push_str(" ")?;
        put_module(out, text, module)?;
    }
    Ok(())
}

fn put_named(out: &mut String, text: &str, named: &Named) -> Result<(), Unprintable> {
    put(out, text, named.word)?;
    out.push_str(" ")?;
    put(out, text, named.name)?;
    out.push_str(": ")?;
    Ok(())
}

fn put_statement(out: &mut String, text: &str, statement: &Statement) -> Result<(), Unprintable> {
    match statement {
        Statement::Allowed(_) => out.push_str("\nallowed:")?,
        Statement::Table(_) => out.push_str("\ntable:")?,
        Statement::Helpers(_) => out.push_str("\nhelpers:")?,
        Statement::Limit(_, formula) => {
            out.push_str("allowed: ")?;
            put(out, text, *formula)?;
        }
        Statement::Pattern(pattern) => {
            out.push_str("  ")?;
            put_pattern(out, text, pattern)?;
        }
        Statement::Line(when, _, effects) => {
            out.push_str("  ")?;
            put_pattern(out, text, when)?;
            out.push_str(" -> ")?;
            put_effects(out, text, effects)?;
        }
        Statement::Start(_, formula) => {
            out.push_str("start: ")?;
            put(out, text, *formula)?;
        }
        Statement::Never(named, pattern) => {
            put_named(out, text, named)?;
            put_pattern(out, text, pattern)?;
        }
        Statement::Claim(named, formula) | Statement::Kept(named, formula) => {
            put_named(out, text, named)?;
            put(out, text, *formula)?;
        }
        Statement::Helper(label, formula) => {
            out.push_str("  ")?;
            put(out, text, label.name)?;
            out.push_str(": ")?;
            put(out, text, *formula)?;
        }
        Statement::Row(_, modules) => put_row(out, text, modules)?,
    }
    out.push_str("\n")?;
    Ok(())
}

/// The file in its one form. `text` is what it was read from. Fails for memory, or where the tree is not of that text.
pub fn print(alloc: Global, text: &str, file: &File) -> Result<String, Unprintable> {
    let mut out = String::new(alloc);
    out.push_str("bits:")?;
    for name in &file.bits {
        out.push_str(" ")?;
        put(&mut out, text, *name)?;
    }
    out.push_str("\n")?;
    if file.ring.is_some() {
        out.push_str("ring:\n")?;
    }
    for line in &file.lines {
        put_statement(&mut out, text, &line.statement)?;
    }
    Ok(out)
}
