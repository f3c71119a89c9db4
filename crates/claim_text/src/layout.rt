// An expression as lines. One that is short stands on a line; of a longer one the operands stand on lines of their own, the operator before the second,
// and what is said of bound names a step further in.
use printing::print::expression;
use printing::signs::{left_of, level, quantifier_word, right_of, sign_word};
use std::alloc::AllocError;
use trees::tree::{Binary, Expr, ExprKind, Name};

// How long a line may be.
const WIDTH: usize = 100;

// How far in what is said of bound names begins.
const STEP: usize = 4;

fn new_line(out: &mut String, indent: usize) -> Result<(), AllocError> {
    out.push('\n')?;
    for _ in 0..indent {
        out.push(' ')?;
    }
    Ok(())
}

// The names that are bound, behind the word that binds them.
fn put_names(out: &mut String, word: &str, names: &[Name]) -> Result<(), AllocError> {
    out.push_str(word)?;
    for (i, name) in names.iter().enumerate() {
        out.push_str(if i == 0 { " " } else { ", " })?;
        out.push_str(name.text.as_str())?;
    }
    out.push_str(":")
}

// An operand, in parentheses where it binds less tight than it has to.
#[cycle(layout)]
fn put_operand(out: &mut String, expr: &Expr, lowest: u8, indent: usize) -> Result<(), AllocError> {
    if level(expr) >= lowest {
        return put(out, expr, indent);
    }
    out.push('(')?;
    put(out, expr, indent.saturating_add(1))?;
    out.push(')')
}

// An operator at the beginning of a line.
fn put_sign(out: &mut String, binary: Binary, indent: usize) -> Result<(), AllocError> {
    new_line(out, indent)?;
    out.push_str(sign_word(binary).1)?;
    out.push(' ')
}

/// Puts an expression behind what is there, its further lines so many blanks in.
#[cycle(layout)]
pub fn put(out: &mut String, expr: &Expr, indent: usize) -> Result<(), AllocError> {
    let flat = expression(*out.allocator(), expr)?;
    if flat.len().saturating_add(indent) <= WIDTH {
        return out.push_str(flat.as_str());
    }
    match &expr.kind {
        ExprKind::Binary(binary, left, right) => {
            put_operand(out, left, left_of(*binary), indent)?;
            put_sign(out, *binary, indent)?;
            let inner = indent
                .saturating_add(sign_word(*binary).1.len())
                .saturating_add(1);
            put_operand(out, right, right_of(*binary), inner)
        }
        ExprKind::Bound(quantifier, sort, names, body) => {
            put_names(out, quantifier_word(*quantifier, *sort).1, names)?;
            let inner = indent.saturating_add(STEP);
            new_line(out, inner)?;
            put(out, body, inner)
        }
        _ => out.push_str(flat.as_str()),
    }
}
