// Prints a tree as a text that is read as the same tree.
ghost use Rattle.std.specs.Prelude.{◌≡◌, ◌∷◌, ◌++◌, [], decimal, OnOk, IfOk, map, false, string_bytes};
ghost use Rattle.tokens.specs.Spaced.{spaced};
ghost use Rattle.syntax.specs.Plain.{names as all_names, written, list, open_, close, bar, tally, semicolon};
ghost use Rattle.syntax.specs.Views.{names_of, view, view_all};
ghost use Rattle.tokens.specs.declared.kind.Kind.TheVariants as kind;
ghost use Rattle.tokens.specs.Words.{word};
ghost use Rattle.syntax.specs.Items.{predicate as defined, view_parameters, view_item, view_items, sort_word, parameters as all_parameters, view_row, written_item, written_items};
ghost use Rattle.syntax.specs.Rows.{is_rows, rows_words, rings_words};
ghost use Rattle.syntax.specs.Printed.{enclosed, within_parens, text, texts, text_item};
ghost use Rattle.printing.specs.Writing.{Writes, is_all};

use crate::signs::{is_rows, left_of, level, quantifier_word, right_of, sign_word, sort_word};
use crate::writer::Writer;
use std::alloc::{AllocError, Global};
use syntax::operators::{CLOSED, EXTREME, NOT};
use tokens::kind::Kind;
use trees::tree::{
    Ends, Expr, ExprKind, Item, Name, Parameter, Predicate, Quantifier, Row, Sort, Unary,
};

/// How many parentheses: as few as there have to be, or around every part that has operands.
#[derive(Clone, Copy, Debug, PartialEq, Eq)]
pub enum Style {
    Few,
    All,
}

fn is_all(style: Style) -> bool
    ensures { result ≡ is_all style }
{
    match style {
        Style::Few => false,
        Style::All => true,
    }
}

// Names with commas between them.
fn put_names(writer: &mut Writer, names: &[Name]) -> Result<(), AllocError>
    ensures { OnOk result (Writes writer.old writer.new (λ rest. all_names (names_of names.now) rest)) }
{
    let [first, further @ ..] = names else {
        return Ok(());
    };
    writer.word(Kind::Name, first.text.as_str())?;
    for name in further {
        writer.word(Kind::Comma, ",")?;
        writer.word(Kind::Name, name.text.as_str())?;
    }
    Ok(())
}

// What is said of the number of a set's places, behind the set.
fn put_tally(writer: &mut Writer, modulus: u32, rest: u32) -> Result<(), AllocError>
    ensures { OnOk result (Writes writer.old writer.new (λ r. tally (decimal modulus) (decimal rest) r)) }
{
    writer.word(Kind::Or, "|")?;
    writer.word(Kind::Name, "mod")?;
    writer.number(modulus)?;
    writer.word(Kind::Equal, "=")?;
    writer.number(rest)
}

// An expression in parentheses.
#[cycle(printing)]
fn put_enclosed(writer: &mut Writer, style: Style, expr: &Expr) -> Result<(), AllocError>
    ensures { OnOk result (Writes writer.old writer.new (λ rest. open_ ∷ written (text (is_all style) (view expr.now.kind)) (close ∷ rest))) }
{
    writer.word(Kind::Open, "(")?;
    put(writer, style, expr)?;
    writer.word(Kind::Close, ")")
}

// An operand, in parentheses where it binds less tight than it has to.
#[cycle(printing)]
fn put_operand(writer: &mut Writer, style: Style, expr: &Expr, lowest: u8) -> Result<(), AllocError>
    ensures { OnOk result (Writes writer.old writer.new (λ rest. written (enclosed (within_parens (is_all style) lowest (view expr.now.kind)) (text (is_all style) (view expr.now.kind))) rest)) }
{
    if level(expr) < lowest || (is_all(style) && level(expr) < CLOSED) {
        put_enclosed(writer, style, expr)
    } else {
        put(writer, style, expr)
    }
}

// Expressions with commas between them.
#[cycle(printing)]
fn put_all(writer: &mut Writer, style: Style, all: &[Expr]) -> Result<(), AllocError>
    ensures { OnOk result (Writes writer.old writer.new (λ rest. list (texts (is_all style) (view_all all.now)) rest)) }
{
    let [first, further @ ..] = all else {
        return Ok(());
    };
    put(writer, style, first)?;
    for expr in further {
        writer.word(Kind::Comma, ",")?;
        put(writer, style, expr)?;
    }
    Ok(())
}

#[cycle(printing)]
fn put(writer: &mut Writer, style: Style, expr: &Expr) -> Result<(), AllocError>
    ensures { OnOk result (Writes writer.old writer.new (λ rest. written (text (is_all style) (view expr.now.kind)) rest)) }
{
    match &expr.kind {
        ExprKind::True => writer.word(Kind::True, "true"),
        ExprKind::False => writer.word(Kind::False, "false"),
        ExprKind::Empty => writer.word(Kind::Empty, "empty"),
        ExprKind::Number(n) => writer.number(*n),
        ExprKind::Named(name) => writer.word(Kind::Name, name.text.as_str()),
        ExprKind::Listed(all) => {
            writer.word(Kind::OpenSet, "{")?;
            put_all(writer, style, all)?;
            writer.word(Kind::CloseSet, "}")
        }
        ExprKind::Call(name, all) => {
            writer.word(Kind::Name, name.text.as_str())?;
            writer.word(Kind::Open, "(")?;
            put_all(writer, style, all)?;
            writer.word(Kind::Close, ")")
        }
        ExprKind::Unary(unary, inside) => match unary {
            Unary::Not => {
                writer.word(Kind::Not, "~")?;
                put_operand(writer, style, inside, NOT + 1)
            }
            Unary::Min => {
                writer.word(Kind::Min, "min")?;
                put_operand(writer, style, inside, EXTREME + 1)
            }
            Unary::Max => {
                writer.word(Kind::Max, "max")?;
                put_operand(writer, style, inside, EXTREME + 1)
            }
            Unary::IsEmpty => {
                writer.word(Kind::Empty, "empty")?;
                put_enclosed(writer, style, inside)
            }
        },
        ExprKind::Count(set, modulus, rest) => {
            writer.word(Kind::Or, "|")?;
            put_operand(writer, style, set, EXTREME + 1)?;
            put_tally(writer, modulus.kind, rest.kind)
        }
        ExprKind::Binary(binary, left, right) => {
            let (kind, sign) = sign_word(*binary);
            put_operand(writer, style, left, left_of(*binary))?;
            writer.word(kind, sign)?;
            put_operand(writer, style, right, right_of(*binary))
        }
        ExprKind::Bound(quantifier, sort, names, body) => {
            let (kind, word) = quantifier_word(*quantifier, *sort);
            writer.word(kind, word)?;
            put_names(writer, names)?;
            writer.word(Kind::Colon, ":")?;
            put_operand(writer, style, body, 0)
        }
    }
}

// A parameter, behind its sort.
fn put_parameter(writer: &mut Writer, parameter: &Parameter) -> Result<(), AllocError>
    ensures { OnOk result (Writes writer.old writer.new (λ rest. sort_word parameter.now.sort ∷ word kind.Name (string_bytes parameter.now.name.text) ∷ rest)) }
{
    let (kind, word) = sort_word(parameter.sort);
    writer.word(kind, word)?;
    writer.word(Kind::Name, parameter.name.text.as_str())
}

// Parameters with commas between them.
fn put_parameters(writer: &mut Writer, parameters: &[Parameter]) -> Result<(), AllocError>
    ensures { OnOk result (Writes writer.old writer.new (λ rest. all_parameters (view_parameters parameters.now) rest)) }
{
    let [first, further @ ..] = parameters else {
        return Ok(());
    };
    put_parameter(writer, first)?;
    for parameter in further {
        writer.word(Kind::Comma, ",")?;
        put_parameter(writer, parameter)?;
    }
    Ok(())
}

// Free names.
fn put_free(writer: &mut Writer, sort: Sort, names: &[Name]) -> Result<(), AllocError>
    ensures { OnOk result (Writes writer.old writer.new (λ rest. sort_word sort ∷ all_names (names_of names.now) (semicolon ∷ rest))) }
{
    let (kind, word) = sort_word(sort);
    writer.word(kind, word)?;
    put_names(writer, names)?;
    writer.word(Kind::Semicolon, ";")
}

// A formula, and the end of its item.
fn put_formula(writer: &mut Writer, style: Style, formula: &Expr) -> Result<(), AllocError>
    ensures { OnOk result (Writes writer.old writer.new (λ rest. written (text (is_all style) (view formula.now.kind)) (semicolon ∷ rest))) }
{
    put(writer, style, formula)?;
    writer.word(Kind::Semicolon, ";")
}

// What says that the text is about a row.
fn put_row(writer: &mut Writer) -> Result<(), AllocError>
    ensures { OnOk result (Writes writer.old writer.new (λ rest. rows_words ++ rest)) }
{
    writer.word(Kind::Name, "rows")?;
    writer.word(Kind::Semicolon, ";")
}

// What says that the text is about a ring.
fn put_ring(writer: &mut Writer) -> Result<(), AllocError>
    ensures { OnOk result (Writes writer.old writer.new (λ rest. rings_words ++ rest)) }
{
    writer.word(Kind::Name, "rings")?;
    writer.word(Kind::Semicolon, ";")
}

// What says how places that follow one another end.
fn put_ends(writer: &mut Writer, row: &Row) -> Result<(), AllocError>
    ensures { OnOk result (Writes writer.old writer.new (λ rest. written_item (view_row row.now) rest)) }
{
    match &row.ends {
        Ends::Last(_) => put_row(writer),
        Ends::Round => put_ring(writer),
    }
}

// What is claimed: a formula that is the name `rows` or `rings` alone stands in parentheses, since `rows;` is a row and `rings;` a ring.
fn put_claimed(writer: &mut Writer, style: Style, formula: &Expr) -> Result<(), AllocError>
    ensures { OnOk result (Writes writer.old writer.new (λ rest. written (enclosed (is_rows (view formula.now.kind)) (text (is_all style) (view formula.now.kind))) (semicolon ∷ rest))) }
{
    if is_rows(formula) {
        put_enclosed(writer, style, formula)?;
        writer.word(Kind::Semicolon, ";")
    } else {
        put_formula(writer, style, formula)
    }
}

fn put_predicate(writer: &mut Writer, style: Style, predicate: &Predicate) -> Result<(), AllocError>
    ensures { OnOk result (Writes writer.old writer.new (λ rest. written_item (text_item (is_all style) (defined (string_bytes predicate.now.name.text) (view_parameters predicate.now.parameters.items) (view predicate.now.body.kind))) rest)) }
{
    writer.word(Kind::Predicate, "pred")?;
    writer.word(Kind::Name, predicate.name.text.as_str())?;
    writer.word(Kind::Open, "(")?;
    put_parameters(writer, &predicate.parameters)?;
    writer.word(Kind::Close, ")")?;
    writer.word(Kind::Equal, "=")?;
    put_formula(writer, style, &predicate.body)
}

fn put_item(writer: &mut Writer, style: Style, item: &Item) -> Result<(), AllocError>
    ensures { OnOk result (Writes writer.old writer.new (λ rest. written_item (text_item (is_all style) (view_item item.now)) rest)) }
{
    match item {
        Item::Free(sort, names) => put_free(writer, *sort, names),
        Item::Row(row) => put_ends(writer, row),
        Item::Predicate(predicate) => put_predicate(writer, style, predicate),
        Item::Assert(formula) => {
            writer.word(Kind::Assert, "assert")?;
            put_formula(writer, style, formula)
        }
        Item::Formula(formula) => put_claimed(writer, style, formula),
    }
}

/// An expression as a text, with as few parentheses as there have to be.
///
/// # Errors
///
/// There is not enough memory.
pub fn expression(heap: Global, expr: &Expr) -> Result<String, AllocError>
    ensures { IfOk result (λ s. string_bytes s ≡ spaced (written (text false (view expr.now.kind)) [])) }
{
    let mut writer = Writer::new(heap);
    put(&mut writer, Style::Few, expr)?;
    Ok(writer.into_text())
}

/// Items as a text, one a line: the spaced words of their tree. `syntax::parse::read` reads them as these items, if their names are names where each
/// stands alone.
///
/// # Errors
///
/// There is not enough memory.
pub fn items(heap: Global, style: Style, items: &[Item]) -> Result<String, AllocError>
    ensures { IfOk result (λ s. string_bytes s ≡ spaced (written_items (map (text_item (is_all style)) (view_items items.now)))) }
{
    let mut writer = Writer::new(heap);
    for item in items {
        put_item(&mut writer, style, item)?;
    }
    Ok(writer.into_text())
}
