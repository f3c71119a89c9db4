// Formulas of a rule file. A formula stands in the readable form of claims and is about the row with its ends: the bits' names are sets of places, `row` is
// the set of the row's places, `last` is the last of these, and a name with `'` behind it is that bit of the row after one step. Of modules in a ring it is
// about the ring, whose places are the set `ring`. It is read as that form is: behind lines that declare the bits, then the row, then the bits after the step. So the numbers of the sets are those of the bits, then the row's, then
// those of the bits after.
ghost use Rattle.std.specs.Prelude.{◌≡◌, ◌++◌, ◌↔◌, IfOk, IfSome, codes, map, string_bytes};
ghost use Rattle.std.specs.Bool.{OnTrue};
ghost use Rattle.formulas.specs.Meaning.{Env, Meaning};
ghost use Rattle.resolve.specs.Asks.{all_hold};
ghost use Rattle.resolve.specs.Says.{text as text_of};
ghost use Rattle.rule_file.specs.Claims.{bytes_of};
ghost use Rattle.rule_source.specs.Formulas.{AreOne, EndsAs, FormulaOf, IsRow, before, declaration};
ghost use Rattle.rule_source.specs.Layouts.{places_line};
ghost use Rattle.syntax.specs.Reads.{IsReadAs};

use crate::bits::{Bits, places_of, word};
use crate::fault::Fault;
use formulas::formula::Formula;
use resolve::asked::{Stated, ask};
use rows::rule::Layout;
use rule_file::token::Token;
use std::alloc::{AllocError, Global};
use syntax::parse::read;
use tokens::kind::Kind;
use tokens::token::tokens;
use trees::position::Span;
use trees::tree::{Ends, Item, Name, Row, Sort};

/// What a formula speaks of.
#[derive(Clone, Copy, Debug, PartialEq, Eq)]
pub enum About {
    // a row alone
    Row,
    // a row and the row after one step
    Step,
}

// A line that declares sets of these names.
fn declaration(alloc: Global, names: &[String]) -> Result<String, AllocError>
    ensures { IfOk result (λ s. string_bytes s ≡ declaration (map (λ n. string_bytes n) names.now)) }
{
    let names = names.join(alloc, ", ")?;
    format!(in alloc; "var2 {names};\n")
}

// The line that says that a text is about a row, or about a ring.
fn places_line(layout: Layout) -> &'static str
    ensures { result.now ≡ places_line layout }
{
    match layout {
        Layout::Line => "rows;\n",
        Layout::Ring => "rings;\n",
    }
}

// The lines before a formula: the names of the bits, the row or the ring, and where it speaks of the row after the names of that row's bits.
fn before(
    alloc: Global,
    layout: Layout,
    about: About,
    now: &[String],
    after: &[String],
) -> Result<String, AllocError>
    ensures { IfOk result (λ s. string_bytes s ≡ before layout about (map (λ n. string_bytes n) now.now) (map (λ n. string_bytes n) after.now)) }
{
    let now = declaration(alloc, now)?;
    let places = places_line(layout);
    match about {
        About::Row => format!(in alloc; "{now}{places}"),
        About::Step => {
            let after = declaration(alloc, after)?;
            format!(in alloc; "{now}{places}{after}")
        }
    }
}

// A formula's text behind the lines that stand before it, and where in the file it begins.
#[derive(Drop)]
struct Composed {
    text: String,
    // where the formula begins and ends in the composed text
    front: usize,
    end: usize,
    // where it begins in the file
    start: usize,
}

impl Composed {
    // The lines before the formula, and the formula: what a message may quote. Behind it the text ends.
    fn quoted(&self) -> &[u8] {
        let bytes = self.text.as_bytes();
        &bytes[..self.end.min(bytes.len())]
    }

    // A place of the composed text, in the file: no further than the formula's end.
    fn place(&self, span: Span) -> Span {
        let start = span.start.min(self.end);
        let end = span.end.min(self.end);
        Span {
            start: start.saturating_sub(self.front).saturating_add(self.start),
            end: end.saturating_sub(self.front).saturating_add(self.start),
        }
    }

    fn fault(&self, message: String, span: Option<Span>) -> Fault {
        Fault::Formula(message, span.map(|span| self.place(span)))
    }
}

// A formula behind these lines.
fn compose(bits: &Bits<'_>, lines: String, formula: Token) -> Result<Composed, Fault>
    ensures { IfOk result (λ c. string_bytes c.text ≡ string_bytes lines ++ bytes_of bits.now.text.now formula ++ codes "\n;\n") }
{
    let mut text = lines;
    let front = text.len();
    text.push_str(word(bits.text, formula)?)?;
    let end = text.len();
    text.push_str("\n;\n")?;
    Ok(Composed {
        text,
        front,
        end,
        start: formula.span.start,
    })
}

// A formula ends with its line, and has no semicolon.
fn check_one(alloc: Global, composed: &Composed) -> Result<(), Fault> {
    let bytes = composed.text.as_bytes();
    let all = match tokens(alloc, bytes) {
        Ok(all) => all,
        Err(none) => {
            let fault = syntax::fault::Fault::from(none);
            return Err(composed.fault(fault.message(alloc, composed.quoted())?, fault.span()));
        }
    };
    let last = all.len().saturating_sub(1);
    for token in all.iter().take(last) {
        if token.kind == Kind::Semicolon && token.span.start >= composed.front {
            let message = String::from_str(alloc, "expected the end of the formula, found `;`")?;
            return Err(composed.fault(message, Some(token.span)));
        }
    }
    Ok(())
}

// The items of the composed text.
fn items_of(alloc: Global, composed: &Composed) -> Result<Vec<Item>, Fault>
    ensures { IfOk result (λ v. IsReadAs (string_bytes composed.now.text) v.items) }
{
    match read(alloc, composed.text.as_bytes()) {
        Ok(items) => Ok(items),
        Err(fault) => Err(composed.fault(fault.message(alloc, composed.quoted())?, fault.span())),
    }
}

// Whether names are the declared ones, each at its place.
fn are_named(sets: &[Name], names: &[String]) -> bool
    ensures { OnTrue result (map (λ x. string_bytes x.text) sets.now ≡ map (λ n. string_bytes n) names.now) }
{
    let [set, others @ ..] = sets else {
        return names.is_empty();
    };
    let [name, more @ ..] = names else {
        return false;
    };
    set.text == *name && are_named(others, more)
}

// Whether places end as those of a row do, with the last one called `last`, or go round as a ring's do.
fn end_as(layout: Layout, ends: &Ends) -> bool
    ensures { OnTrue result (EndsAs layout ends.now) }
{
    match (layout, ends) {
        (Layout::Line, Ends::Last(last)) => last.text.as_str() == "last",
        (Layout::Ring, Ends::Round) => true,
        _ => false,
    }
}

// Whether the places are those of a row, or of a ring, by name and by their ends.
fn is_row(layout: Layout, row: &Row) -> bool
    ensures { OnTrue result (IsRow layout row.now) }
{
    row.places.text.as_str() == places_of(layout) && end_as(layout, &row.ends)
}

// Whether the items are the bits, the row, the bits after the step where a formula speaks of these, and one formula. They are tested, since reading promises
// the items of some tokens that cover the text, and not that a line of names has the tokens that it seems to have.
fn are_one(layout: Layout, about: About, items: &[Item], now: &[String], after: &[String]) -> bool
    ensures { OnTrue result (AreOne layout about items.now (map (λ n. string_bytes n) now.now) (map (λ n. string_bytes n) after.now)) }
{
    match (about, items) {
        (
            About::Row,
            [
                Item::Free(Sort::Set, bits),
                Item::Row(row),
                Item::Formula(_),
            ],
        ) => are_named(bits, now) && is_row(layout, row),
        (
            About::Step,
            [
                Item::Free(Sort::Set, bits),
                Item::Row(row),
                Item::Free(Sort::Set, next),
                Item::Formula(_),
            ],
        ) => are_named(bits, now) && is_row(layout, row) && are_named(next, after),
        _ => false,
    }
}

// The one formula of which claims are, if it is one.
fn only(claimed: Vec<Stated<'_>>) -> Option<Box<Formula>>
    ensures { IfSome result (λ f. (e : Env) → Meaning f.value e ↔ all_hold claimed.entry.items e) }
{
    let mut others = claimed;
    let last = others.pop()?;
    if others.is_empty() {
        Some(last.formula)
    } else {
        None
    }
}

// What is claimed in the items, if it is one formula.
fn claimed_in(
    alloc: Global,
    composed: &Composed,
    items: &[Item],
) -> Result<Option<Box<Formula>>, Fault>
    ensures { IfOk result (λ o. IfSome o (λ f. (e : Env) → Meaning f.value e ↔ (text_of items.now e).claimed)) }
{
    match ask(alloc, items) {
        Ok(asked) => Ok(only(asked.claimed)),
        Err(fault) => Err(composed.fault(fault.message(alloc, composed.quoted())?, fault.span())),
    }
}

/// The formula that a token of the file is. Fails with what is wrong in it, and for memory.
pub fn formula_of(
    alloc: Global,
    bits: &Bits<'_>,
    about: About,
    formula: Token,
) -> Result<Box<Formula>, Fault>
    ensures { IfOk result (λ f. FormulaOf bits.now about formula f.value) }
{
    let now = bits.names_now(alloc)?;
    let after = bits.names_after(alloc)?;
    let layout = bits.layout;
    let lines = before(alloc, layout, about, &now, &after)?;
    let composed = compose(bits, lines, formula)?;
    check_one(alloc, &composed)?;
    let items = items_of(alloc, &composed)?;
    if are_one(layout, about, &items, &now, &after) {
        if let Some(read) = claimed_in(alloc, &composed, &items)? {
            return Ok(read);
        }
    }
    let message = String::from_str(alloc, "expected a formula, found what is none")?;
    Err(Fault::Formula(message, Some(formula.span)))
}
