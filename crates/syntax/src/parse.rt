// Reads a text: its tokens, and from these its items.
ghost use Rattle.std.specs.Prelude.{◌≡◌, ℕ, Bool, Ok, List, IfOk, length, map};
ghost use Rattle.tokens.specs.Words.{words};
ghost use Rattle.tokens.specs.Spaced.{spaced, NamesAlone};
ghost use Rattle.syntax.specs.Views.{Gives};
ghost use Rattle.syntax.specs.Items.{PlainItem, view_items, read_words, written_items, bare_item, AreItems};
ghost use Rattle.syntax.specs.Printed.{text_item, AreTreeItems};
ghost use Rattle.syntax.specs.Reads.{IsReadAs};

use crate::expression::MOST_OPEN;
use crate::fault::Fault;
use crate::items::items;
use crate::source::Source;
use std::alloc::Global;
use tokens::token::{Token, tokens};
use trees::tree::Item;

// Where the last token ends.
fn end_of(tokens: &[Token]) -> usize {
    match tokens.last() {
        Some(token) => token.span.end,
        None => 0,
    }
}

// How many expressions may be open.
fn most_open() -> u32
    ensures { result ≡ 2000 }
{
    MOST_OPEN
}

/// The items that the tokens of a text are, or the first fault in them.
///
/// What is read is what `read_words` gives; tokens that are written as items, with parentheses where they must or may stand, are read as these items,
/// if at most 1,000 parts stand within one another, numbers are at most 1,000 and fewer than 2,000 expressions are open, one within the other. So the text
/// of every tree of at most 1,000 parts within one another is read as this tree, with few parentheses or with all.
///
/// # Errors
///
/// The first fault, that something is too large, or that there is not enough memory.
pub fn read_tokens(heap: Global, text: &[u8], tokens: &[Token]) -> Result<Vec<Item>, Fault>
    ensures gives { (c : ℕ) → c ≡ 2000 → Gives (λ v. view_items v.items) result (read_words (length tokens.now) c (words text.now tokens.now)) }
    ensures printed { (all : Bool) (is : List PlainItem) → AreTreeItems is → words text.now tokens.now ≡ written_items (map (text_item all) is) → Gives (λ v. view_items v.items) result (Ok is) }
    ensures again { (is : List PlainItem) → AreItems is → words text.now tokens.now ≡ written_items is → Gives (λ v. view_items v.items) result (Ok (map bare_item is)) }
{
    let source = Source {
        heap,
        text,
        end: end_of(tokens),
        count: tokens.len(),
        open: most_open(),
    };
    items(&source, tokens)
}

/// The items of a text, or the first fault in it.
///
/// Between the tokens that were read stand blanks and comments only, and what is given is what they are read as. A text of spaced words of a tree, as the
/// printer writes it, with few parentheses or with all, is read as this tree, unless memory runs out, if each name of the tree is one where it stands alone.
///
/// # Errors
///
/// The first fault, that something is too large, or that there is not enough memory.
pub fn read(heap: Global, text: &[u8]) -> Result<Vec<Item>, Fault>
    ensures reads { IfOk result (λ v. IsReadAs text.now v.items) }
    ensures printed { (all : Bool) (is : List PlainItem) → AreTreeItems is → NamesAlone (written_items (map (text_item all) is)) → text.now ≡ spaced (written_items (map (text_item all) is)) → Gives (λ v. view_items v.items) result (Ok is) }
{
    let tokens = tokens(heap, text)?;
    read_tokens(heap, text, &tokens)
}
