// The bits of a file's modules, by their names: a bit's number is the place of its name. With them stands how the modules lie, since the set of all places is
// called by that, and patterns and formulas are read by it.
ghost use Rattle.std.specs.Prelude.{◌≡◌, ◌≢◌, ◌<◌, ◌≤◌, All, length, map, take, slice_get, IfOk, OnErr};
ghost use Rattle.std.specs.String.{string_bytes};
ghost use Rattle.rule_file.specs.Claims.{bytes_of};
ghost use Rattle.rule_source.specs.Layouts.{places_of};
ghost use Rattle.rule_source.specs.Names.{names_after, number_of, set_names};

use crate::fault::Fault;
use rows::rule::Layout;
use rule_file::names::bytes;
use rule_file::token::Token;
use std::alloc::{AllocError, Global};
use std::str::from_utf8;

/// So many bits a module of a file has at most.
pub const MOST_BITS: usize = 5;

/// A text, the names of the bits that it declares, one to five, and how the modules lie.
#[derive(Drop)]
pub struct Bits<'t> {
    pub text: &'t str,
    pub layout: Layout,
    pub names: Vec<&'t str>,
    pub ghost some: { 1 ≤ length names.items },
    pub ghost few: { length names.items ≤ 5 },
}

/// What claims call the set of all places of a row whose modules lie so.
pub fn places_of(layout: Layout) -> &'static str
    ensures { result.now ≡ places_of layout }
{
    match layout {
        Layout::Line => "row",
        Layout::Ring => "ring",
    }
}

/// The words of a token. Fails where they are no text.
pub fn word<'t>(text: &'t str, token: Token) -> Result<&'t str, Fault>
    ensures { IfOk result (λ w. w.now ≡ bytes_of text.now token) }
{
    match from_utf8(bytes(text.as_bytes(), &token)) {
        Ok(word) => Ok(word),
        Err(_) => Err(Fault::Bit(token)),
    }
}

impl<'t> Bits<'t> {
    /// The bits with those names, of modules that lie so. Fails where there are none or more than five, and for memory.
    pub fn new(
        alloc: Global,
        text: &'t str,
        layout: Layout,
        tokens: &[Token],
    ) -> Result<Bits<'t>, Fault>
        ensures layout { IfOk result (λ b. b.layout ≡ layout) }
        ensures text { IfOk result (λ b. b.text.now ≡ text.now) }
        ensures names { IfOk result (λ b. map (λ n. n.now) b.names.items ≡ map (λ t. bytes_of text.now t) tokens.now) }
    {
        let mut names = Vec::new(alloc);
        for token in tokens {
            if names.len() >= MOST_BITS {
                return Err(Fault::Bit(*token));
            }
            names.push(word(text, *token)?)?;
        }
        if names.is_empty() {
            return Err(Fault::NoBits);
        }
        Ok(Bits {
            text,
            layout,
            names,
        })
    }

    /// How many bits a module has.
    pub fn count(&self) -> u8
        ensures count { result ≡ length self.now.names.items }
        ensures some { 1 ≤ result }
        ensures few { result ≤ 5 }
    {
        self.names.len() as u8
    }

    /// The number of the bit with the name that a token is: the place of its name. Fails where there is none.
    pub fn number(&self, token: Token) -> Result<u8, Fault>
        ensures number { IfOk result (λ j. j ≡ number_of (map (λ n. n.now) self.now.names.items) (bytes_of self.now.text.now token)) }
        ensures within { IfOk result (λ j. j < length self.now.names.items) }
        ensures place { IfOk result (λ j. slice_get (map (λ n. n.now) self.now.names.items) j ≡ Some (bytes_of self.now.text.now token)) }
        ensures first { IfOk result (λ j. All (λ v. v ≢ bytes_of self.now.text.now token) (take j (map (λ n. n.now) self.now.names.items))) }
        ensures none { OnErr result (All (λ v. v ≢ bytes_of self.now.text.now token) (map (λ n. n.now) self.now.names.items)) }
    {
        let name = bytes(self.text.as_bytes(), &token);
        for (j, other) in self.names.iter().enumerate() {
            if other.as_bytes() == name {
                return Ok(j as u8);
            }
        }
        Err(Fault::Bit(token))
    }

    /// The names of the bits, by their numbers.
    pub fn names_now(&self, alloc: Global) -> Result<Vec<String>, AllocError>
        ensures { IfOk result (λ all. map (λ s. string_bytes s) all.items ≡ map (λ n. n.now) self.now.names.items) }
    {
        let mut all = Vec::new(alloc);
        for name in &self.names {
            all.push(String::from_str(alloc, *name)?)?;
        }
        Ok(all)
    }

    /// The names of the bits of the row after, by their numbers: each with `'` behind it.
    pub fn names_after(&self, alloc: Global) -> Result<Vec<String>, AllocError>
        ensures { IfOk result (λ all. map (λ s. string_bytes s) all.items ≡ names_after (map (λ n. n.now) self.now.names.items)) }
    {
        let mut all = Vec::new(alloc);
        for name in &self.names {
            let mut after = String::from_str(alloc, *name)?;
            after.push('\'')?;
            all.push(after)?;
        }
        Ok(all)
    }

    /// The names of the sets that claims speak of, by their numbers: the bits, the set of all places, and the bits of the row after, each with `'` behind it.
    pub fn set_names(&self, alloc: Global) -> Result<Vec<String>, AllocError>
        ensures { IfOk result (λ all. map (λ s. string_bytes s) all.items ≡ set_names (places_of self.now.layout) (map (λ n. n.now) self.now.names.items)) }
    {
        let mut all = self.names_now(alloc)?;
        all.push(String::from_str(alloc, places_of(self.layout))?)?;
        let mut after = self.names_after(alloc)?;
        all.append(&mut after)?;
        Ok(all)
    }
}
