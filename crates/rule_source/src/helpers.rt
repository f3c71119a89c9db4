// The names of what may help to keep a claim: of the lines `NAME: FORMULA` below `helpers:`.
ghost use Rattle.std.specs.Prelude.{◌≡◌, ◌++◌, [], IfOk, OnOk, length, map};
ghost use Rattle.std.specs.List.{cons_option};
ghost use Rattle.rule_file.specs.Claims.{bytes_of};
ghost use Rattle.rule_source.specs.Helpers.{helper_name, helper_names};

use crate::bits::word;
use crate::fault::Fault;
use crate::source::Source;
use rule_file::token::Token;
use rule_file::tree::Statement;
use std::alloc::Global;

// The name of a statement, if it is one that may help.
fn name_of(statement: &Statement) -> Option<Token>
    ensures { result ≡ helper_name statement.now }
{
    match statement {
        Statement::Helper(label, _) => Some(label.name),
        _ => None,
    }
}

// A name, if there is one, behind those that are there.
fn push_name<'t>(text: &'t str, name: Option<Token>, names: &mut Vec<&'t str>) -> Result<(), Fault>
    ensures { OnOk result (map (λ n. n.now) names.new.items ≡ map (λ n. n.now) names.old.items ++ map (λ t. bytes_of text.now t) (cons_option name [])) }
{
    if let Some(name) = name {
        names.push(word(text, name)?)?;
    }
    Ok(())
}

/// The names of what may help to keep a claim, in the order of the file: one for each formula. Fails for memory, and where a name is no text.
pub fn helper_names<'s, 't: 's>(
    alloc: Global,
    source: &'s Source<'t>,
) -> Result<Vec<&'s str>, Fault>
    ensures names { IfOk result (λ names. map (λ n. n.now) names.items ≡ helper_names source.now) }
    ensures many { IfOk result (λ names. length names.items ≡ length source.now.helpers.items) }
{
    let mut names = Vec::new(alloc);
    for line in &source.file.lines {
        push_name(source.bits.text, name_of(&line.statement), &mut names)?;
    }
    Ok(names)
}
