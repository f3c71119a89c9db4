// The sections of a rule file: what the lines below a heading are.
ghost use Rattle.std.specs.Prelude.{◌≡◌};
ghost use Rattle.rule_file.specs.Sections.{section_behind};

use crate::tree::Statement;

/// What the lines below a heading are.
#[derive(Clone, Copy)]
pub enum Section {
    Outside,
    Allowed,
    Table,
    Helpers,
}

/// What the lines behind a statement are.
pub fn section_behind(section: Section, statement: &Statement) -> Section
    ensures { result ≡ section_behind section statement.now }
{
    match statement {
        Statement::Allowed(_) => Section::Allowed,
        Statement::Table(_) => Section::Table,
        Statement::Helpers(_) => Section::Helpers,
        _ => section,
    }
}
