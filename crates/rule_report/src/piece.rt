// What is told, and the pictures of what is told: the report of a rule file, and the pieces that it is put together from.
ghost use Rattle.std.specs.Prelude.{◌≡◌, ◌++◌, [], ◌∷◌, IfOk, OnOk, map, string_bytes, if◌then◌else◌};
ghost use Rattle.rule_report.specs.ShownRows.{picture_name};
ghost use Rattle.rule_report.specs.Reported.{picture_names};

use crate::answer::Asked;
use crate::shown_rows::{Picture, draw};
use diagram::history::History;
use std::alloc::{AllocError, Global};

/// What is told of a rule file, and the pictures of its rows.
#[derive(Debug, Drop)]
pub struct Report {
    pub text: String,
    pub pictures: Vec<Picture>,
}

impl Report {
    /// Puts what is told besides behind what is there. Fails for memory.
    pub fn append(&mut self, more: Report) -> Result<(), AllocError>
        ensures text { OnOk result (string_bytes self.new.text ≡ string_bytes self.old.text ++ string_bytes more.text) }
        ensures pictures { OnOk result (self.new.pictures.items ≡ self.old.pictures.items ++ more.pictures.items) }
    {
        let mut pictures = more.pictures;
        self.text.push_str(more.text.as_str())?;
        self.pictures.append(&mut pictures)
    }
}

/// The picture of rows, if pictures are wanted. Fails for memory.
pub fn picture_of(
    alloc: Global,
    asked: Asked<'_, '_>,
    subject: &str,
    short: &str,
    history: &History,
) -> Result<Vec<Picture>, AllocError>
    ensures { IfOk result (λ all. picture_names all.items ≡ map (picture_name asked.entry.title.now) (if asked.entry.options.now.pictures then short.now ∷ [] else [])) }
{
    if !asked.options.pictures {
        return Ok(Vec::new(alloc));
    }
    let picture = draw(alloc, asked.source, asked.title, subject, short, history)?;
    let mut all = Vec::new(alloc);
    all.push(picture)?;
    Ok(all)
}
