// Whether a claim follows at one moment: from the start, or by a step from what is to be kept. It is judged by its parts, up to the first that does not.
ghost use Rattle.std.specs.Prelude.{◌≡◌, ◌+◌, ◌^◌, ◌<◌, IfOk, IsTrue, length, map};
ghost use Rattle.keeping.specs.Breaches.{names_ok};
ghost use Rattle.kept_check.specs.Parts.{NamesOk, parts};
ghost use Rattle.strengthen.specs.Follow.{AllFollow, Follows};

use crate::watch::{Event, Watch};
use formulas::formula::Formula;
use keeping::moment::Moment;
use kept_check::found::Found;
use kept_check::part::{Asked, at_moment};
use kept_check::parts::put_parts;
use std::alloc::{AllocError, Global};

/// It follows for each row; it does not for this one; or that was not found out, since a part of it is too large.
#[derive(Debug, Drop)]
pub enum Followed {
    Always,
    Not(Vec<u32>),
    TooLarge,
}

// The same of these parts.
fn parts_follow<W: Watch>(
    alloc: Global,
    asked: Asked<'_, '_>,
    parts: &[&Formula],
    moment: Moment,
    watch: &mut W,
) -> Result<Followed, AllocError>
    requires names { NamesOk asked.keeping.now.rule.now.bits (map (λ d. d.now) parts.now) }
    ensures { IfOk result (AllFollow asked.entry.keeping.now (map (λ d. d.now) parts.now) moment) }
{
    let [part, rest @ ..] = parts else {
        return Ok(Followed::Always);
    };
    watch.note(Event::Judged);
    match at_moment(alloc, asked, part, 0, moment)? {
        Found::Nothing => {
            let others = parts_follow(alloc, asked, rest, moment, watch)?;
            Ok(others)
        }
        Found::First(_, row) => Ok(Followed::Not(row)),
        Found::TooLarge(_) => Ok(Followed::TooLarge),
    }
}

/// Whether the claim follows at that moment from the start, or from what is to be kept. It fails for want of memory alone.
pub fn follows<W: Watch>(
    alloc: Global,
    asked: Asked<'_, '_>,
    claim: &Formula,
    moment: Moment,
    watch: &mut W,
) -> Result<Followed, AllocError>
    requires names { IsTrue (names_ok asked.keeping.now.rule.now.bits claim.now) }
    ensures { IfOk result (Follows asked.entry.keeping.now claim.now moment) }
{
    let mut parts = Vec::new(alloc);
    put_parts(&mut parts, claim)?;
    let followed = parts_follow(alloc, asked, &parts, moment, watch)?;
    Ok(followed)
}
