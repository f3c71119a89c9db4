// What is answered of a text and a name.

use kept_check::answer::Answer;

/// The text is no rule file, or one that is refused; it is one, and claims of nothing of that name that it is kept; or what is answered of what it claims so.
#[derive(Debug, Drop)]
pub enum InFile {
    NotRead,
    NoSuchClaim,
    Judged(Answer),
}
