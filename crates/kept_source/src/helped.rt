// What is answered of a text and a name, where the text has a list of helpers.

use strengthen::answer::Stronger;

/// The text is no rule file, or one that is refused; it is one, and claims of nothing of that name that it is kept; or what is answered of what it claims so and of its list.
#[derive(Debug, Drop)]
pub enum Helped {
    NotRead,
    NoSuchClaim,
    Answered(Stronger),
}
