// What a report asks of a rule, in words.
ghost use Rattle.std.specs.Prelude.{◌≡◌};
ghost use Rattle.rule_report.specs.Subjects.{found_of, given_of, name_of, settled_of, short_of, steps_of};

use rows::rule::Layout;
use rule_file::tree::Statement;
use rule_source::claimed::Put;

/// What is asked: the three questions that each rule gets, and the claims of the file.
#[derive(Clone, Copy)]
pub enum Subject<'s> {
    SomeAllowed,
    NoneStuck,
    AllowedKept,
    // how the claim was put, its name, and its statement
    Claim(Put, &'s str, &'s Statement),
}

/// What a given row is called, where modules lie so.
pub fn given_name(layout: Layout) -> &'static str
    ensures { result.now ≡ given_of layout }
{
    match layout {
        Layout::Line => "a given row",
        Layout::Ring => "a given ring",
    }
}

impl<'s> Subject<'s> {
    /// What is claimed of rows whose modules lie so.
    pub fn name(&self, layout: Layout) -> &'s str
        ensures { result.now ≡ name_of layout self.now }
    {
        match (layout, self) {
            (Layout::Line, Subject::SomeAllowed) => "some row is allowed",
            (Layout::Line, Subject::NoneStuck) => "no allowed row is stuck",
            (Layout::Line, Subject::AllowedKept) => "the row after an allowed row is allowed",
            (Layout::Ring, Subject::SomeAllowed) => "some ring is allowed",
            (Layout::Ring, Subject::NoneStuck) => "no allowed ring is stuck",
            (Layout::Ring, Subject::AllowedKept) => "the ring after an allowed ring is allowed",
            (_, Subject::Claim(_, name, _)) => *name,
        }
    }

    /// The name in a picture's file name.
    pub fn short(&self) -> &'s str
        ensures { result.now ≡ short_of self.now }
    {
        match self {
            Subject::SomeAllowed => "allowed",
            Subject::NoneStuck => "stuck",
            Subject::AllowedKept => "not-kept",
            Subject::Claim(_, name, _) => *name,
        }
    }

    /// What is said where no row has the property.
    pub fn settled(&self, layout: Layout) -> &'static str
        ensures { result.now ≡ settled_of layout self.now }
    {
        match (layout, self) {
            (Layout::Line, Subject::SomeAllowed) => {
                "no: no row is allowed, of whatever length, so what is said of allowed rows is empty talk"
            }
            (Layout::Ring, Subject::SomeAllowed) => {
                "no: no ring is allowed, of whatever length, so what is said of allowed rings is empty talk"
            }
            (_, Subject::NoneStuck | Subject::AllowedKept | Subject::Claim(Put::Claim, _, _)) => {
                "settled for every length"
            }
            (_, Subject::Claim(Put::Never, _, _)) => "never, settled for every length",
        }
    }

    /// What is said where a row has it, before the row's length.
    pub fn found(&self, layout: Layout) -> &'static str
        ensures { result.now ≡ found_of layout self.now }
    {
        match (layout, self) {
            (Layout::Line, Subject::SomeAllowed) => "yes, the first row has length",
            (Layout::Ring, Subject::SomeAllowed) => "yes, the first ring has length",
            (_, Subject::NoneStuck | Subject::AllowedKept | Subject::Claim(Put::Claim, _, _)) => {
                "fails, first at length"
            }
            (_, Subject::Claim(Put::Never, _, _)) => "found, first at length",
        }
    }

    /// How many rows after the first one are shown, where `steps` are asked for: a claim about the row after one step shows one at least, and that some
    /// row is allowed says nothing of steps.
    pub fn steps(&self, steps: u32) -> u32
        ensures { result ≡ steps_of self.now steps }
    {
        match self {
            Subject::SomeAllowed => 0,
            Subject::AllowedKept | Subject::Claim(Put::Claim, _, _) => steps.max(1),
            Subject::NoneStuck | Subject::Claim(Put::Never, _, _) => steps,
        }
    }
}
