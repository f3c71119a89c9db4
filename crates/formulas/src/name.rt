// The names that a formula speaks of. A place and a set may have the same number: they are two names.
#[derive(Clone, Copy, Debug, PartialEq, Eq, Drop)]
pub enum Name {
    OfPlace(u32),
    OfGroup(u32),
}
