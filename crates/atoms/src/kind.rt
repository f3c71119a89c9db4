// The form of a claim without parts: what it means, and a machine that says it.
// The search, the table and the joining of a claim's classes know this trait, and nothing else of
// its kind.
ghost use Rattle.std.specs.Prelude.{◌≡◌, ℕ, ◌↔◌, ◌≤◌, true, IsTrue};
ghost use Rattle.words.specs.Words.{bit};
ghost use Rattle.kinds.specs.Atoms.{sets_of};
ghost use Rattle.kinds.specs.Machines.{Machine, Right};
ghost use Rattle.kinds.specs.Meaning.{OfAtom};
ghost use Rattle.kinds.specs.declared.atom.Atom.{Atom};
ghost use Rattle.narrowing.specs.Mentioned.{named};

/// A kind of claims without parts. Each claim is decided by a machine that reads a word column by
/// column.
pub trait Kind: Copy {
    /// What the machine remembers of the columns that it has read.
    type State: Copy;

    /// Which claim it is: that has its meaning.
    ghost atom: { Self → Atom };

    /// The number by which a state is told.
    ghost number: { Self.State → ℕ };

    /// The machine.
    ghost machine: { Self → Machine Self.State };

    /// The state before the first column.
    fn start(&self) -> Self::State
        ensures { result ≡ (machine self.now).start };

    /// The state after a column.
    fn step(&self, q: Self::State, column: u32) -> Self::State
        requires { sets_of (atom self.now) ≤ 12 }
        ensures { result ≡ (machine self.now).step q column };

    /// Whether the claim holds where nothing follows.
    fn ends(&self, q: Self::State) -> bool
        ensures { result ≡ (machine self.now).ends q };

    /// Whether two states are the same.
    fn same(p: Self::State, q: Self::State) -> bool
        ensures { IsTrue result ↔ (p ≡ q) };

    /// States are told by their numbers.
    ghost told: { (p q : Self.State) → number p ≡ number q → p ≡ q };

    /// The machine is right of what the claim means.
    ghost right: { (x : Self) → Right number (machine x) (OfAtom (atom x)) };

    /// The machine looks at the sets that the claim names alone: columns that agree in these lead
    /// to the same state.
    ghost looks: { (x : Self) (q : Self.State) (a b : ℕ) → ((z : ℕ) → named (atom x) z ≡ true → bit z a ≡ bit z b) → (machine x).step q a ≡ (machine x).step q b };
}
