// The states of a machine as they are found. They are few, so one is looked for among those found
// by comparing. A column of the claim's own sets leads where the least column of all sets does that
// has it.
ghost use Rattle.std.specs.Prelude.{◌≡◌, ℕ, ◌<◌, ◌≢◌, ◌⊎◌, length, slice_index_or, MatchOption};
ghost use Rattle.atoms.specs.States.{reading};

use crate::kind::Kind;
use crate::memory::States;
use worklist::explore::Frontier;

// The number of a state among those found, or that it is not there.
fn find<K: Kind>(found: &[K::State], state: K::State) -> Option<usize>
    ensures { MatchOption result ((d : K.State) (j : ℕ) → j < length found.now → slice_index_or found.now j d ≢ state) (λ j. (j < length found.now) × ((d : K.State) → slice_index_or found.now j d ≡ state)) }
{
    found.iter().position(|other| K::same(*other, state))
}

// The number of a state, which is put behind the first m found where it is none of them.
fn enter<K: Kind>(found: &mut [K::State], m: usize, state: K::State) -> usize
    requires { m < length found.old }
    ensures kept { (d : K.State) (p : ℕ) → p < m → slice_index_or found.new p d ≡ slice_index_or found.old p d }
    ensures here { (d : K.State) → slice_index_or found.new result d ≡ state }
    ensures old_or_new { (result < m) ⊎ ((result ≡ m) × ((d : K.State) (p : ℕ) → p < m → slice_index_or found.old p d ≢ state)) }
{
    match find::<K>(&found[..m], state) {
        Some(j) => j,
        None => {
            found[m] = state;
            m
        }
    }
}

impl<K: Kind> Frontier for States<'_, K> {
    ghost Thing = { K.State };

    type Origin = K::State;

    ghost seen = { λ f. record {
      automaton = reading f.sets (K.machine f.kind);
      room = 17;
      at = λ i. slice_index_or f.found.now i (K.machine f.kind).start;
      Holds = λ m. Unit {0};
    } };

    ghost Of = { λ state r. r ≡ state };

    fn begin(&mut self) {
        self.found[0] = self.kind.start();
    }

    fn open(&self, _m: usize, i: usize) -> K::State {
        self.found[i]
    }

    fn follow(&mut self, m: usize, _i: usize, origin: K::State, a: u32) -> usize {
        let next = self.kind.step(origin, self.sets.spread(a));
        let found = &mut *self.found;
        enter::<K>(found, m, next)
    }

    fn accepts(&self, _m: usize, i: usize) -> bool {
        self.kind.ends(self.found[i])
    }
}
