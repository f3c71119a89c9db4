// A row of modules and the rows after it, in time. A row keeps its length from one step to the next, so all have the same.
ghost use Rattle.std.specs.Prelude.{◌≡◌, ◌+◌, ◌<◌, ◌++◌, ◌∷◌, [], OnOk, OnErr, IfOk, length};
ghost use Rattle.diagram.specs.Rows.{AllOf, IsLastRow};

use std::alloc::{AllocError, Global};

/// The rows at the steps 0, 1, ..: at least one, and how many modules each of them has. A module is a column: bit j of it is the
/// module's bit j.
#[derive(Drop)]
pub struct History {
    pub modules: usize,
    pub rows: Vec<Vec<u32>>,
    ghost some: { 0 < length rows.items },
    ghost even: { AllOf modules rows.items },
}

impl History {
    /// The history that has one row yet, that of step 0.
    pub fn new(alloc: Global, first: Vec<u32>) -> Result<History, AllocError>
        ensures { IfOk result (λ h. h.rows.items ≡ first ∷ []) }
    {
        let modules = first.len();
        let rows = vec![in alloc; first]?;
        Ok(History { modules, rows })
    }

    /// The row of the last step that there is.
    pub fn last(&self) -> &[u32]
        ensures last { IsLastRow self.now.rows.items result.now }
        ensures len { length result.now ≡ self.now.modules }
    {
        self.rows[self.rows.len() - 1].as_slice()
    }

    /// Puts the row of the next step behind the others. If there is no memory for it, the history stays as it was.
    pub fn push(&mut self, next: Vec<u32>) -> Result<(), AllocError>
        requires { length next.items ≡ self.old.modules }
        ensures ok { OnOk result (self.new.rows.items ≡ self.old.rows.items ++ next ∷ []) }
        ensures err { OnErr result (self.new.rows.items ≡ self.old.rows.items) }
        ensures modules { self.new.modules ≡ self.old.modules }
    {
        self.rows.push(next)?;
        Ok(())
    }
}
