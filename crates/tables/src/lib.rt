// Tables of classes in lent memory.
#![tactic(auto)]

pub mod cells;
pub mod complement;
pub mod copy;
pub mod numbering;
pub mod sheet;
