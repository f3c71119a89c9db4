// How work words are cut into tables.
ghost use Rattle.std.specs.Prelude.{◌≡◌, ◌+◌, ◌*◌, ◌^◌, ◌<◌, ◌≤◌, length};
ghost use Rattle.workspace.specs.Cut.{slot_words};

/// One table in free memory, and what is free behind it.
#[derive(Drop)]
pub struct Slot<'a> {
    pub rows: &'a mut [u32],
    pub accept: &'a mut [u32],
    pub rest: &'a mut [u32],
}

/// Cuts a table of at most `most` classes over `width` columns.
pub fn cut_slot(free: &mut [u32], width: usize, most: usize) -> Slot<'_>
    requires room { slot_words width most ≤ length free.old }
    requires most { most < 2 ^ 32 }
    requires width { width ≤ 4096 }
    ensures rows { length result.rows.now ≡ most * width }
    ensures accept { length result.accept.now ≡ most }
    ensures rest { length result.rest.now + slot_words width most ≡ length free.old }
{
    let (rows, rest) = free.split_at_mut(most * width);
    let (accept, rest) = rest.split_at_mut(most);
    Slot { rows, accept, rest }
}
