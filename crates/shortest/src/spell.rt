// The word by which a class was found, read off backwards: from its number to the one from which it
// was found, and so on to number 0, which has the empty word. Numbers fall on the way.
ghost use Rattle.std.specs.Prelude.{◌≡◌, ℕ, ◌<◌, ◌≤◌, List, length};
ghost use Rattle.shortest.specs.Spell.{word, Falls};

// How long the word of number j is: the steps back from j to 0. On the way the steps done and the
// word of the number reached are together as long as the word of j.
pub fn word_length(prev: &[u32], j: usize) -> usize
    requires room { j < length prev.now }
    requires falls { Falls prev.now j }
    ensures value { (via : List ℕ) → result ≡ length (word prev.now via j) }
    ensures within { result ≤ j }
{
    let mut at = j;
    let mut steps = 0;
    while at != 0 {
        at = prev[at] as usize;
        steps += 1;
    }
    steps
}

// Writes the word of number j into memory of its length, the last column first: at each step the
// word of the number reached, followed by what is written, is the word of j.
pub fn write_word(prev: &[u32], via: &[u32], j: usize, out: &mut [u32])
    requires prev { j < length prev.now }
    requires via { j < length via.now }
    requires falls { Falls prev.now j }
    requires exact { length out.old ≡ length (word prev.now via.now j) }
    ensures { out.new ≡ word prev.now via.now j }
{
    let mut at = j;
    let mut left = out.len();
    while left > 0 {
        out[left - 1] = via[at];
        at = prev[at] as usize;
        left -= 1;
    }
}
