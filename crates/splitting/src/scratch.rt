// Memory in which classes are parted.

// For m classes: m words each for order to members; for heads and links as many as the table has
// entries; and for repeats any number, of which as many are used as the table has columns.
// What the words held before does not matter.
#[derive(Drop)]
pub struct Scratch<'a> {
    pub order: &'a mut [u32],
    pub place: &'a mut [u32],
    pub begin: &'a mut [u32],
    pub end: &'a mut [u32],
    pub cut: &'a mut [u32],
    pub touched: &'a mut [u32],
    pub members: &'a mut [u32],
    pub heads: &'a mut [u32],
    pub links: &'a mut [u32],
    pub repeats: &'a mut [u32],
}
