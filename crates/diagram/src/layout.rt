// Where the parts of a picture lie, in pixels from its left upper corner. Numbers have 128 bits, so that no row is too long.
//
// From the top down: a line for the title, one for the subject, the legend with a line for each bit, the ruler, and then a line of
// squares for each step, with the step's number at its left.
ghost use Rattle.std.specs.Prelude.{◌≡◌, ◌+◌, ◌*◌, ◌/◌, ◌^◌, ◌<◌, ◌≤◌};
ghost use Rattle.diagram.specs.Places.{square_of, left_of, first_top_of, top_of, rect_of};

/// A rectangle: its left upper corner and its size, in pixels.
#[derive(Clone, Copy)]
pub struct Rect {
    pub x: u128,
    pub y: u128,
    pub width: u128,
    pub height: u128,
}

/// What is drawn of a module: its square's frame, and in the square the bands of its bits, one below the other.
#[derive(Clone, Copy)]
pub enum Part {
    Frame,
    Band(u8),
}

/// The left side of the picture's texts.
pub const MARGIN: u128 = 16;

// Where the first square begins; at its left stand the numbers of the steps.
pub const GRID_LEFT: u128 = 64;

// The top of the legend, the height of one of its lines, and the height of the ruler.
pub const LEGEND_TOP: u128 = 80;

pub const LEGEND_LINE: u128 = 18;

const RULER: u128 = 48;

// What stands between the squares of two steps.
const GAP: u128 = 6;

/// The sizes of a picture: how many bits a module has, and how many pixels high a bit's band is.
#[derive(Clone, Copy)]
pub struct Layout {
    pub bits: u8,
    pub band: u8,
}

impl Layout {
    /// The sizes for rows of so many modules with so many bits: the longer a row, the smaller its squares, but no band is lower
    /// than two pixels.
    pub fn new(bits: u8, modules: usize) -> Layout
        requires { 1 ≤ bits }
        ensures bits { result.bits ≡ bits }
        ensures band { 2 ≤ result.band }
    {
        let side = match modules {
            0..=30 => 30,
            31..=80 => 20,
            _ => 15,
        };
        let band = (side / bits).max(2);
        Layout { bits, band }
    }

    /// The side of a module's square.
    pub fn square(&self) -> u128
        ensures { result ≡ square_of self.now }
    {
        self.bits as u128 * self.band as u128
    }

    /// The left side of a module's square. It may also be the place behind the last one: where the row ends.
    pub fn left(&self, place: usize) -> u128
        ensures { result ≡ left_of self.now place }
    {
        GRID_LEFT + place as u128 * self.square()
    }

    /// The middle of a module's square, from the picture's left side.
    pub fn middle(&self, place: usize) -> u128
        ensures { result ≡ left_of self.now place + square_of self.now / 2 }
    {
        self.left(place) + self.square() / 2
    }

    /// The top of the first row's squares.
    pub fn first_top(&self) -> u128
        ensures { result ≡ first_top_of self.now }
    {
        LEGEND_TOP + self.bits as u128 * LEGEND_LINE + RULER
    }

    /// The top of the squares of the row after a step.
    pub fn top(&self, step: usize) -> u128
        ensures { result ≡ top_of self.now step }
    {
        self.first_top() + step as u128 * (self.square() + GAP)
    }

    /// The foot of a text beside the row after a step, a little below the middle of its squares.
    pub fn text_foot(&self, step: usize) -> u128
        ensures { result ≡ top_of self.now step + square_of self.now / 2 + 4 }
    {
        self.top(step) + self.square() / 2 + 4
    }

    /// Where a part of a module lies in the row after a step.
    pub fn rect(&self, part: Part, step: usize, place: usize) -> Rect
        ensures { result ≡ rect_of self.now part step place }
    {
        let x = self.left(place);
        let y = self.top(step);
        let width = self.square();
        match part {
            Part::Frame => Rect {
                x,
                y,
                width,
                height: width,
            },
            Part::Band(bit) => Rect {
                x,
                y: y + bit as u128 * self.band as u128,
                width,
                height: self.band as u128,
            },
        }
    }
}
