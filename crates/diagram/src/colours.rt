// The colours of bits: those of Okabe and Ito, which the colour-blind tell apart, and three darker ones behind them. In grey print
// a band's place in its square tells the bit.
ghost use Rattle.std.specs.Prelude.{◌<◌};

/// How many bits have a colour of their own: as many as a module can have.
pub const COLOURS: usize = 11;

const PALETTE: [&str; COLOURS] = [
    "#0072b2", // blue
    "#e69f00", // orange
    "#009e73", // green
    "#d55e00", // vermilion
    "#cc79a7", // purple
    "#56b4e9", // sky blue
    "#000000", // black
    "#f0e442", // yellow
    "#882255", // wine
    "#999933", // olive
    "#661100", // brown
];

/// The colour of a bit, as SVG writes it.
pub fn colour_of(bit: u8) -> &'static str
    requires { bit < 11 }
{
    PALETTE[bit as usize]
}
