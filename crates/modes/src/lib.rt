// What a caller chooses for a call: its modes.
#![tactic(auto)]

ghost use Rattle.std.specs.Prelude.{◌≡◌};
ghost use Rattle.modes.specs.Bits.{modes_of};

// A later mode is a field here, and a bit in `modes_of`.
#[derive(Clone, Copy)]
pub struct Modes {
    // calls of require count
    pub require: bool,
}

// The modes that a host tells by bits.
pub fn modes_of(bits: u32) -> Modes
    ensures { result ≡ modes_of bits }
{
    Modes {
        require: bits % 2 == 1,
    }
}
