// A byte as a set of modes: bit m, worth 2 ^ m, stands for mode m.
ghost use Rattle.std.specs.Prelude.{◌≡◌};
ghost use Rattle.common.specs.Bits.{bit, beyond};

// Whether a mode is in the set.
pub fn has_mode(mask: u8, mode: u8) -> bool
    ensures { result ≡ bit mask mode }
{
    if 8 <= mode {
        return false;
    }
    // One instruction tests a bit of a u32; a byte takes three.
    (u32::from(mask) >> mode) % 2 == 1
}

// Whether the set holds a mode at or past n.
pub fn has_beyond(n: u8, mask: u8) -> bool
    ensures { result ≡ beyond n mask }
{
    if 8 <= n {
        return false;
    }
    mask >> n != 0
}
