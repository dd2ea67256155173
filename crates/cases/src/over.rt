// The block of case E17, byte by byte: a board with a run that goes over the end of its list.
ghost use Rattle.std.specs.Prelude.{◌≡◌};
ghost use Rattle.unit.specs.Starred.{L};

// Board L, sum 287.
pub fn board_l() -> [u8; 65]
    ensures { result ≡ L 287 }
{
    [
        80, 71, 66, 0, 1, 0, 5, 0, 0, 0, 1, 0, 2, 0, 3, 0, 4, 0, 4, 0, 3, 0, 4, 0, 3, 0, 4, 0, 1,
        0, 2, 0, 3, 0, 4, 0, 4, 0, 2, 0, 0, 0, 0, 0, 1, 0, 4, 0, 3, 0, 2, 0, 4, 0, 0, 0, 0, 0, 3,
        0, 2, 0, 1, 1, 31,
    ]
}
