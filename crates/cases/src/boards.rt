// The blocks of the cases E1 to E11, byte by byte: the very ones that the table of starred cases speaks of (lists.rt has those of E12 to E16,
// over.rt that of E17). Each stands whole, to be read byte by byte.
ghost use Rattle.std.specs.Prelude.{◌≡◌, [], ◌∷◌};
ghost use Rattle.rings.specs.Boards.{order_d};
ghost use Rattle.unit.specs.Starred.{T, D};

// Board T, sum 236.
pub fn board_t() -> [u8; 33]
    ensures { result ≡ T 236 }
{
    [
        80, 71, 66, 0, 1, 0, 3, 0, 0, 0, 1, 0, 2, 0, 2, 0, 2, 0, 2, 0, 1, 0, 2, 0, 2, 0, 0, 0, 0,
        0, 1, 0, 236,
    ]
}

// Board D, sum 285.
pub fn board_d() -> [u8; 65]
    ensures { result ≡ D order_d 285 }
{
    [
        80, 71, 66, 0, 1, 0, 5, 0, 0, 0, 1, 0, 2, 0, 3, 0, 4, 0, 4, 0, 4, 0, 3, 0, 4, 0, 3, 0, 1,
        0, 2, 0, 3, 0, 4, 0, 4, 0, 3, 0, 2, 0, 0, 0, 0, 0, 1, 0, 3, 0, 0, 0, 2, 0, 1, 0, 4, 0, 0,
        0, 3, 0, 1, 1, 29,
    ]
}

// Case 5, the autumn block: board D with posts 2 and 3 in each other's place, which leaves the sum as it is.
pub fn autumn() -> [u8; 65]
    ensures { result ≡ D (0 ∷ 1 ∷ 3 ∷ 2 ∷ 4 ∷ []) 285 }
{
    [
        80, 71, 66, 0, 1, 0, 5, 0, 0, 0, 1, 0, 3, 0, 2, 0, 4, 0, 4, 0, 4, 0, 3, 0, 4, 0, 3, 0, 1,
        0, 2, 0, 3, 0, 4, 0, 4, 0, 3, 0, 2, 0, 0, 0, 0, 0, 1, 0, 3, 0, 0, 0, 2, 0, 1, 0, 4, 0, 0,
        0, 3, 0, 1, 1, 29,
    ]
}

// Case 11: board D with post 2 in position 4 too, and the sum 284.
pub fn twice() -> [u8; 65]
    ensures { result ≡ D (0 ∷ 1 ∷ 2 ∷ 2 ∷ 4 ∷ []) 284 }
{
    [
        80, 71, 66, 0, 1, 0, 5, 0, 0, 0, 1, 0, 2, 0, 2, 0, 4, 0, 4, 0, 4, 0, 3, 0, 4, 0, 3, 0, 1,
        0, 2, 0, 3, 0, 4, 0, 4, 0, 3, 0, 2, 0, 0, 0, 0, 0, 1, 0, 3, 0, 0, 0, 2, 0, 1, 0, 4, 0, 0,
        0, 3, 0, 1, 1, 28,
    ]
}
