// The blocks of the cases E12 to E16: board D with another list for a post, and the sum that it then has.
ghost use Rattle.std.specs.Prelude.{◌≡◌, [], ◌∷◌};
ghost use Rattle.unit.specs.Starred.{DList};

use crate::boards;

// The list of post 2 with another last entry: with a 7, and no post is named so (289); with post 2 itself (284); with post 1 twice (283); with post 4,
// whose list has no 2 (286).
pub fn of_two(last: u8, sum: u16) -> [u8; 65]
    ensures { result ≡ DList 2 (0 ∷ 1 ∷ last ∷ []) sum }
{
    let mut d = boards::board_d();
    d[48] = last;
    let [high, low] = sum.to_be_bytes();
    d[63] = high;
    d[64] = low;
    d
}

// The list of post 0 with two others between its 1 and its 4: with a 7 before the second 1, and with the second 1 before the 7 (288).
pub fn of_zero(second: u8, third: u8, sum: u16) -> [u8; 65]
    ensures { result ≡ DList 0 (1 ∷ second ∷ third ∷ 4 ∷ []) sum }
{
    let mut d = boards::board_d();
    d[30] = second;
    d[32] = third;
    let [high, low] = sum.to_be_bytes();
    d[63] = high;
    d[64] = low;
    d
}
