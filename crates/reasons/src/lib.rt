// What each refusal means, in plain words, byte for byte as specs/ defines it, on a page.
#![tactic(auto)]

ghost use Rattle.std.specs.Prelude.{◌≡◌, cond};
ghost use Rattle.lamp.specs.Refusals.{number_of, place_of};
ghost use Rattle.text.specs.Pages.{Writes};
ghost use Rattle.reasons.specs.Reasons.{words_of, all_degrees, whole_board, number_in, reason_of};

use block::Block;
use lamp::Refusal;
use text::Page;

// The words of a refusal of a block of n posts, in which # stands for a number.
fn words_of(r: Refusal, n: u16) -> &'static [u8]
    ensures { result.now ≡ cond (whole_board n (number_of r) (place_of r)) all_degrees (words_of r) }
{
    match r {
        Refusal::Short => b"the block is cut short: it has fewer than 7 bytes",
        Refusal::Mark => b"this is no block: it does not begin with PGB",
        Refusal::Version => b"the block is of another version than 1",
        Refusal::Posts => b"the number of posts is below 3 or above #",
        Refusal::Length => b"the block has too few or too many bytes for its number of posts",
        Refusal::Sum => b"the sum at the end is wrong: some byte was changed on the way",
        Refusal::Order(_) =>
            b"at position # of the order: a name that no post has, or one that came before",
        Refusal::Degrees(u) if n <= u =>
            b"the degrees of all # posts together are not 6 times # less 12",
        Refusal::Degrees(_) =>
            b"the degree of post # is below 2, or so high that there are not that many other posts",
        Refusal::High(_) => b"in the list of post #: a name that no post has",
        Refusal::Itself(_) => b"in the list of post #: the post itself",
        Refusal::Repeated(_) => b"in the list of post #: a name that stands there already",
        Refusal::Unreturned(_) => {
            b"in the list of post #: a post whose own list does not have post #; either of the two lists may be the wrong one"
        }
        Refusal::Triangle(_) => {
            b"around post #: two neighbours stand side by side in its list, v and then w, but in the list of v post # does not come right after w; \
            perhaps v and w are not wired, or a list is out of sequence or clockwise"
        }
        Refusal::Outer => {
            b"the first two posts of the order are not wired, or in the list of the second, \
            the last post of the order does not come right after the first"
        }
        Refusal::Few(_) =>
            b"at position # of the order: the post has fewer than two wires to posts fitted before it",
        Refusal::Broken(_) => {
            b"at position # of the order: the post's wires to posts fitted before it do not lie side by side; \
            two posts may stand in each other's place"
        }
        Refusal::Stage => b"there is no such stage: stages go from 3 to the number of posts",
        Refusal::Room =>
            b"the sheet buffer is too short: it has fewer than two entries for each post of the stage",
        Refusal::Name => b"no post has that name",
    }
}

// What # stands for: a number in a text, which one refusal alone does not give as its place, so no `From`; the limit is narrowed by `as`, which loses
// nothing.
fn number_in(r: Refusal) -> u16
    ensures { result ≡ number_in (number_of r) (place_of r) }
{
    match r {
        Refusal::Posts => Block::LIMIT as u16,
        _ => r.told().place,
    }
}

// The words of a refusal of a block of n posts.
#[tactic(auto, unfolding(crate::specs::Reasons::reason_of))]
pub fn reason(r: Refusal, n: u16, page: &mut Page)
    ensures { Writes page.old (reason_of n r) page.new }
{
    page.numbered(words_of(r, n), number_in(r));
}
