//! Sides, and pairs as a side sees them.

use gi_calls::{Answer, Words};
use gi_pairs::Pair;

/// `other SIDE`: the other side.
pub(crate) fn other(mut words: Words<'_>, text: &mut Answer) -> bool {
    let Some(side) = words.side() else {
        return false;
    };
    text.show(side.other());
    true
}

/// `pair_of SIDE OWN OTHER`: the initiating code and the matching one of the pair.
pub(crate) fn pair_of(mut words: Words<'_>, text: &mut Answer) -> bool {
    let (Some(side), Some(own), Some(other)) = (words.side(), words.code(), words.code()) else {
        return false;
    };
    let Pair {
        initiating,
        matching,
    } = Pair::of(side, own, other);
    text.show(initiating);
    text.word(matching);
    true
}

/// `pair_at SIDE INITIATING MATCHING`: the pair's portfolio at the side.
pub(crate) fn pair_at(mut words: Words<'_>, text: &mut Answer) -> bool {
    let (Some(side), Some(pair)) = (words.side(), words.pair()) else {
        return false;
    };
    text.show(pair.at(side));
    true
}
