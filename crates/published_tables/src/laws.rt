// The three laws of an algebra, tried by its calls alone.
use algebra::{Algebra, House, IDENTITY, ReadingSet, Standard};
use std::iter::successors;

const READINGS: u32 = 32;

// How many of `count` house rules over the algebra keep the laws.
pub(crate) fn count_lawful(below: Standard, count: usize) -> usize {
    successors(Some(0), |mask| Some(next_mask(*mask)))
        .take(count)
        .filter(|mask| keeps_laws(&House { below, mask: *mask }))
        .count()
}

// A step of a linear congruential generator, which visits masks of all sizes.
fn next_mask(mask: ReadingSet) -> ReadingSet {
    let mixed = mask.wrapping_mul(1664525).wrapping_add(1013904223);
    mixed.rotate_left(16)
}

// Whether it holds of the set of each reading in the universe.
fn all_readings<F: FnMut(ReadingSet) -> bool>(universe: ReadingSet, holds: F) -> bool
    requires { (state : F) (set : _) → F.pre state set }
{
    (0..READINGS)
        .map(|k| universe & (1 << k))
        .filter(|set| *set != 0)
        .all(holds)
}

fn keeps_laws<B: Algebra>(algebra: &B) -> bool {
    let universe = algebra.universe();
    universe & IDENTITY == IDENTITY
        && algebra.converse(IDENTITY) == IDENTITY
        && all_readings(universe, |a| keeps_laws_at(algebra, a))
}

// The laws that begin with the reading of which `a` is the set.
fn keeps_laws_at<B: Algebra>(algebra: &B, a: ReadingSet) -> bool {
    let universe = algebra.universe();
    let turned = algebra.converse(a);
    turned != 0
        && turned & universe == turned
        && algebra.converse(turned) == a
        && algebra.compose(IDENTITY, a) == a
        && algebra.compose(a, IDENTITY) == a
        && all_readings(universe, |b| keeps_laws_of_two(algebra, a, b))
}

// c is in a∘b, in a˘∘c as b, and in c∘b˘ as a, for all three or for none.
fn keeps_laws_of_two<B: Algebra>(algebra: &B, a: ReadingSet, b: ReadingSet) -> bool {
    let universe = algebra.universe();
    let composed = algebra.compose(a, b);
    let a_turned = algebra.converse(a);
    let b_turned = algebra.converse(b);
    composed & universe == composed
        && all_readings(universe, |c| {
            let inside = composed & c != 0;
            (algebra.compose(a_turned, c) & b != 0) == inside
                && (algebra.compose(c, b_turned) & a != 0) == inside
        })
}
