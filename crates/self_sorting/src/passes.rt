// The four passes, from one half of the scratch to the other and back. Each takes its numbers as const parameters, so that a compiler
// knows them.
ghost use Rattle.std.specs.Prelude.{◌≡◌, ◌+◌, ◌*◌, ◌≤◌};
ghost use Rattle.self_sorting.specs.Passes.{row_of, pass_of, passes};

use crate::quads::{Turns, get_four, put_four, turns_at, two_stages};

// STEP quads side by side, with the same twiddles.
#[tactic(auto, using(laws::specs::Loops::loops), unfolding(crate::specs::Passes::row_of))]
fn row<const STEP: usize, const FROM: usize, const TO: usize>(
    z: &mut [f64; 1024],
    j: usize,
    w: Turns,
)
    requires within { STEP * j + STEP ≤ 64 }
    requires halves { (FROM ≤ 512) × (TO ≤ 512) }
    ensures { z.new ≡ row_of w STEP (4 * STEP * j + FROM) (STEP * j + TO) z.old }
{
    let from = 4 * STEP * j + FROM;
    let to = STEP * j + TO;
    for q in 0..STEP {
        let x = get_four(z, from + q, STEP);
        put_four(z, to + q, two_stages(x, w));
    }
}

// Two stages: ROWS rows of STEP quads, from the half at FROM to the half at TO.
#[tactic(auto, using(laws::specs::Loops::loops), unfolding(crate::specs::Passes::pass_of))]
fn pass<const ROWS: usize, const STEP: usize, const FROM: usize, const TO: usize>(
    z: &mut [f64; 1024],
    table: &[f64; 514],
    inverse: bool,
)
    requires all_quads { ROWS * STEP ≡ 64 }
    requires halves { (FROM ≤ 512) × (TO ≤ 512) }
    ensures { z.new ≡ pass_of table.now inverse ROWS STEP FROM TO z.old }
{
    for j in 0..ROWS {
        let w = turns_at(table, STEP * j, inverse);
        row::<STEP, FROM, TO>(z, j, w);
    }
}

#[tactic(auto, unfolding(crate::specs::Passes::passes))]
pub fn all_passes(z: &mut [f64; 1024], table: &[f64; 514], inverse: bool)
    ensures { z.new ≡ passes table.now inverse z.old }
{
    pass::<1, 64, 0, 512>(z, table, inverse);
    pass::<4, 16, 512, 0>(z, table, inverse);
    pass::<16, 4, 0, 512>(z, table, inverse);
    pass::<64, 1, 512, 0>(z, table, inverse);
}
