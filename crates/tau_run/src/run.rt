// The block over the state, which goes on in place.
ghost use Rattle.std.specs.Prelude.{◌≡◌, ◌≤◌, ◌<◌, ◌*◌, length};
ghost use Rattle.tau_block.specs.Block.{run_block};
ghost use Rattle.tau_block.specs.Given.{block_in};
ghost use Rattle.tau_run.specs.Ran.{engine_of, ran_of};

use tau_block::{MicBlock, Played, run_mic};
use tau_spectra::far::hear;
use tau_spectra::ring::FarRing;
use tau_spectra::transform::Transform;
use tau_state::report::Told;
use tau_state::state::TauCanceller;

// The transform and its scratch are made once and lent to every step of the block.
#[tactic(auto, unfolding(tau_block::specs::Block::run_block))]
pub fn run_block(
    state: &mut TauCanceller,
    far: &[f32; 256],
    given: &MicBlock,
    block: &mut [f32; 256],
    shadow: &mut [f64],
    output: &mut [f64],
    spectra: &mut [f64],
    powers: &mut [f64],
) -> Told
    requires shadow_len { length shadow.old ≡ 514 * state.old.partitions }
    requires output_len { length output.old ≡ 514 * state.old.partitions }
    requires spectra_len { length spectra.old ≡ 514 * state.old.partitions }
    requires powers_len { length powers.old ≡ 257 * state.old.partitions }
    requires head_in_ring { state.old.far.head < state.old.partitions }
    requires at_most_32 { state.old.partitions ≤ 32 }
    ensures ran { ran_of (engine_of state.new shadow.new output.new spectra.new powers.new) block.new result ≡ run_block (engine_of state.old shadow.old output.old spectra.old powers.old) far.now (block_in given.now) }
    ensures partitions_stay { state.new.partitions ≡ state.old.partitions }
    ensures head_in_ring { state.new.far.head < state.new.partitions }
    ensures carries_stay { (state.new.carried ≡ state.old.carried) × (state.new.near_carry ≡ state.old.near_carry) × (state.new.far_carry ≡ state.old.far_carry) }
{
    let transform = Transform::new();
    let mut scratch = [0.0f64; 1024];
    let mut far_power = [0.0f64; 257];
    let active = hear(
        &transform,
        &mut scratch,
        state.partitions,
        &mut state.far,
        far,
        spectra,
        powers,
        &mut far_power,
    );
    let ring = FarRing {
        partitions: state.partitions,
        head: state.far.head,
        spectra,
    };
    let played = Played {
        ring,
        far_power: &far_power,
        sounded: state.far.far_active,
        active,
    };
    run_mic(
        &transform,
        &mut scratch,
        state.suppress,
        &played,
        given,
        &mut state.mic,
        block,
        shadow,
        output,
    )
}
