// A microphone's part of a block: document 01's steps 2, 3 and 5 to 9. A condition of a step goes to it as a `bool`, so that nothing
// branches here.
ghost use Rattle.std.specs.Prelude.{◌≡◌, [], ◌≤◌, ◌*◌, length};
ghost use Rattle.tau_spectra.specs.FarRing.{ring_in};
ghost use Rattle.tau_filter.specs.Left.{estimated_of};
ghost use Rattle.tau_update.specs.Update.{updated};
ghost use Rattle.tau_block.specs.Block.{listen};
ghost use Rattle.tau_block.specs.Groups.{filtered, compares, delivered};
ghost use Rattle.tau_block.specs.Given.{playing_in, block_in};
ghost use Rattle.tau_block.specs.Left.{filtered_of, judgement_of, updated_of, delivered_of, listened_of, FiltersOnly, JudgesOnly, UpdatesOnly, DeliversOnly};

use crate::given::{MicBlock, Played};
use tau_detector::detector::double_talk_block;
use tau_filter::filter::{Checked, output_estimate, shadow_estimate};
use tau_guard::guard::guard;
use tau_guard::powers::host_powers;
use tau_paths::paths::{Compared, Conditions, compare};
use tau_spectra::transform::Transform;
use tau_state::report::Told;
use tau_state::state::{DTD_ESTABLISH_BLOCKS, Mic};
use tau_state::sums::energy;
use tau_suppressor::suppressor::suppress;
use tau_update::update::adapt_shadow;

#[derive(Clone, Copy)]
pub struct BothChecked {
    pub shadow: Checked,
    pub output: Checked,
}

// The spectrum of the output's estimate, and the shadow's estimate with its error.
#[derive(Clone, Copy)]
pub struct Estimates {
    pub bins: [f64; 514],
    pub estimate: [f32; 256],
    pub shadow_error: [f32; 256],
}

// Steps 2 and 3.
#[tactic(auto, unfolding(crate::specs::Groups::filtered))]
fn filter(
    transform: &Transform,
    scratch: &mut [f64; 1024],
    played: &Played,
    given: &MicBlock,
    mic: &mut Mic,
    estimates: &mut Estimates,
    error: &mut [f32; 256],
    shadow: &mut [f64],
    output: &mut [f64],
) -> BothChecked
    requires shadow_len { length shadow.old ≡ 514 * played.now.ring.partitions }
    requires output_len { length output.old ≡ 514 * played.now.ring.partitions }
    ensures filtered { filtered_of result mic.new estimates.new error.new shadow.new output.new ≡ filtered (ring_in played.now.ring) given.now.near.now mic.old shadow.old output.old }
    ensures others_stay { FiltersOnly mic.old mic.new }
{
    BothChecked {
        shadow: shadow_estimate(
            transform,
            scratch,
            &played.ring,
            given.near,
            &mut mic.paths,
            &mut mic.divergence_resets,
            &mut estimates.bins,
            &mut estimates.estimate,
            &mut estimates.shadow_error,
            shadow,
        ),
        output: output_estimate(
            transform,
            scratch,
            &played.ring,
            given.near,
            &mut mic.paths,
            &mut mic.suppressor,
            &mut mic.divergence_resets,
            &mut estimates.bins,
            error,
            shadow,
            output,
        ),
    }
}

// Step 5. A flush, a divergence, a far end that does not drive the block: each keeps the two paths as they are.
#[tactic(auto, unfolding(crate::specs::Groups::compares))]
fn judge(
    played: &Played,
    given: &MicBlock,
    near_energy: f64,
    checked: &BothChecked,
    mic: &mut Mic,
    estimates: &Estimates,
    error: &[f32; 256],
    shadow: &mut [f64],
    output: &mut [f64],
) -> Compared
    requires { length shadow.old ≡ length output.old }
    ensures judged { judgement_of result mic.new shadow.new output.new ≡ compares given.now.adapt played.now.active given.now.near.now near_energy given.now.valid (filtered_of checked.now mic.old estimates.now error.now shadow.old output.old) mic.old }
    ensures others_stay { JudgesOnly mic.old mic.new }
{
    let MicBlock { near, valid, adapt } = *given;
    double_talk_block(
        &mut mic.detector,
        played.active,
        near_energy,
        near,
        &estimates.estimate,
        valid,
    );
    let asked = Conditions {
        flushing: !adapt,
        diverged: checked.output.diverged,
        far_is_active: played.active,
        established: DTD_ESTABLISH_BLOCKS <= mic.detector.dtd_blocks,
    };
    let quiet = !mic.detector.dtd_collapsed & !mic.detector.protect_output;
    compare(
        asked,
        quiet,
        &estimates.shadow_error,
        error,
        valid,
        &mut mic.paths,
        &mut mic.transfers,
        shadow,
        output,
    )
}

// Step 6.
fn update(
    transform: &Transform,
    scratch: &mut [f64; 1024],
    adapts: bool,
    played: &Played,
    shadow_error: &[f32; 256],
    mic: &mut Mic,
    shadow: &mut [f64],
) -> u32
    requires { length shadow.old ≡ 514 * played.now.ring.partitions }
    ensures updated { updated_of result mic.new shadow.new ≡ updated adapts (ring_in played.now.ring) played.now.far_power.now shadow_error.now mic.old.detector.step_scale mic.old.far_power_mean mic.old.paths mic.old.divergence_resets shadow.old }
    ensures others_stay { UpdatesOnly mic.old mic.new }
{
    adapt_shadow(
        transform,
        scratch,
        adapts,
        &played.ring,
        played.far_power,
        shadow_error,
        mic.detector.step_scale,
        &mut mic.far_power_mean,
        &mut mic.paths,
        &mut mic.divergence_resets,
        shadow,
    )
}

// Steps 7, 8 and 9. How many samples of the suppressor's inverse went over.
#[tactic(auto, unfolding(crate::specs::Groups::delivered))]
fn deliver(
    transform: &Transform,
    scratch: &mut [f64; 1024],
    suppresses: bool,
    given: &MicBlock,
    near_energy: f64,
    checked: &BothChecked,
    bins: &[f64; 514],
    mic: &mut Mic,
    block: &mut [f32; 256],
    output: &mut [f64],
) -> u32
    ensures delivered { delivered_of result mic.new block.new output.new ≡ delivered suppresses mic.old.detector.protect_output given.now.near.now near_energy given.now.valid (estimated_of checked.now.output mic.old.paths mic.old.suppressor mic.old.divergence_resets bins.now block.old [] []) mic.old mic.old.paths mic.old.divergence_resets output.old }
    ensures others_stay { DeliversOnly mic.old mic.new }
{
    let protect = mic.detector.protect_output;
    let overs = suppress(
        transform,
        scratch,
        suppresses,
        protect,
        bins,
        &mut mic.suppressor,
        block,
    );
    guard(
        given.near,
        near_energy,
        given.valid,
        &mut mic.guard,
        &mut mic.suppressor,
        &mut mic.paths,
        &mut mic.divergence_resets,
        block,
        output,
    );
    host_powers(given.near, block, given.valid, &mut mic.powers);
    overs
}

// A microphone on what was heard: steps 2, 3 and 5 to 9.
pub fn run_mic(
    transform: &Transform,
    scratch: &mut [f64; 1024],
    flagged: bool,
    played: &Played,
    given: &MicBlock,
    mic: &mut Mic,
    block: &mut [f32; 256],
    shadow: &mut [f64],
    output: &mut [f64],
) -> Told
    requires shadow_len { length shadow.old ≡ 514 * played.now.ring.partitions }
    requires output_len { length output.old ≡ 514 * played.now.ring.partitions }
    ensures { listened_of mic.new block.new result shadow.new output.new ≡ listen flagged (playing_in played.now) (block_in given.now) (record { mic = mic.old; shadow = shadow.old; output = output.old }) }
{
    let mut heard = Estimates {
        bins: [0.0f64; 514],
        estimate: [0.0f32; 256],
        shadow_error: [0.0f32; 256],
    };
    let near_energy = energy(given.near, given.valid);
    let checked = filter(
        transform, scratch, played, given, mic, &mut heard, block, shadow, output,
    );
    let compared = judge(
        played,
        given,
        near_energy,
        &checked,
        mic,
        &heard,
        block,
        shadow,
        output,
    );
    let sound = !checked.output.diverged;
    let adapts = given.adapt & sound & !checked.shadow.diverged & !compared.rescued;
    let update_overs = update(
        transform,
        scratch,
        adapts,
        played,
        &heard.shadow_error,
        mic,
        shadow,
    );
    let suppresses = flagged & played.sounded & sound;
    let overs = deliver(
        transform,
        scratch,
        suppresses,
        given,
        near_energy,
        &checked,
        &heard.bins,
        mic,
        block,
        output,
    );
    Told {
        reason: compared.reason,
        overs: checked.shadow.overs + checked.output.overs + update_overs + overs,
    }
}
