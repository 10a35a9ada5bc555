// The state as the fields of a line.
use crate::Fields;
use crate::buffers::Lent;
use cases::{Bits, Compared, halves, hash, joined};
use tau_state::state::{Detector, Far, Guard, Mic, Paths, Powers, Suppressor, TauCanceller};

/// With the arrays that creation gives. What else there is comes from a line.
pub fn fresh() -> TauCanceller {
    TauCanceller {
        partitions: 1,
        suppress: false,
        carried: 0,
        near_carry: [0.0; 256],
        far_carry: [0.0; 256],
        far: Far {
            window: [0.0; 512],
            head: 0,
            far_active: false,
            far_energy_peak: 0.0,
        },
        mic: fresh_mic(),
    }
}

// The microphone's part of that.
fn fresh_mic() -> Mic {
    Mic {
        detector: Detector {
            double_talk: false,
            dtd_collapsed: false,
            protect_output: false,
            dtd_blocks: 0,
            dtd_baseline: 0.0,
            dtd_deviation: 0.0,
            coherence_smooth: 0.0,
            step_scale: 1.0,
        },
        paths: Paths {
            shadow_error_power: 0.0,
            output_error_power: 0.0,
            quiet_streak: 0,
            rescue_streak: 0,
        },
        far_power_mean: [0.0; 257],
        suppressor: Suppressor {
            echo_power: [0.0; 257],
            error_power: [0.0; 257],
            gain: [1.0; 257],
            error_window: [0.0; 512],
        },
        guard: Guard {
            divergence_near_power: 0.0,
            divergence_out_power: 0.0,
        },
        powers: Powers {
            near_power: 0.0,
            residual_power: 0.0,
        },
        transfers: 0,
        divergence_resets: 0,
    }
}

/// The numbers of fields 11 to 27, which are in no array.
pub fn set(fields: &Fields, state: &mut TauCanceller) {
    let (partitions, carried) = halves(fields[11]);
    let (head, flags) = halves(fields[12]);
    state.partitions = partitions as usize;
    state.suppress = has(flags, 1);
    state.carried = carried as usize;
    state.far.head = head as usize;
    state.far.far_active = has(flags, 2);
    state.far.far_energy_peak = f64::from_word(fields[13]);
    set_mic(fields, &mut state.mic);
}

fn set_mic(fields: &Fields, mic: &mut Mic) {
    let (_, flags) = halves(fields[12]);
    let (dtd_blocks, rescue_streak) = halves(fields[14]);
    let (_, quiet_streak) = halves(fields[21]);
    mic.detector = Detector {
        double_talk: has(flags, 4),
        dtd_collapsed: has(flags, 8),
        protect_output: has(flags, 16),
        dtd_blocks,
        dtd_baseline: f64::from_word(fields[15]),
        dtd_deviation: f64::from_word(fields[16]),
        coherence_smooth: f64::from_word(fields[17]),
        step_scale: f64::from_word(fields[18]),
    };
    mic.paths = Paths {
        shadow_error_power: f64::from_word(fields[19]),
        output_error_power: f64::from_word(fields[20]),
        quiet_streak,
        rescue_streak,
    };
    mic.guard = Guard {
        divergence_near_power: f64::from_word(fields[22]),
        divergence_out_power: f64::from_word(fields[23]),
    };
    mic.powers = Powers {
        near_power: f64::from_word(fields[24]),
        residual_power: f64::from_word(fields[25]),
    };
    mic.transfers = fields[26];
    mic.divergence_resets = fields[27];
}

fn has(flags: u32, flag: u32) -> bool {
    (flags & flag) != 0
}

/// The state and three of the buffers beside fields 11 to 38.
pub fn compared(fields: &Fields, state: &TauCanceller, lent: &Lent) -> Compared {
    let lent = [hash(lent.shadow), hash(lent.output), hash(lent.spectra)];
    Compared::first(&numbers_of(state), &fields[11..28])
        .or(Compared::first(&hashes_of(state), &fields[28..36]))
        .or(Compared::first(&lent, &fields[36..]))
}

// Fields 11 to 27: what `set` reads.
fn numbers_of(state: &TauCanceller) -> [u64; 17] {
    let far = &state.far;
    let mic = &state.mic;
    let detector = &mic.detector;
    let paths = &mic.paths;
    [
        joined(state.partitions as u64, state.carried as u64),
        joined(far.head as u64, flags_of(state)),
        far.far_energy_peak.to_word(),
        joined(
            u64::from(detector.dtd_blocks),
            u64::from(paths.rescue_streak),
        ),
        detector.dtd_baseline.to_word(),
        detector.dtd_deviation.to_word(),
        detector.coherence_smooth.to_word(),
        detector.step_scale.to_word(),
        paths.shadow_error_power.to_word(),
        paths.output_error_power.to_word(),
        u64::from(paths.quiet_streak),
        mic.guard.divergence_near_power.to_word(),
        mic.guard.divergence_out_power.to_word(),
        mic.powers.near_power.to_word(),
        mic.powers.residual_power.to_word(),
        mic.transfers,
        mic.divergence_resets,
    ]
}

fn flags_of(state: &TauCanceller) -> u64 {
    let detector = &state.mic.detector;
    u64::from(state.suppress)
        | u64::from(state.far.far_active) << 1
        | u64::from(detector.double_talk) << 2
        | u64::from(detector.dtd_collapsed) << 3
        | u64::from(detector.protect_output) << 4
}

// Fields 28 to 35: the hashes of the state's arrays.
fn hashes_of(state: &TauCanceller) -> [u64; 8] {
    let suppressor = &state.mic.suppressor;
    [
        hash(&state.near_carry),
        hash(&state.far_carry),
        hash(&state.far.window),
        hash(&state.mic.far_power_mean),
        hash(&suppressor.echo_power),
        hash(&suppressor.error_power),
        hash(&suppressor.gain),
        hash(&suppressor.error_window),
    ]
}
