// What the engine keeps from block to block. What belongs to the loudspeaker is one part, and what belongs to a microphone another,
// so that a second microphone is a second part. Only numbers, so that the state crosses to C.

// As many far-active blocks establish the detector, and its count goes no further.
pub const DTD_ESTABLISH_BLOCKS: u32 = 64;

#[repr(C)]
#[derive(Clone, Copy)]
pub struct Far {
    pub window: [f32; 512],
    pub head: usize,
    pub far_active: bool,
    pub far_energy_peak: f64,
}

#[repr(C)]
#[derive(Clone, Copy)]
pub struct Detector {
    pub double_talk: bool,
    pub dtd_collapsed: bool,
    pub protect_output: bool,
    pub dtd_blocks: u32,
    pub dtd_baseline: f64,
    pub dtd_deviation: f64,
    pub coherence_smooth: f64,
    pub step_scale: f64,
}

#[repr(C)]
#[derive(Clone, Copy)]
pub struct Paths {
    pub shadow_error_power: f64,
    pub output_error_power: f64,
    pub quiet_streak: u32,
    pub rescue_streak: u32,
}

#[repr(C)]
#[derive(Clone, Copy)]
pub struct Suppressor {
    pub echo_power: [f64; 257],
    pub error_power: [f64; 257],
    pub gain: [f64; 257],
    pub error_window: [f32; 512],
}

#[repr(C)]
#[derive(Clone, Copy)]
pub struct Guard {
    pub divergence_near_power: f64,
    pub divergence_out_power: f64,
}

#[repr(C)]
#[derive(Clone, Copy)]
pub struct Powers {
    pub near_power: f64,
    pub residual_power: f64,
}

#[repr(C)]
#[derive(Clone, Copy)]
pub struct Mic {
    pub detector: Detector,
    pub paths: Paths,
    pub far_power_mean: [f64; 257],
    pub suppressor: Suppressor,
    pub guard: Guard,
    pub powers: Powers,
    pub transfers: u64,
    pub divergence_resets: u64,
}

// The carries stand at the top, since a call fills them in place.
#[repr(C)]
#[derive(Clone, Copy)]
pub struct TauCanceller {
    pub partitions: usize,
    pub suppress: bool,
    pub carried: usize,
    pub near_carry: [f32; 256],
    pub far_carry: [f32; 256],
    pub far: Far,
    pub mic: Mic,
}
