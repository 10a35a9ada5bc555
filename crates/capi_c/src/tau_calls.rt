// Tau, whose report comes as numbers.
ghost use Rattle.tau.specs.Promises.{Create, Reset};
ghost use Rattle.capi.specs.Promises.{TauProcess, TauFlush};

use capi::TauAnswer;
use tau::Started;
use tau_state::state::TauCanceller;

#[unsafe(no_mangle)]
pub extern "C" fn aspeyruni_tau_create(
    partitions: usize,
    suppress: bool,
    shadow: &mut [f64],
    output: &mut [f64],
    spectra: &mut [f64],
    powers: &mut [f64],
) -> Started
    ensures { Create partitions suppress shadow.old output.old spectra.old powers.old result shadow.new output.new spectra.new powers.new }
{
    capi::aspeyruni_tau_create(partitions, suppress, shadow, output, spectra, powers)
}

#[unsafe(no_mangle)]
pub extern "C" fn aspeyruni_tau_process(
    s: TauCanceller,
    shadow: &mut [f64],
    output: &mut [f64],
    spectra: &mut [f64],
    powers: &mut [f64],
    near: &[f32],
    far: &[f32],
    out: &mut [f32],
) -> TauAnswer
    ensures { TauProcess (record { state = s; shadow = shadow.old; output = output.old; spectra = spectra.old; powers = powers.old }) near.now far.now out.old result shadow.new output.new spectra.new powers.new out.new }
{
    capi::aspeyruni_tau_process(s, shadow, output, spectra, powers, near, far, out)
}

#[unsafe(no_mangle)]
pub extern "C" fn aspeyruni_tau_flush(
    s: TauCanceller,
    shadow: &mut [f64],
    output: &mut [f64],
    spectra: &mut [f64],
    powers: &mut [f64],
    out: &mut [f32],
) -> TauAnswer
    ensures { TauFlush (record { state = s; shadow = shadow.old; output = output.old; spectra = spectra.old; powers = powers.old }) out.old result shadow.new output.new spectra.new powers.new out.new }
{
    capi::aspeyruni_tau_flush(s, shadow, output, spectra, powers, out)
}

#[unsafe(no_mangle)]
pub extern "C" fn aspeyruni_tau_reset(
    s: TauCanceller,
    shadow: &mut [f64],
    output: &mut [f64],
    spectra: &mut [f64],
    powers: &mut [f64],
) -> Started
    ensures { Reset (record { state = s; shadow = shadow.old; output = output.old; spectra = spectra.old; powers = powers.old }) result shadow.new output.new spectra.new powers.new }
{
    capi::aspeyruni_tau_reset(s, shadow, output, spectra, powers)
}
