// A window of 512 samples that slides by a block of 256. Loops: for std's copy_within the host library would need C's memmove.
ghost use Rattle.std.specs.Prelude.{◌≡◌};
ghost use Rattle.tau_spectra.specs.Windows.{slid};

pub fn slide(window: &mut [f32; 512], block: &[f32; 256])
    ensures { window.new ≡ slid window.old block.now }
{
    for i in 0..256 {
        window[i] = window[256 + i];
    }
    for j in 0..256 {
        window[256 + j] = block[j];
    }
}
