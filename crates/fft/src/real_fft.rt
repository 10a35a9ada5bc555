// `RealFft`: 512 samples to 257 bins and back, over the self-sorting core of the transform of 256 points. The forms that end in `_with` or
// `_parts` take the table and a scratch from the caller, who lends them once for many transforms; their meaning is stated over any table.
// What the scratch holds after a transform is nobody's business but the core's.
ghost use Rattle.std.specs.Prelude.{◌≡◌, true, false, map, ◌+◌, ◌*◌, ◌-◌, ◌%◌, ◌≤◌, length, take, drop};
ghost use Rattle.refusal.specs.Refusal.{number_in};
ghost use Rattle.numbers.specs.Narrowing.{narrow_of};
ghost use Rattle.narrow_list.specs.Overs.{over_count};
ghost use Rattle.layout.specs.Layout.{paired};
ghost use Rattle.complex_fft.specs.ComplexFft.{run_of};
ghost use Rattle.complex_fft.specs.Reversal.{reversal_table};
ghost use Rattle.self_sorting.specs.Passes.{loaded, points_of, passes};
ghost use Rattle.fft.specs.Calls.{half_of_samples};
ghost use Rattle.fft.specs.RealFft.{bin_from, bin_of, bins_of, halves_of};
ghost use Rattle.fft.specs.Parts.{half_from};
ghost use Rattle.fft.specs.Scratch.{scaled_from, points_in};
ghost use Rattle.fft.specs.Promises.{Forward, Inverse, ForwardWith, InverseWith, InverseHalfWith, RefusedKeeps, inverted_of};

use crate::bins::{Bins, Pairs, Parts};
use complex::Complex;
use complex_fft::points::{get, put};
use refusal::Refusal;
use self_sorting::{all_passes, get_split, put_split};

// The even samples are the real parts and the odd ones the imaginary: they go straight into the core's scratch.
#[tactic(auto, using(laws::specs::Loops::loops), unfolding(self_sorting::specs::Passes::loaded))]
fn load_samples(input: &[f32; 512], z: &mut [f64; 1024])
    ensures { z.new ≡ loaded input.now z.old }
{
    for i in 0..256 {
        let re = numbers::widen(input[2 * i]);
        let im = numbers::widen(input[2 * i + 1]);
        put_split(z, i, Complex::new(re, im));
    }
}

// Number k of the half-length spectrum, of bin k of the real one, of the bin at its mirror and of the table's entry k.
#[tactic(auto, unfolding(crate::specs::Parts::half_from))]
fn half_from(this: Complex, other: Complex, twiddle: Complex) -> Complex
    ensures { result ≡ half_from this other twiddle }
{
    let mirror = other.conj();
    let even = (this + mirror).scale(0.5);
    let odd = (twiddle.conj() * (this - mirror)).scale(0.5);
    Complex::new(even.re - odd.im, even.im + odd.re)
}

// The half-length spectrum, straight into the core's scratch.
#[tactic(auto, using(crate::proofs::Ends::from_halves, laws::specs::Loops::loops), unfolding(self_sorting::specs::Passes::loaded))]
fn load_halves<B: Bins>(spectrum: &[f64; 514], table: &[f64; 514], z: &mut [f64; 1024])
    ensures { z.new ≡ loaded (halves_of table.now (B.in_pairs spectrum.now)) z.old }
{
    for i in 0..256 {
        let this = B::get(spectrum, i);
        let other = B::get(spectrum, 256 - i);
        put_split(z, i, half_from(this, other, get(table, i)));
    }
}

// Bin k of the real spectrum, of number k of the half-length one, of the number at its mirror and of the table's entry k.
#[tactic(auto, unfolding(crate::specs::RealFft::bin_from))]
fn bin_from(this: Complex, other: Complex, twiddle: Complex) -> Complex
    ensures { result ≡ bin_from this other twiddle }
{
    let mirror = other.conj();
    let even = (this + mirror).scale(0.5);
    let diff = this - mirror;
    let odd = Complex::new(0.5 * diff.im, -0.5 * diff.re);
    even + twiddle * odd
}

// Bin k of the transformed points in the scratch. The places are the caller's, so that none of them is computed by a remainder.
fn bin(z: &[f64; 1024], table: &[f64; 514], k: usize, here: usize, mirror: usize) -> Complex
    requires k_bound { k ≤ 256 }
    requires places { (here ≡ k % 256) × (mirror ≡ (256 - k) % 256) }
    ensures { result ≡ bin_of table.now (points_of z.now) k }
{
    bin_from(get_split(z, here), get_split(z, mirror), get(table, k))
}

// The two ends apart: between them no place wraps around.
fn recombine<B: Bins>(z: &[f64; 1024], table: &[f64; 514], out: &mut [f64; 514])
    ensures { B.in_pairs out.new ≡ bins_of table.now (points_of z.now) }
{
    B::put(out, 0, bin(z, table, 0, 0, 0));
    for k in 1..256 {
        B::put(out, k, bin(z, table, k, k, 256 - k));
    }
    B::put(out, 256, bin(z, table, 256, 0, 0));
}

// The passes and the bins of what was loaded. The samples are not seen here: a window that goes into a large function by reference
// would cost its owner a copy.
fn transform_loaded<B: Bins>(z: &mut [f64; 1024], table: &[f64; 514], out: &mut [f64; 514])
    ensures { B.in_pairs out.new ≡ bins_of table.now (points_of (passes table.now false z.old)) }
{
    all_passes(z, table, false);
    recombine::<B>(z, table, out);
}

// n points from `first` on times 1/256, which the inverse carries whole, part by part into the scratch's second half.
#[tactic(auto, using(laws::specs::Loops::loops), unfolding(crate::specs::Scratch::scaled_from))]
fn scale_points(z: &mut [f64; 1024], first: usize, n: usize)
    requires { first + n ≤ 256 }
    ensures { z.new ≡ scaled_from first n z.old }
{
    for i in 0..n {
        let c = get_split(z, first + i);
        put(z, 256 + i, c.scale(0.00390625));
    }
}

// The points of the inverse, not yet scaled, into the scratch's first half.
fn load_points<B: Bins>(z: &mut [f64; 1024], table: &[f64; 514], spectrum: &[f64; 514])
    ensures { points_in z.new ≡ run_of table.now reversal_table true (halves_of table.now (B.in_pairs spectrum.now)) }
{
    load_halves::<B>(spectrum, table, z);
    all_passes(z, table, true);
}

// The samples of n points from `first` on: only these are narrowed. How many of them went over.
fn samples_at(z: &mut [f64; 1024], first: usize, n: usize, out: &mut [f32]) -> usize
    requires within { first + n ≤ 256 }
    requires out_len { length out.old ≡ 2 * n }
    ensures out_after { out.new ≡ take (2 * n) (drop (2 * first) (map narrow_of (points_in z.old))) }
    ensures value { result ≡ over_count (take (2 * n) (drop (2 * first) (points_in z.old))) }
{
    scale_points(z, first, n);
    let end = 512 + 2 * n;
    narrow_list::narrow_into(&z[512..end], out)
}

// How many samples of n points from `first` on would go over, where nobody needs them: they are looked at where they stand.
fn overs_at(z: &[f64; 1024], first: usize, n: usize) -> usize
    requires { first + n ≤ 256 }
    ensures { result ≡ over_count (take (2 * n) (drop (2 * first) (points_in z.now))) }
{
    let end = first + n;
    let middle = 256 + first;
    let last = middle + n;
    let re = narrow_list::overs_scaled(&z[first..end], 0.00390625);
    let im = narrow_list::overs_scaled(&z[middle..last], 0.00390625);
    re + im
}

// The first or the later half of the samples. How many of all went over.
fn half_at(z: &mut [f64; 1024], later: bool, half: &mut [f32; 256]) -> usize
    ensures half_after { half.new ≡ half_of_samples later (map narrow_of (points_in z.old)) }
    ensures value { result ≡ over_count (points_in z.old) }
{
    let (given, dropped) = if later { (128, 0) } else { (0, 128) };
    let overs = overs_at(z, dropped, 128);
    overs + samples_at(z, given, 128, half)
}

// What an inverse answers to C: 0, or 2 with nothing written where a length is wrong; and how many of its 512 samples went over.
#[repr(C)]
#[derive(Clone, Copy)]
pub struct Inverted {
    pub refusal: u32,
    pub overs: usize,
}

impl From<Result<usize, Refusal>> for Inverted {
    ghost from_gives = { λ answer inverted. inverted ≡ inverted_of answer };

    fn from(answer: Result<usize, Refusal>) -> Inverted {
        match answer {
            Ok(overs) => Inverted { refusal: 0, overs },
            Err(refusal) => Inverted {
                refusal: u32::from(refusal),
                overs: 0,
            },
        }
    }
}

// 512 samples to 257 bins. Refused, with nothing written, where a length is wrong: that is seen before the table and the scratch are made.
#[tactic(auto, using(laws::specs::Choice::choices), unfolding(crate::specs::Calls::forward_of, laws::specs::Choice::pick))]
pub fn forward(input: &[f32], out: &mut [f64]) -> Result<(), Refusal>
    ensures { Forward input.now out.old (number_in result) out.new }
{
    if input.len() != 512 {
        return Err(Refusal::WrongLength);
    }
    if out.len() != 514 {
        return Err(Refusal::WrongLength);
    }
    let table = trig::recombination();
    let mut scratch = [0.0; 1024];
    forward_with(&table, &mut scratch, input, out)
}

// 257 bins to 512 samples. How many of them went over. The lengths are seen first here too.
#[tactic(auto, using(laws::specs::Choice::choices), unfolding(crate::specs::Calls::inverse_of, laws::specs::Choice::pick))]
pub fn inverse(spectrum: &[f64], out: &mut [f32]) -> Result<usize, Refusal>
    ensures { Inverse spectrum.now out.old (inverted_of result) out.new }
{
    if spectrum.len() != 514 {
        return Err(Refusal::WrongLength);
    }
    if out.len() != 512 {
        return Err(Refusal::WrongLength);
    }
    let table = trig::recombination();
    let mut scratch = [0.0; 1024];
    inverse_with(&table, &mut scratch, spectrum, out)
}

// `forward` over a lent table and scratch, its bins as B has them.
#[tactic(auto, using(laws::specs::Choice::choices), unfolding(crate::specs::Calls::forward_with_of, crate::specs::Calls::lent_of, laws::specs::Choice::pick))]
fn forward_as<B: Bins>(
    table: &[f64],
    scratch: &mut [f64],
    samples: &[f32],
    bins: &mut [f64],
) -> Result<(), Refusal>
    ensures forward_with { ForwardWith table.now scratch.old samples.now (B.in_pairs bins.old) (number_in result) (B.in_pairs bins.new) }
    ensures refused_keeps { RefusedKeeps scratch.old (number_in result) scratch.new }
{
    let table: &[f64; 514] = table.try_into()?;
    let z: &mut [f64; 1024] = scratch.as_mut_array().ok_or(Refusal::WrongLength)?;
    let samples: &[f32; 512] = samples.try_into()?;
    let bins: &mut [f64; 514] = bins.as_mut_array().ok_or(Refusal::WrongLength)?;
    load_samples(samples, z);
    transform_loaded::<B>(z, table, bins);
    Ok(())
}

// `forward` over a lent table and scratch.
pub fn forward_with(
    table: &[f64],
    scratch: &mut [f64],
    samples: &[f32],
    bins: &mut [f64],
) -> Result<(), Refusal>
    ensures forward_with { ForwardWith table.now scratch.old samples.now bins.old (number_in result) bins.new }
    ensures refused_keeps { RefusedKeeps scratch.old (number_in result) scratch.new }
{
    forward_as::<Pairs>(table, scratch, samples, bins)
}

// `forward_with`, its bins by parts.
pub fn forward_parts(
    table: &[f64],
    scratch: &mut [f64],
    samples: &[f32],
    bins: &mut [f64],
) -> Result<(), Refusal>
    ensures forward_with { ForwardWith table.now scratch.old samples.now (paired bins.old) (number_in result) (paired bins.new) }
    ensures refused_keeps { RefusedKeeps scratch.old (number_in result) scratch.new }
{
    forward_as::<Parts>(table, scratch, samples, bins)
}

// `inverse` over a lent table and scratch.
#[tactic(auto, using(laws::specs::Choice::choices), unfolding(crate::specs::Calls::inverse_with_of, crate::specs::Calls::lent_of, laws::specs::Choice::pick))]
pub fn inverse_with(
    table: &[f64],
    scratch: &mut [f64],
    source: &[f64],
    target: &mut [f32],
) -> Result<usize, Refusal>
    ensures inverse_with { InverseWith table.now scratch.old source.now target.old (inverted_of result) target.new }
    ensures refused_keeps { RefusedKeeps scratch.old (number_in result) scratch.new }
{
    let table: &[f64; 514] = table.try_into()?;
    let points: &mut [f64; 1024] = scratch.as_mut_array().ok_or(Refusal::WrongLength)?;
    let source: &[f64; 514] = source.try_into()?;
    let target: &mut [f32; 512] = target.as_mut_array().ok_or(Refusal::WrongLength)?;
    load_points::<Pairs>(points, table, source);
    Ok(samples_at(points, 0, 256, target))
}

// The first or the later 256 samples of the inverse, over a lent table and scratch and of bins as B has them.
#[tactic(auto, using(laws::specs::Choice::choices), unfolding(crate::specs::Calls::half_with_of, crate::specs::Calls::lent_of, laws::specs::Choice::pick))]
fn half_as<B: Bins>(
    table: &[f64],
    scratch: &mut [f64],
    source: &[f64],
    later: bool,
    half: &mut [f32],
) -> Result<usize, Refusal>
    ensures inverse_half_with { InverseHalfWith table.now scratch.old (B.in_pairs source.now) later half.old (inverted_of result) half.new }
    ensures refused_keeps { RefusedKeeps scratch.old (number_in result) scratch.new }
{
    let table: &[f64; 514] = table.try_into()?;
    let all_points: &mut [f64; 1024] = scratch.as_mut_array().ok_or(Refusal::WrongLength)?;
    let source: &[f64; 514] = source.try_into()?;
    let half: &mut [f32; 256] = half.as_mut_array().ok_or(Refusal::WrongLength)?;
    load_points::<B>(all_points, table, source);
    Ok(half_at(all_points, later, half))
}

// The first or the later 256 samples of the inverse, over a lent table and scratch: who needs one half pays for one. All 512 are counted.
pub fn inverse_half_with(
    table: &[f64],
    scratch: &mut [f64],
    source: &[f64],
    later: bool,
    half: &mut [f32],
) -> Result<usize, Refusal>
    ensures inverse_half_with { InverseHalfWith table.now scratch.old source.now later half.old (inverted_of result) half.new }
    ensures refused_keeps { RefusedKeeps scratch.old (number_in result) scratch.new }
{
    half_as::<Pairs>(table, scratch, source, later, half)
}

// `inverse_half_with`, of bins by parts.
pub fn inverse_half_parts(
    table: &[f64],
    scratch: &mut [f64],
    source: &[f64],
    later: bool,
    half: &mut [f32],
) -> Result<usize, Refusal>
    ensures inverse_half_with { InverseHalfWith table.now scratch.old (paired source.now) later half.old (inverted_of result) half.new }
    ensures refused_keeps { RefusedKeeps scratch.old (number_in result) scratch.new }
{
    half_as::<Parts>(table, scratch, source, later, half)
}
