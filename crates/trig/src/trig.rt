// Sine and cosine in a fixed order of operations, with no fused multiply-add, so that a table of them has the same bits everywhere.
ghost use Rattle.std.specs.Prelude.{◌≡◌};
ghost use Rattle.std.specs.List.{fold};
ghost use Rattle.trig.specs.Trig.{◌⊕◌, ◌⊗◌, turns, reduced, fold_sin, sin_poly, cos_poly};
ghost use Rattle.trig.specs.Promises.{DetSin, DetCos};

const PI: f64 = 3.14159265358979323846264338327950288;

// A full turn.
const TWO_PI: f64 = 2.0 * PI;

// Where the range is folded.
const HALF_PI: f64 = 0.5 * PI;

// a11, and a10, .. a0, the odd coefficients a_k = (-1)^k / (2k + 1)!
const SINE_LEADING: f64 = -1.0 / 25_852_016_738_884_976_640_000.0;

const SINE: [f64; 11] = [
    1.0 / 51_090_942_171_709_440_000.0,
    -1.0 / 121_645_100_408_832_000.0,
    1.0 / 355_687_428_096_000.0,
    -1.0 / 1_307_674_368_000.0,
    1.0 / 6_227_020_800.0,
    -1.0 / 39_916_800.0,
    1.0 / 362_880.0,
    -1.0 / 5_040.0,
    1.0 / 120.0,
    -1.0 / 6.0,
    1.0,
];

// b11, and b10, .. b0, the even coefficients b_k = (-1)^k / (2k)!
const COSINE_LEADING: f64 = -1.0 / 1_124_000_727_777_607_680_000.0;

const COSINE: [f64; 11] = [
    1.0 / 2_432_902_008_176_640_000.0,
    -1.0 / 6_402_373_705_728_000.0,
    1.0 / 20_922_789_888_000.0,
    -1.0 / 87_178_291_200.0,
    1.0 / 479_001_600.0,
    -1.0 / 3_628_800.0,
    1.0 / 40_320.0,
    -1.0 / 720.0,
    1.0 / 24.0,
    -1.0 / 2.0,
    1.0,
];

// Horner's method: the polynomial in r2 with these coefficients, from the leading one down.
fn horner(leading: f64, rest: &[f64], r2: f64) -> f64
    ensures { result ≡ fold (λ p a. p ⊗ r2 ⊕ a) leading rest.now }
{
    rest.iter().fold(leading, |p, a| p * r2 + *a)
}

// `(x / TWO_PI).round()` for the angles from -pi to 0, the only ones that the tables have. The sign of the zero counts: +0.0 would
// give the sine of entry 0 as -0.0. Any other x has the same rule, so nothing is asked of x.
fn turns(x: f64) -> f64
    ensures { result ≡ turns x }
{
    if x / TWO_PI == -0.5 { -1.0 } else { -0.0 }
}

// Reduce to [-pi, pi].
fn reduced(x: f64) -> f64
    ensures { result ≡ reduced x }
{
    let k = turns(x);
    x - k * TWO_PI
}

// Fold into [-pi/2, pi/2]: sin(pi - r) = sin(r), sin(-pi - r) = sin(r).
fn fold_sin(r: f64) -> f64
    ensures { result ≡ fold_sin r }
{
    if r > HALF_PI {
        return PI - r;
    }
    if r < -HALF_PI {
        return -PI - r;
    }
    r
}

// The Taylor polynomial through r^23.
fn sin_poly(r: f64) -> f64
    ensures { result ≡ sin_poly r }
{
    horner(SINE_LEADING, &SINE, r * r) * r
}

// Sine of x in radians, for x from -pi to 0. For any other x it is the same steps, which then do not reduce x.
pub fn det_sin(x: f64) -> f64
    ensures { DetSin x result }
{
    sin_poly(fold_sin(reduced(x)))
}

// The Taylor polynomial through r^22.
fn cos_poly(r: f64) -> f64
    ensures { result ≡ cos_poly r }
{
    horner(COSINE_LEADING, &COSINE, r * r)
}

// Cosine of x in radians, for the same x as det_sin. det_cos(0) is exactly 1.0.
pub fn det_cos(x: f64) -> f64
    ensures { DetCos x result }
{
    // Fold into [0, pi/2]: cosine is even, and cos(r) = -cos(pi - r).
    let mut r = numbers::abs(reduced(x));
    let mut sign = 1.0;
    if r > HALF_PI {
        r = PI - r;
        sign = -1.0;
    }
    sign * cos_poly(r)
}
