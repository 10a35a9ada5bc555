// A complex number by value. Number i of a buffer that holds complex numbers part by part is `get_c`, `put_c` in specs/Complexes.
#![tactic(auto)]

ghost use Rattle.complex.specs.Promises.{New, Conj, Add, Sub, Mul, Scale};

use std::ops;

#[derive(Debug, Clone, Copy, PartialEq)]
pub struct Complex {
    pub re: f64,
    pub im: f64,
}

impl ops::Add for Complex {
    type Output = Complex;

    ghost add_gives = { Add };

    fn add(self, other: Complex) -> Complex {
        Complex {
            re: self.re + other.re,
            im: self.im + other.im,
        }
    }
}

impl ops::Sub for Complex {
    type Output = Complex;

    ghost sub_gives = { Sub };

    fn sub(self, other: Complex) -> Complex {
        Complex {
            re: self.re - other.re,
            im: self.im - other.im,
        }
    }
}

impl ops::Mul for Complex {
    type Output = Complex;

    ghost mul_gives = { Mul };

    // Two products a part, so that nothing can be fused.
    fn mul(self, other: Complex) -> Complex {
        Complex {
            re: self.re * other.re - self.im * other.im,
            im: self.re * other.im + self.im * other.re,
        }
    }
}

impl Complex {
    pub const ZERO: Complex = Complex { re: 0.0, im: 0.0 };

    pub fn new(re: f64, im: f64) -> Complex
        ensures { New re im result }
    {
        Complex { re, im }
    }

    pub fn conj(self) -> Complex
        ensures { Conj self result }
    {
        Complex {
            re: self.re,
            im: -self.im,
        }
    }

    pub fn add(self, other: Complex) -> Complex
        ensures { Add self other result }
    {
        self + other
    }

    pub fn sub(self, other: Complex) -> Complex
        ensures { Sub self other result }
    {
        self - other
    }

    pub fn mul(self, other: Complex) -> Complex
        ensures { Mul self other result }
    {
        self * other
    }

    pub fn scale(self, factor: f64) -> Complex
        ensures { Scale self factor result }
    {
        Complex {
            re: self.re * factor,
            im: self.im * factor,
        }
    }
}
