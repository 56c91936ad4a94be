// Converts, tests and clamps f32 values, specified for every bit pattern and every value.
// `proofs/` bounds the rounding errors of sums and products, in integer multiples of 2⁻¹⁴⁹ (`specs/Units.antt`).

#![tactic(auto)]

ghost use Rattle.std.specs.Prelude.{◌≡◌};
ghost use Rattle.std.specs.Float.{binary32};
ghost use Rattle.std.specs.Float.Ieee.{nan_bits, of_bits, to_bits};
ghost use Rattle.std.specs.Float.Ieee.Scale.{finite};
ghost use Rattle.floats.specs.Units.{clamp01};

// Neither infinite nor NaN.
#[tactic(auto, using(crate::proofs::Finite::same_finite))]
pub fn is_finite(x: f32) -> bool
    ensures { result ≡ finite x }
{
    x.is_finite()
}

fn is_nan_pattern(bits: u32) -> bool
    ensures { result ≡ nan_bits binary32 bits }
{
    0x7F80_0000 < bits % 0x8000_0000
}

// The exponent field is not all ones. One comparison; `is_finite(from_bits(bits))` also tests for a NaN.
pub fn is_finite_pattern(bits: u32) -> bool
    ensures { result ≡ finite (of_bits binary32 bits) }
{
    bits % 0x8000_0000 < 0x7F80_0000
}

// The value of a bit pattern. All NaN patterns are one value.
pub fn from_bits(bits: u32) -> f32
    ensures { result ≡ of_bits binary32 bits }
{
    if is_nan_pattern(bits) {
        return f32::NAN;
    }
    f32::from_bits(bits)
}

// The bit pattern of a value; 7FC00000 for NaN.
pub fn to_bits(x: f32) -> u32
    ensures { result ≡ to_bits binary32 x }
{
    if x.is_nan() {
        return 0x7FC0_0000;
    }
    x.to_bits()
}

// x.clamp(0.0, 1.0): NaN stays NaN.
pub fn clamp01(x: f32) -> f32
    ensures { result ≡ clamp01 x }
{
    x.clamp(0.0, 1.0)
}
