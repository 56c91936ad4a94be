// Computes combinations and distances of signed numbers, specified on the integers.
// `proofs/Parts.antt` has the laws of ℤ, `proofs/Distances.antt` those of order and distance.

#![tactic(auto)]

ghost use Rattle.std.specs.Prelude.{◌≡◌, ◌≤◌, nat_abs, ◌+ℤ◌, ◌-ℤ◌, ◌*ℤ◌};

// a x + b y for |a|, |b| ≤ 1.
pub fn combine(a: i32, b: i32, x: i16, y: i16) -> i32
    requires { (nat_abs a ≤ 1) × (nat_abs b ≤ 1) }
    ensures { result ≡ a *ℤ x +ℤ b *ℤ y }
{
    a * i32::from(x) + b * i32::from(y)
}

// |x − y|.
pub fn distance(x: i32, y: i32) -> usize
    ensures { result ≡ nat_abs (x -ℤ y) }
{
    x.abs_diff(y) as usize
}
