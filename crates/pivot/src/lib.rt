// The pivot: regularisation, and one value for the number, its reciprocal and whether it was shifted.
#![tactic(auto)]

ghost use Rattle.std.specs.Prelude.{◌≡◌};
ghost use Rattle.pivot.specs.Pivots.{made, pivot_of, is_zero, is_positive};

// An enum of its own, and no `Option`: the paper names its cases.
#[derive(Clone, Copy, Debug, PartialEq)]
pub enum Regularisation {
    Off,
    On { eps: f64, delta: f64 },
}

#[derive(Clone, Copy, Debug, PartialEq)]
pub struct Pivot {
    pub value: f64,
    pub reciprocal: f64,
    pub shifted: bool,
}

fn made(value: f64, shifted: bool) -> Pivot
    ensures { result ≡ made value shifted }
{
    Pivot {
        value,
        reciprocal: 1.0 / value,
        shifted,
    }
}

// The pivot that d and its sign make: shifted to delta * sign where d * sign is below eps.
#[tactic(auto, unfolding(crate::specs::Pivots::pivot_of))]
pub fn regularised(regularisation: Regularisation, sign: i8, d: f64) -> Pivot
    ensures { result ≡ pivot_of regularisation sign d }
{
    match regularisation {
        Regularisation::Off => made(d, false),
        Regularisation::On { eps, delta } => {
            let s = f64::from(sign);
            if d * s < eps {
                return made(delta * s, true);
            }
            made(d, false)
        }
    }
}

// Whether a pivot is +0 or -0.
pub fn is_zero(d: f64) -> bool
    ensures { result ≡ is_zero d }
{
    d == 0.0
}

// Whether a pivot is above zero.
pub fn is_positive(d: f64) -> bool
    ensures { result ≡ is_positive d }
{
    0.0 < d
}
