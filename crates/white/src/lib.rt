// A page's white point (2026-05), and its limits.
#![tactic(auto)]

ghost use Rattle.std.specs.Prelude.{◌≡◌};
ghost use Rattle.white.specs.Whites.{tenths_fit, white_fits, same_white};

const LEAST_TENTHS: u64 = 10;

const MOST_TENTHS: u64 = 1000;

// Whether W is within the limits.
#[tactic(auto, unfolding(crate::specs::Whites::tenths_fit))]
pub fn tenths_fit(tenths: u64) -> bool
    ensures { result ≡ tenths_fit tenths }
{
    LEAST_TENTHS <= tenths && tenths <= MOST_TENTHS
}

// Whether a page may have this white point: none, or W, which is ten times the white point.
#[tactic(auto, unfolding(crate::specs::Whites::white_fits))]
pub fn white_fits(white: Option<u64>) -> bool
    ensures { result ≡ white_fits white }
{
    white.is_none_or(tenths_fit)
}

// Whether two pages have the same white point, or both none: the rule has this name.
#[tactic(auto, unfolding(crate::specs::Whites::same_white))]
pub fn same_white(a: Option<u64>, b: Option<u64>) -> bool
    ensures { result ≡ same_white a b }
{
    a == b
}
