// The ranges of a plan's constants.
ghost use Rattle.std.specs.Prelude.{◌≡◌};
ghost use Rattle.criteria.specs.Criteria.{deviation, factor};

// The greatest factor of a plan, in thousandths.
const GREATEST_FACTOR: i32 = 4_000;

// The greatest deviation that a plan may know.
const GREATEST_DEVIATION: i32 = 2_000;

// Whether k is the factor of a plan.
pub(crate) fn is_factor(k: i32) -> bool
    ensures { result ≡ factor k }
{
    (0..=GREATEST_FACTOR).contains(&k)
}

// Whether sigma is a deviation that a plan may know.
pub(crate) fn is_deviation(sigma: i32) -> bool
    ensures { result ≡ deviation sigma }
{
    (0..=GREATEST_DEVIATION).contains(&sigma)
}
