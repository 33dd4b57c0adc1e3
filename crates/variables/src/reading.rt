// What a reading is.
ghost use Rattle.std.specs.Prelude.{◌≡◌};
ghost use Rattle.variables.specs.Sums.{reading};

const LOWEST: i32 = -2_000;

const HIGHEST: i32 = 2_000;

// Whether the number is a reading.
pub fn is_reading(r: i32) -> bool
    ensures { result ≡ reading r }
{
    (LOWEST..=HIGHEST).contains(&r)
}
