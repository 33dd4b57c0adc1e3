// Student's fractiles.
ghost use Rattle.std.specs.Prelude.{◌≡◌, ◌≤◌};
ghost use Rattle.criteria.specs.Student.{Falling, student, students};

// The most degrees of freedom that the table has.
const MOST: u32 = 20;

// The fractiles for 1 degree of freedom and more, in thousandths: a table, as the rules print them.
const FRACTILES: [u32; 20] = [
    6_314, 2_920, 2_353, 2_132, 2_015, 1_943, 1_895, 1_860, 1_833, 1_812, 1_796, 1_782, 1_771,
    1_761, 1_753, 1_746, 1_740, 1_734, 1_729, 1_725,
];

// The fractile for so many degrees of freedom, in thousandths. It answers for any number, with 0 where the table has
// none, so that it cannot fail: the mean asks within the table.
pub fn fractile(degrees: u32) -> u32
    ensures value { result ≡ student degrees }
    ensures size { result ≤ 6314 }
    ensures falling { Falling students }
{
    if (1..=MOST).contains(&degrees) {
        FRACTILES[degrees as usize - 1]
    } else {
        0
    }
}
