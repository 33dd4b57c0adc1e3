// Settled sheets: under the plan U each is carried out both ways, of the other plans on a bench.
use crate::sheets::{
    ACCEPTED, BLANK, BenchRows, NOT_ACCEPTED, both_ways, each_both_ways, each_on_a_bench, sheet_of,
};
use carry::Outcome;
use std::fmt::Write;
use std::test::Fail;

#[test]
fn lots_on_and_beside_the_limit(rt: HostRuntime) -> Result<(), Fail> {
    each_both_ways(
        &rt,
        &[
            ("U4,100,1500 D7 R101 R101 R101 R103", ACCEPTED),
            ("U4,100,1501 D7 R101 R101 R101 R103", NOT_ACCEPTED),
            ("U2,10,2000 D1 R10 R10", ACCEPTED),
            ("U2,10,2000 D1 R10 R20", NOT_ACCEPTED),
            ("U2,100,0 D1 R90 R90", NOT_ACCEPTED),
            ("U4,100,1500 D7 R101 D8 R103 D7 R101 R101", ACCEPTED),
        ],
    )
}

#[test]
fn refusals_of_a_plan_and_its_constants(rt: HostRuntime) -> Result<(), Fail> {
    each_both_ways(
        &rt,
        &[
            ("U4,2001,1500 D7 R101", Err((5, 1))),
            ("U4,-2001,1500 D7 R101", Err((5, 1))),
            ("U4,100,4001 D7 R101", Err((5, 1))),
            ("U60,100,-1 X", Err((5, 1))),
            ("U1,100,1500 D7 R101", Err((6, 1))),
            ("U51,100,1500 D7 X", Err((6, 1))),
            ("U0,100,1500 D7", Err((6, 1))),
            ("U-4,100,1500 D7", Err((6, 1))),
        ],
    )
}

#[test]
fn refusals_of_the_form(rt: HostRuntime) -> Result<(), Fail> {
    each_both_ways(
        &rt,
        &[
            ("U4,100 D7", Err((3, 1))),
            ("U4,100,1500,1 D7", Err((3, 1))),
            ("U4,,1500 D7", Err((3, 1))),
            ("U4,100,1500 D07", Err((3, 2))),
            ("U4,100,1500 D", Err((3, 2))),
            ("U4,100,1500 X7", Err((3, 2))),
            ("U4,100,1500 D12345678", Err((3, 2))),
            ("U4,100,1500 D7 R-0", Err((3, 3))),
            ("U4,100,1500 D7 R+5", Err((3, 3))),
            ("A5,1 D7 M", Err((3, 3))),
            ("V3 D7 P5", Err((3, 3))),
        ],
    )
}

#[test]
fn refusals_of_the_order(rt: HostRuntime) -> Result<(), Fail> {
    each_both_ways(
        &rt,
        &[
            ("D7 R101", Err((4, 1))),
            ("U4,100,1500 R101", Err((4, 2))),
            ("U4,100,1500 D7 U4,100,1500", Err((4, 3))),
            ("U4,100,1500 D7 P1,2", Err((4, 3))),
            ("U4,100,1500 D7 M+", Err((4, 3))),
            ("A5,1 D7 R101", Err((4, 3))),
            ("V3 P5,3", Err((4, 2))),
        ],
    )
}

#[test]
fn refusals_of_what_is_booked(rt: HostRuntime) -> Result<(), Fail> {
    each_both_ways(
        &rt,
        &[
            ("U4,100,1500 D0 X", Err((9, 2))),
            ("U4,100,1500 D256 R101", Err((9, 2))),
            ("U4,100,1500 D-7 R101", Err((9, 2))),
            ("U4,100,1500 D255 R2001", Err((14, 3))),
            ("U4,100,1500 D7 R-2001", Err((14, 3))),
            ("U2,10,0 D1 R10 D2 R10 R10", Err((16, 6))),
            ("U2,10,0 D1 R10 R10 R2001", Err((14, 5))),
            ("U4,100,1500 D7 R101 R101 R101", Err((17, 0))),
            ("U4,100,1500", Err((17, 0))),
        ],
    )
}

#[test]
fn at_most_64_drums(rt: HostRuntime) -> Result<(), Fail> {
    let heap = rt.alloc();
    let mut drums = String::from_str(heap, "U2,0,0")?;
    for name in 1..=64 {
        write!(drums, " D{name}")?;
    }
    let one_more = format!(in heap; "{drums} D65")?;
    let booked = format!(in heap; "{drums} R0 D1 R0")?;
    each_both_ways(
        &rt,
        &[
            (one_more.as_str(), Err((11, 66))),
            (booked.as_str(), ACCEPTED),
        ],
    )
}

#[test]
fn refusals_of_the_table(rt: HostRuntime) -> Result<(), Fail> {
    let zeros = vec![in rt.alloc(); 0; 65_536]?;
    both_ways(&rt, &[], Err((1, 0)), "no byte");
    both_ways(&rt, &[0], Err((1, 0)), "half a count");
    both_ways(&rt, &[0, 0], Err((1, 0)), "no entry");
    both_ways(&rt, &[0, 1, 0, 6, 0], Err((1, 0)), "a part of a table");
    both_ways(&rt, &zeros, Err((1, 0)), "a byte too many");
    let sheet = [0, 1, 0, 5, 0, 2, 86, 51];
    both_ways(&rt, &sheet, Err((2, 1)), "an entry in the table");
    let sheet = [0, 1, 0, 6, 0, 3, 86, 51];
    both_ways(&rt, &sheet, Err((2, 1)), "an entry past the end");
    let sheet = [0, 1, 0, 6, 0, 0, 86, 51];
    both_ways(&rt, &sheet, Err((2, 1)), "an empty entry");
    let sheet = [1, 0, 0, 6, 0, 2, 86, 51];
    both_ways(&rt, &sheet, Err((1, 0)), "256 entries");
    let sheet = [
        0, 2, 0, 10, 0, 6, 0, 15, 0, 2, 85, 50, 44, 48, 44, 48, 68, 49,
    ];
    both_ways(&rt, &sheet, Err((2, 2)), "entries that share a byte");
    each_both_ways(
        &rt,
        &[
            (
                "V3 1111111111111111111111111111111111111111111111111",
                Err((2, 2)),
            ),
            (
                "V3 111111111111111111111111111111111111111111111111",
                Err((3, 2)),
            ),
        ],
    )
}

// One byte that no entry covers before each of the four.
#[test]
fn bytes_between_entries_are_not_read(rt: HostRuntime) {
    let sheet = [
        0, 4, 0, 19, 0, 7, 0, 27, 0, 2, 0, 30, 0, 3, 0, 34, 0, 3, 63, 85, 50, 44, 49, 48, 44, 48,
        63, 68, 49, 63, 82, 49, 48, 63, 82, 49, 50,
    ];
    both_ways(&rt, &sheet, ACCEPTED, "a sheet with bytes between");
}

// In the report of the plan U, and on a bench's pages.
#[test]
fn drums_in_the_order_of_first_naming(rt: HostRuntime) -> Result<(), Fail> {
    let sheet = sheet_of(rt.alloc(), "U4,0,0 D3 R1 D2 R1 D3 R1 R1")?;
    let Outcome::Judged(report) = carry::carry(rt.alloc(), &sheet)? else {
        return Err(Fail::new("not judged"));
    };
    assert_eq!(rt; report.n, 4);
    assert_eq!(rt; report.drums.len(), 2);
    assert_eq!(rt; (report.drums[0].name, report.drums[0].count), (3, 3));
    assert_eq!(rt; (report.drums[1].name, report.drums[1].count), (2, 1));
    let mut rows = BenchRows::blank();
    let lot = rows.carry(&sheet)?;
    assert_eq!(rt; lot.plan.letter(), 85);
    assert_eq!(rt; (rows.singles[0].name, rows.singles[0].numbers.n), (3, 3));
    assert_eq!(rt; (rows.singles[1].name, rows.singles[1].numbers.n), (2, 1));
    assert_eq!(rt; rows.singles[2].name, 0);
    Ok(())
}

#[test]
fn entries_before_a_refused_one_stay(rt: HostRuntime) -> Result<(), Fail> {
    let sheet = sheet_of(rt.alloc(), "W3,0,9,0 D3 R1 D2 R2001")?;
    let mut rows = BenchRows::blank();
    assert!(rt; rows.carry(&sheet).is_err());
    assert_eq!(rt; (rows.doubles[0].name, rows.doubles[0].numbers.0.n), (3, 1));
    assert_eq!(rt; (rows.doubles[1].name, rows.doubles[1].numbers.1.n), (2, 0));
    assert_eq!(rt; rows.doubles[2].name, 0);
    Ok(())
}

#[test]
fn other_plans_are_read_and_left(rt: HostRuntime) -> Result<(), Fail> {
    let sheet = sheet_of(rt.alloc(), "K4,100,1,1500 D7 R101")?;
    let Outcome::NotYet(plan) = carry::carry(rt.alloc(), &sheet)? else {
        return Err(Fail::new("judged"));
    };
    assert_eq!(rt; plan.letter(), 75);
    each_both_ways(&rt, &[("W4,100,103,1500 D7 R1,1", Err((3, 3)))])
}

#[test]
fn lots_under_the_other_plans(rt: HostRuntime) -> Result<(), Fail> {
    each_on_a_bench(
        &rt,
        &[
            ("K4,100,1,1500 D7 R101 R101 R101 R103", ACCEPTED),
            ("K4,100,1,1501 D7 R101 R101 R101 R103", NOT_ACCEPTED),
            ("K1,-5,0,0 D7 R-5", ACCEPTED),
            ("W4,100,103,1500 D7 R101 R101 D8 R101 R103", ACCEPTED),
            ("W4,100,102,1500 D7 R101 R101 R101 R103", NOT_ACCEPTED),
            ("T4,100 D7 R101 R101 R101 R103", NOT_ACCEPTED),
            ("T3,1 D7 R2 R0 R1", ACCEPTED),
            ("V3 D7 P5,3 P7,7 P6,5", ACCEPTED),
            ("V3 D7 P5,0 P7,2 P6,1", NOT_ACCEPTED),
        ],
    )
}

#[test]
fn lots_on_marks(rt: HostRuntime) -> Result<(), Fail> {
    each_on_a_bench(
        &rt,
        &[
            ("A5,1 D7 M+ M+ M- M+ M+", ACCEPTED),
            ("A5,1 D7 M+ M- D8 M- M+ M+", NOT_ACCEPTED),
            ("A1,0 D7 M+", ACCEPTED),
            ("G4,101,102,1 D7 R101 R101 R101 R103", ACCEPTED),
            ("G4,101,102,0 D7 R101 R101 R101 R103", NOT_ACCEPTED),
        ],
    )
}

#[test]
fn refusals_of_the_other_plans(rt: HostRuntime) -> Result<(), Fail> {
    each_on_a_bench(
        &rt,
        &[
            ("K4,100,-1,1500 D7", Err((5, 1))),
            ("K0,100,1,1500 D7", Err((6, 1))),
            ("W4,103,100,1500 D7", Err((5, 1))),
            ("W4,100,2001,1500 D7", Err((5, 1))),
            ("W1,100,103,1500 D7", Err((6, 1))),
            ("A5,50 D7", Err((5, 1))),
            ("A5,5 D7", Err((6, 1))),
            ("G4,102,101,0 D7", Err((5, 1))),
            ("G51,101,102,0 D7", Err((6, 1))),
            ("T1,0 D7", Err((5, 1))),
            ("T22,0 D7", Err((5, 1))),
            ("V22 D7", Err((5, 1))),
        ],
    )
}

#[test]
fn refusals_of_readings_pairs_and_marks(rt: HostRuntime) -> Result<(), Fail> {
    each_on_a_bench(
        &rt,
        &[
            ("W2,0,1,0 D7 R-2001", Err((14, 3))),
            ("G2,0,1,0 D7 R2001", Err((14, 3))),
            ("V3 D7 P2001,1", Err((14, 3))),
            ("V3 D7 P2000,-1", Err((14, 3))),
            ("V2 D7 P5,3 P7,7 P6,5", Err((16, 5))),
            ("A1,0 D7 M+ M+", Err((16, 4))),
            ("A5,1 D7 M+ M+", Err((17, 0))),
        ],
    )
}
