// The calls of a bench on rows of pages: settled examples, and a refusal of each number that a row can get.
// No row gives 15: the counts of a consistent row are together at most n, so no two pages pass n when joined.
use crate::refusal::refusal;
use crate::sheets::BLANK;
use bench::Bench;
use criteria::unknown::Unknown;
use fault::Fault;
use inspection::Inspection;
use method::verdict::Verdict;
use past::Call;
use rows::Page;
use std::ops::ControlFlow;
use std::process::Abort;
use std::test::Fail;
use variables::sums::Sums;

// A call of a bench, and the number by which it is refused, where it is.
type Asked = (Call<i32>, Option<u8>);

// The method that these tests are run for: it accepts a lot whose mean is 10 or more.
type Tried = Inspection<Unknown>;

fn tried() -> Result<Tried, Fault> {
    let criterion = Unknown::new(10, 0)?;
    Ok(Inspection { criterion })
}

fn page(name: u32, n: u32, s: i64, q: u64) -> Page<Sums> {
    Page {
        name,
        numbers: Sums { n, s, q },
    }
}

// A drum's page with one reading of 5.
fn five(name: u32) -> Page<Sums> {
    page(name, 1, 5, 25)
}

// Makes one call: the verdict on the lot that it closed, or the bench, and the number where it was refused. A past's own
// step does not keep that.
fn told(
    bench: Bench<Tried>,
    pages: &mut [Page<Sums>],
    call: Call<i32>,
) -> ControlFlow<Verdict, (Bench<Tried>, Option<u8>)> {
    let answer = match call {
        Call::Open(name) => bench.open(pages, name),
        Call::Read(name, reading) => bench.read(pages, name, reading),
        Call::Strike(name) => bench.strike(pages, name),
        Call::Pour(source, goal) => bench.pour(pages, source, goal),
        Call::Close => {
            return match bench.close(pages) {
                Ok(lot) => {
                    let verdict = lot.judge();
                    let _ = lot.into_method();
                    ControlFlow::Break(verdict)
                }
                Err((fault, bench)) => ControlFlow::Continue((bench, Some(fault.number()))),
            };
        }
    };
    ControlFlow::Continue((bench, refusal(answer)))
}

// The calls are answered as it stands beside them; the verdict, where the last of them closes the lot.
fn answered(
    rt: &impl Abort,
    mut bench: Bench<Tried>,
    pages: &mut [Page<Sums>],
    calls: &[Asked],
    what: &str,
) -> Option<Verdict> {
    for (call, expected) in calls {
        match told(bench, pages, *call) {
            ControlFlow::Break(verdict) => {
                assert_eq!(rt; None, *expected, "{}", what);
                return Some(verdict);
            }
            ControlFlow::Continue((back, answer)) => {
                assert_eq!(rt; answer, *expected, "{}", what);
                bench = back;
            }
        }
    }
    let _ = bench.into_method();
    None
}

// A bench that is set up on the row answers the calls as it stands beside them, and leaves the other row. It comes to
// the number by which setting up is refused, or to the verdict, where a lot is closed.
fn past<const K: usize>(
    rt: &impl Abort,
    n: u32,
    row: [Page<Sums>; K],
    calls: &[Asked],
    after: [Page<Sums>; K],
    came: Result<Option<Verdict>, u8>,
) -> Result<(), Fail> {
    let mut pages = row;
    let answer = match Bench::set_up(tried()?, n, &mut pages) {
        Ok(bench) => Ok(answered(rt, bench, &mut pages, calls, "a past")),
        Err((fault, _)) => Err(fault.number()),
    };
    assert_eq!(rt; answer, came);
    assert_eq!(rt; pages, after);
    Ok(())
}

// A bench that is set up elsewhere answers the call on the row, which the words tell of, and leaves the other row.
fn call_on<const K: usize>(
    rt: &impl Abort,
    n: u32,
    row: [Page<Sums>; K],
    asked: Asked,
    after: [Page<Sums>; K],
    what: &str,
) -> Result<(), Fail> {
    let mut pages = row;
    let bench = Bench::set_up(tried()?, n, &mut [BLANK]).map_err(|(fault, _)| fault)?;
    let _ = answered(rt, bench, &mut pages, &[asked], what);
    assert_eq!(rt; pages, after, "{}", what);
    Ok(())
}

// Setting a bench up is refused by the number, and leaves the row as it was.
fn not_set_up<const K: usize>(
    rt: &impl Abort,
    n: u32,
    row: [Page<Sums>; K],
    expected: u8,
) -> Result<(), Fail> {
    past(rt, n, row, &[], row, Err(expected))
}

// A bench is set up, and blanks the row.
fn is_set_up<const K: usize>(rt: &impl Abort, n: u32, row: [Page<Sums>; K]) -> Result<(), Fail> {
    past(rt, n, row, &[], [BLANK; K], Ok(None))
}

// The call is refused by the number, and leaves the row as it was.
fn refused<const K: usize>(
    rt: &impl Abort,
    n: u32,
    row: [Page<Sums>; K],
    call: Call<i32>,
    expected: u8,
) -> Result<(), Fail> {
    call_on(rt, n, row, (call, Some(expected)), row, "this row")
}

// Every call on the row, which the words tell of, is refused by the number.
fn all_refused<const K: usize>(
    rt: &impl Abort,
    n: u32,
    row: [Page<Sums>; K],
    expected: u8,
    what: &str,
) -> Result<(), Fail> {
    for call in [
        Call::Open(0),
        Call::Open(9),
        Call::Read(1, 2001),
        Call::Read(1, 5),
        Call::Strike(1),
        Call::Pour(1, 2),
        Call::Pour(1, 1),
        Call::Close,
    ] {
        call_on(rt, n, row, (call, Some(expected)), row, what)?;
    }
    Ok(())
}

// The call is granted, and leaves the other row.
fn granted<const K: usize>(
    rt: &impl Abort,
    n: u32,
    row: [Page<Sums>; K],
    call: Call<i32>,
    after: [Page<Sums>; K],
) -> Result<(), Fail> {
    call_on(rt, n, row, (call, None), after, "this row")
}

#[test]
fn a_struck_reading_does_not_count(rt: HostRuntime) -> Result<(), Fail> {
    past(
        &rt,
        2,
        [five(9); 3],
        &[
            (Call::Open(1), None),
            (Call::Open(2), None),
            (Call::Read(1, 5), None),
            (Call::Read(2, 9), None),
            (Call::Read(2, 7), Some(16)),
            (Call::Strike(1), None),
            (Call::Read(2, 7), None),
            (Call::Close, None),
        ],
        [page(2, 2, 16, 130), BLANK, BLANK],
        Ok(Some(Verdict::NotAccepted)),
    )
}

#[test]
fn a_bench_that_is_not_closed_goes_on(rt: HostRuntime) -> Result<(), Fail> {
    past(
        &rt,
        2,
        [BLANK],
        &[
            (Call::Open(7), None),
            (Call::Read(7, 12), None),
            (Call::Close, Some(17)),
            (Call::Read(7, 8), None),
            (Call::Close, None),
        ],
        [page(7, 2, 20, 208)],
        Ok(Some(Verdict::Accepted)),
    )
}

#[test]
fn setting_up(rt: HostRuntime) -> Result<(), Fail> {
    not_set_up(&rt, 0, [five(1); 2], 6)?;
    not_set_up(&rt, 1, [five(1); 2], 6)?;
    not_set_up(&rt, 51, [five(1); 2], 6)?;
    not_set_up(&rt, 4_294_967_295, [five(1); 65], 6)?;
    not_set_up(&rt, 0, [], 6)?;
    not_set_up(&rt, 2, [], 7)?;
    not_set_up(&rt, 2, [five(1); 65], 7)?;
    is_set_up(&rt, 2, [five(1); 64])?;
    is_set_up(&rt, 50, [five(1)])
}

#[test]
fn rows_of_a_wrong_size(rt: HostRuntime) -> Result<(), Fail> {
    all_refused(&rt, 2, [], 7, "no page")?;
    all_refused(&rt, 2, [BLANK; 65], 7, "65 blank pages")?;
    all_refused(&rt, 2, [five(1); 65], 7, "65 pages with readings")
}

#[test]
fn rows_that_no_bench_leaves(rt: HostRuntime) -> Result<(), Fail> {
    all_refused(
        &rt,
        4,
        [BLANK, five(1)],
        8,
        "a named page behind a blank one",
    )?;
    all_refused(&rt, 4, [five(1), five(2), five(1)], 8, "a name twice")?;
    all_refused(
        &rt,
        4,
        [page(1, 1, 5, 24), BLANK],
        8,
        "too small a sum of squares",
    )?;
    all_refused(
        &rt,
        4,
        [five(2), page(1, 1, 2001, 4_004_001)],
        8,
        "too great a sum",
    )?;
    all_refused(
        &rt,
        4,
        [page(1, 1, 0, 4_000_001)],
        8,
        "too great a sum of squares",
    )?;
    all_refused(
        &rt,
        50,
        [page(1, 51, 0, 0)],
        8,
        "too many readings for a tally",
    )?;
    all_refused(
        &rt,
        4,
        [five(1), page(0, 1, 5, 25)],
        8,
        "a blank page with readings",
    )?;
    all_refused(
        &rt,
        2,
        [five(1), five(2), five(3)],
        8,
        "counts together above n",
    )
}

#[test]
fn names(rt: HostRuntime) -> Result<(), Fail> {
    let row = [five(1), BLANK];
    refused(&rt, 4, row, Call::Open(0), 9)?;
    refused(&rt, 4, row, Call::Open(256), 9)?;
    refused(&rt, 4, row, Call::Read(0, 2001), 9)?;
    refused(&rt, 4, row, Call::Read(256, 5), 9)?;
    refused(&rt, 4, row, Call::Strike(0), 9)?;
    refused(&rt, 4, row, Call::Strike(256), 9)?;
    refused(&rt, 4, row, Call::Pour(0, 0), 9)?;
    refused(&rt, 4, row, Call::Pour(256, 1), 9)?;
    refused(&rt, 4, row, Call::Pour(1, 0), 9)?;
    refused(&rt, 4, row, Call::Pour(2, 256), 9)?;
    granted(&rt, 4, row, Call::Open(255), [five(1), page(255, 0, 0, 0)])
}

#[test]
fn opening(rt: HostRuntime) -> Result<(), Fail> {
    refused(&rt, 4, [five(1), BLANK], Call::Open(1), 10)?;
    refused(&rt, 4, [five(1), five(2)], Call::Open(2), 10)?;
    refused(&rt, 4, [five(1), five(2)], Call::Open(3), 11)?;
    refused(&rt, 2, [five(1), five(2)], Call::Open(3), 11)
}

#[test]
fn reading_and_striking(rt: HostRuntime) -> Result<(), Fail> {
    let row = [five(1), five(2), BLANK];
    refused(&rt, 4, row, Call::Read(3, 2001), 12)?;
    refused(&rt, 4, row, Call::Read(2, 2001), 14)?;
    refused(&rt, 4, row, Call::Read(2, -2001), 14)?;
    refused(&rt, 2, row, Call::Read(2, 2001), 14)?;
    refused(&rt, 2, row, Call::Read(2, 2000), 16)?;
    refused(&rt, 4, row, Call::Strike(3), 12)?;
    granted(
        &rt,
        4,
        row,
        Call::Read(2, -2000),
        [five(1), page(2, 2, -1995, 4_000_025), BLANK],
    )?;
    granted(&rt, 4, row, Call::Strike(1), [five(2), BLANK, BLANK])?;
    refused(&rt, 4, row, Call::Close, 17)?;
    refused(&rt, 3, [BLANK], Call::Close, 17)?;
    granted(&rt, 2, row, Call::Close, row)
}

#[test]
fn pouring(rt: HostRuntime) -> Result<(), Fail> {
    let row = [page(1, 2, 12, 74), page(2, 1, 9, 81), page(3, 1, 11, 121)];
    refused(&rt, 4, row, Call::Pour(4, 1), 12)?;
    refused(&rt, 4, row, Call::Pour(1, 4), 12)?;
    refused(&rt, 4, row, Call::Pour(4, 4), 12)?;
    refused(&rt, 4, row, Call::Pour(2, 2), 13)?;
    granted(
        &rt,
        4,
        row,
        Call::Pour(1, 3),
        [page(2, 1, 9, 81), page(3, 3, 23, 195), BLANK],
    )?;
    granted(
        &rt,
        4,
        row,
        Call::Pour(3, 1),
        [page(1, 3, 23, 195), page(2, 1, 9, 81), BLANK],
    )
}

#[test]
fn drums_poured_together_are_closed(rt: HostRuntime) -> Result<(), Fail> {
    past(
        &rt,
        3,
        [BLANK; 3],
        &[
            (Call::Open(1), None),
            (Call::Open(2), None),
            (Call::Read(1, 9), None),
            (Call::Read(2, 10), None),
            (Call::Pour(1, 2), None),
            (Call::Read(1, 11), Some(12)),
            (Call::Read(2, 11), None),
            (Call::Close, None),
        ],
        [page(2, 3, 30, 302), BLANK, BLANK],
        Ok(Some(Verdict::Accepted)),
    )
}
