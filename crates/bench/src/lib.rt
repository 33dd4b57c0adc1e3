// The bench: its calls on a lent row of pages, and the closed lot.
#![tactic(auto)]

ghost use Rattle.std.specs.Prelude.{◌≡◌, ◌<◌, ◌≤◌, true, List, [], length, replicate, IfOk, if◌then◌else◌, Ok, Err, Some, None, IfSome, MatchResult, nat_le};
ghost use Rattle.bench.specs.Calls.{admitted, blank_page, closed, judged, named, opened, poured, read as read_row, struck};
ghost use Rattle.bench.specs.Ledger.{CarriedOut, Follows, Holds, Line, judging, opening, pouring, reading as entering, standing, striking};
ghost use Rattle.fault.specs.declared.Fault.TheVariants.{NameRange, ReadingsMissing};
ghost use Rattle.method.specs.Answers.{given};

use fault::Fault;
use method::verdict::Verdict;
use method::{MOST_PLANNED, Method};
use rows::{MOST_PAGES, Page, blank_all, check, place, put, take_out, total};

const HIGHEST_NAME: u32 = 255;

// An open bench: its method and the planned number. Its readings are on the pages.
pub struct Bench<M> {
    method: M,
    n: u32,
    ghost low: { 1 ≤ n },
    ghost high: { n ≤ 50 },
}

// A lot whose planned readings stand, joined into one tally.
pub struct ClosedLot<M: Method> {
    method: M,
    tally: M::Tally,
}

// Refuses what is no name.
fn check_name(name: u32) -> Result<(), Fault>
    ensures { result ≡ (if named name then Ok tt else Err (NameRange 0)) }
{
    if !(1..=HIGHEST_NAME).contains(&name) {
        return Err(Fault::NameRange(0));
    }
    Ok(())
}

impl<M: Method> Bench<M> {
    // Sets a bench up for n readings, and blanks all pages; a refusal hands the method back.
    pub fn set_up(method: M, n: u32, pages: &mut [Page<M::Numbers>]) -> Result<Bench<M>, (Fault, M)>
        ensures value { MatchResult result (λ b. (admitted (M.Method.meaning method) n (length pages.old) ≡ Ok tt) × (b.method ≡ method) × (b.n ≡ n) × (pages.new ≡ replicate (length pages.old) (blank_page (M.Method.meaning method)))) (λ e. (admitted (M.Method.meaning method) n (length pages.old) ≡ Err e.0) × (e.1 ≡ method) × (pages.new ≡ pages.old)) }
        ensures ledger { IfOk result (λ b. Holds (M.Method.meaning method) M.Method.stands n [] pages.new) }
    {
        if !(1..=MOST_PLANNED).contains(&n) || !method.allows(n) {
            return Err((Fault::PlannedNumber(0), method));
        }
        if !(1..=MOST_PAGES).contains(&pages.len()) {
            return Err((Fault::RowSize(0), method));
        }
        let bench = Bench { method, n };
        blank_all(pages, bench.blank());
        Ok(bench)
    }

    // A blank page.
    fn blank(&self) -> Page<M::Numbers>
        ensures value { result ≡ blank_page (M.Method.meaning self.now.method) }
        ensures sound { M.Method.stands result.numbers ≡ true }
    {
        let numbers = self.method.numbers(self.method.blank());
        Page { name: 0, numbers }
    }

    // Each call is proved once on any pages, in a function of its own; the public one adds what the ledger says.
    // A clause names the meaning, the test of numbers and n: a record of the three would be made of them in each clause,
    // and a model's value may hold no function.
    fn open_page(&self, pages: &mut [Page<M::Numbers>], name: u32) -> Result<(), Fault>
        ensures { CarriedOut M.Method.stands (opened (M.Method.meaning self.now.method) M.Method.stands self.now.n name) pages.old pages.new result }
    {
        check(&self.method, self.n, pages)?;
        check_name(name)?;
        if place(pages, name).is_some() {
            return Err(Fault::NameOpen(0));
        }
        let i = place(pages, 0).ok_or(Fault::RowFull(0))?;
        let numbers = self.blank().numbers;
        put(pages, i, Page { name, numbers });
        Ok(())
    }

    fn read_page(
        &self,
        pages: &mut [Page<M::Numbers>],
        name: u32,
        reading: M::Reading,
    ) -> Result<(), Fault>
        ensures { CarriedOut M.Method.stands (read_row (M.Method.meaning self.now.method) M.Method.stands self.now.n name reading) pages.old pages.new result }
    {
        let left = check(&self.method, self.n, pages)?;
        check_name(name)?;
        let i = place(pages, name).ok_or(Fault::NameNotOpen(0))?;
        if !self.method.takes(reading) {
            return Err(Fault::ReadingNotTaken(0));
        }
        if left == 0 {
            return Err(Fault::PlanFull(0));
        }
        let t = self
            .method
            .tally(pages[i].numbers)
            .ok_or(Fault::RowInconsistent(0))?;
        let t = self.method.enter(t, reading)?;
        let numbers = self.method.numbers(t);
        put(pages, i, Page { name, numbers });
        Ok(())
    }

    fn strike_page(&self, pages: &mut [Page<M::Numbers>], name: u32) -> Result<(), Fault>
        ensures { CarriedOut M.Method.stands (struck (M.Method.meaning self.now.method) M.Method.stands self.now.n name) pages.old pages.new result }
    {
        check(&self.method, self.n, pages)?;
        check_name(name)?;
        let i = place(pages, name).ok_or(Fault::NameNotOpen(0))?;
        take_out(pages, i, self.blank());
        Ok(())
    }

    // The numbers of two tallies joined, while the plan has room for them.
    fn joined(&self, a: M::Numbers, b: M::Numbers) -> Option<M::Numbers>
        requires { (M.Method.stands a ≡ true) × (M.Method.stands b ≡ true) }
        ensures value { let m = M.Method.meaning self.now.method in result ≡ (if nat_le (m.count (m.join a b)) self.now.n then Some (m.join a b) else None) }
        ensures sound { IfSome result (λ z. M.Method.stands z ≡ true) }
    {
        let t = self.method.tally(a)?;
        let u = self.method.tally(b)?;
        let v = self.method.join(t, u).ok()?;
        if self.method.count(v) > self.n {
            return None;
        }
        Some(self.method.numbers(v))
    }

    fn pour_page(&self, pages: &mut [Page<M::Numbers>], source: u32, goal: u32) -> Result<(), Fault>
        ensures { CarriedOut M.Method.stands (poured (M.Method.meaning self.now.method) M.Method.stands self.now.n source goal) pages.old pages.new result }
    {
        check(&self.method, self.n, pages)?;
        check_name(source)?;
        check_name(goal)?;
        let s = place(pages, source).ok_or(Fault::NameNotOpen(0))?;
        let g = place(pages, goal).ok_or(Fault::NameNotOpen(0))?;
        if source == goal {
            return Err(Fault::PouredOntoItself(0));
        }
        let numbers = self
            .joined(pages[g].numbers, pages[s].numbers)
            .ok_or(Fault::PouredPastPlan(0))?;
        put(
            pages,
            g,
            Page {
                name: goal,
                numbers,
            },
        );
        take_out(pages, s, self.blank());
        Ok(())
    }

    // Puts a name with a blank tally on the first blank page.
    pub fn open(&self, pages: &mut [Page<M::Numbers>], name: u32) -> Result<(), Fault>
        ensures pages { CarriedOut M.Method.stands (opened (M.Method.meaning self.now.method) M.Method.stands self.now.n name) pages.old pages.new result }
        ensures ledger { Follows (M.Method.meaning self.now.method) M.Method.stands self.now.n (opening (M.Method.meaning self.now.method) self.now.n (length pages.old) name) pages.old pages.new result }
    {
        self.open_page(pages, name)
    }

    // Enters one reading on a named page.
    pub fn read(
        &self,
        pages: &mut [Page<M::Numbers>],
        name: u32,
        reading: M::Reading,
    ) -> Result<(), Fault>
        ensures pages { CarriedOut M.Method.stands (read_row (M.Method.meaning self.now.method) M.Method.stands self.now.n name reading) pages.old pages.new result }
        ensures ledger { Follows (M.Method.meaning self.now.method) M.Method.stands self.now.n (entering (M.Method.meaning self.now.method) self.now.n (length pages.old) name reading) pages.old pages.new result }
    {
        self.read_page(pages, name, reading)
    }

    // Takes a page out; later pages move up by one, and a blank one follows.
    pub fn strike(&self, pages: &mut [Page<M::Numbers>], name: u32) -> Result<(), Fault>
        ensures pages { CarriedOut M.Method.stands (struck (M.Method.meaning self.now.method) M.Method.stands self.now.n name) pages.old pages.new result }
        ensures ledger { Follows (M.Method.meaning self.now.method) M.Method.stands self.now.n (striking (M.Method.meaning self.now.method) self.now.n (length pages.old) name) pages.old pages.new result }
    {
        self.strike_page(pages, name)
    }

    // Joins the source's tally to the goal's, and takes the source's page out.
    pub fn pour(&self, pages: &mut [Page<M::Numbers>], source: u32, goal: u32) -> Result<(), Fault>
        ensures pages { CarriedOut M.Method.stands (poured (M.Method.meaning self.now.method) M.Method.stands self.now.n source goal) pages.old pages.new result }
        ensures ledger { Follows (M.Method.meaning self.now.method) M.Method.stands self.now.n (pouring (M.Method.meaning self.now.method) self.now.n (length pages.old) source goal) pages.old pages.new result }
    {
        self.pour_page(pages, source, goal)
    }

    // All tallies joined, where no reading is missing.
    fn whole_tally(&self, pages: &[Page<M::Numbers>]) -> Result<M::Tally, Fault>
        ensures { given M.Method.of result ≡ closed (M.Method.meaning self.now.method) M.Method.stands self.now.n pages.now }
    {
        if check(&self.method, self.n, pages)? > 0 {
            return Err(Fault::ReadingsMissing);
        }
        total(&self.method, pages)
    }

    // Joins all tallies into one closed lot; a refusal hands the bench back as it was.
    pub fn close(self, pages: &[Page<M::Numbers>]) -> Result<ClosedLot<M>, (Fault, Bench<M>)>
        ensures value { MatchResult result (λ lot. (closed (M.Method.meaning self.method) M.Method.stands self.n pages.now ≡ Ok (M.Method.of lot.tally)) × (lot.method ≡ self.method)) (λ e. (closed (M.Method.meaning self.method) M.Method.stands self.n pages.now ≡ Err e.0) × (e.1 ≡ self)) }
        ensures ledger { (ls : List (Line M.Reading)) → Holds (M.Method.meaning self.method) M.Method.stands self.n ls pages.now → MatchResult result (λ lot. (length (standing ls) ≡ self.n) × (M.Method.of lot.tally ≡ (M.Method.meaning self.method).total (standing ls))) (λ e. (e.0 ≡ ReadingsMissing) × (length (standing ls) < self.n)) }
    {
        match self.whole_tally(pages) {
            Ok(tally) => {
                let Bench { method, n: _ } = self;
                Ok(ClosedLot { method, tally })
            }
            Err(fault) => Err((fault, self)),
        }
    }

    // Closes the bench, judges the lot, and gives both up.
    pub fn close_and_judge(self, pages: &[Page<M::Numbers>]) -> Result<Verdict, Fault>
    where
        M: Drop,
        ensures value { result ≡ judged (M.Method.meaning self.method) M.Method.stands self.n pages.now }
        ensures ledger { (ls : List (Line M.Reading)) → Holds (M.Method.meaning self.method) M.Method.stands self.n ls pages.now → result ≡ judging (M.Method.meaning self.method) self.n ls }
    {
        match self.close(pages) {
            Ok(lot) => {
                let verdict = lot.judge();
                let _ = lot.into_method();
                Ok(verdict)
            }
            Err((fault, bench)) => {
                let _ = bench.into_method();
                Err(fault)
            }
        }
    }

    // Gives the bench up for its method.
    pub fn into_method(self) -> M
        ensures { result ≡ self.method }
    {
        let Bench { method, n: _ } = self;
        method
    }
}

impl<M: Method> ClosedLot<M> {
    // What the method says of the lot.
    pub fn judge(&self) -> Verdict
        ensures { result ≡ (M.Method.meaning self.now.method).verdict (M.Method.of self.now.tally) }
    {
        self.method.verdict(self.tally)
    }

    // Gives the lot up for its method.
    pub fn into_method(self) -> M
        ensures { result ≡ self.method }
    {
        let ClosedLot { method, tally: _ } = self;
        method
    }
}
