// The entries behind the plan, carried out on a bench.
ghost use Rattle.std.specs.Prelude.{◌≡◌, length};
ghost use Rattle.course.specs.Course.{Coursed, Stepped, booking, carried, course_of, drum, natural};
ghost use Rattle.sheet.specs.Reading.{progress};

use crate::booked::Booked;
use bench::Bench;
use entry::Said;
use fault::{Fault, within};
use method::Method;
use rows::Page;
use sheet::Reader;

// A number of a sheet as a name or a planned number: a negative one is neither, and neither is 0.
pub(crate) fn to_natural(number: i32) -> u32
    ensures { result ≡ natural number }
{
    u32::try_from(number).unwrap_or(0)
}

// A bench at work on a sheet: its pages, and the name that was called last.
#[derive(Drop)]
struct Work<'a, 'b, M: Method> {
    bench: &'a Bench<M>,
    pages: &'b mut [Page<M::Numbers>],
    current: u32,
}

impl<'a, 'b, M: Method> Work<'a, 'b, M> {
    // Names the page for what follows, and opens it where it is not open.
    fn call_drum(&mut self, name: u32) -> Result<(), Fault>
        ensures { Stepped M.Method.meaning M.Method.stands (drum (length self.old.pages.now) name) self.old self.new result }
    {
        // Where the name is refused the work ends, and the name is not asked for again.
        self.current = name;
        match self.bench.open(self.pages, name) {
            Ok(()) => Ok(()),
            // Matched in two steps: past a pattern in a pattern the proof does not know that the name was not open.
            Err(fault) => match fault {
                Fault::NameOpen(_) => Ok(()),
                _ => Err(fault),
            },
        }
    }

    // Enters what an entry books on the page named last; an entry that books nothing has no place here.
    fn enter(&mut self, booked: Option<M::Reading>) -> Result<(), Fault>
        ensures { Stepped M.Method.meaning M.Method.stands (booking (M.Method.meaning self.old.bench.now.method) self.old.bench.now.n (length self.old.pages.now) booked self.old.current) self.old self.new result }
    {
        let reading = booked.ok_or(Fault::EntryOrder(0))?;
        self.bench.read(self.pages, self.current, reading)
    }

    // Carries out what an entry says.
    fn carry_out(&mut self, said: Said) -> Result<(), Fault>
    where
        M::Reading: Booked,
        ensures { Stepped M.Method.meaning M.Method.stands (carried (M.Method.meaning self.old.bench.now.method) M.Reading.Booked.booked self.old.bench.now.n (length self.old.pages.now) self.old.current said) self.old self.new result }
    {
        match said {
            Said::Drum(number) => self.call_drum(to_natural(number)),
            _ => self.enter(M::Reading::from_entry(said)),
        }
    }
}

// Reads and carries out the entries behind the plan, one by one.
pub(crate) fn carry_entries<M: Method>(
    bench: &Bench<M>,
    pages: &mut [Page<M::Numbers>],
    mut reader: Reader<'_>,
) -> Result<(), Fault>
where
    M::Reading: Booked,
    ensures { Coursed (M.Method.meaning bench.now.method) M.Method.stands bench.now.n (course_of (M.Method.meaning bench.now.method) M.Reading.Booked.booked bench.now.n (length pages.old) (progress reader.entry) 0) pages.old pages.new result }
{
    let mut work = Work {
        bench,
        pages,
        // 0 is no name: no drum was called yet.
        current: 0,
    };
    while let Some(entry) = reader.read()? {
        within(work.carry_out(entry.said()), entry.part().place)?;
    }
    Ok(())
}
