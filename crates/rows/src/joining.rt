// The tallies of a row, joined.
ghost use Rattle.std.specs.Prelude.{◌≡◌, []};
ghost use Rattle.method.specs.Answers.{given};
ghost use Rattle.rows.specs.Joining.{sum_of};

use crate::page::Page;
use fault::Fault;
use method::Method;

// All tallies of a row joined into one.
pub fn total<M: Method>(method: &M, pages: &[Page<M::Numbers>]) -> Result<M::Tally, Fault>
    ensures { given M.Method.of result ≡ sum_of (M.Method.meaning method.now) M.Method.stands ((M.Method.meaning method.now).total []) pages.now }
{
    let mut sum = method.blank();
    for p in pages {
        let t = method.tally(p.numbers).ok_or(Fault::RowInconsistent(0))?;
        sum = method.join(sum, t)?;
    }
    Ok(sum)
}
