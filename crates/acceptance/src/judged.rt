// A lot that was judged: its plan as it stands on the sheet, and the verdict. Its drums are on the pages.
use entry::Plan;
use method::verdict::Verdict;

#[derive(Clone, Copy)]
pub struct Judged {
    pub plan: Plan,
    pub verdict: Verdict,
}
