// The call for a report of the rows that changed.
#![tactic(auto)]

ghost use Rattle.std.specs.Prelude.{◌≡◌, ◌≤◌};
ghost use Rattle.report.specs.Reports.{reported};

use changes::Changes;
use terminal::{Refusal, Size, Terminal};

// The number of document 01, which stays a byte as docs/CALLS.md has it, how many rows are set, the first of them or the number of rows where none is, and the state afterwards, with none set.
#[derive(Clone, Copy)]
pub struct ReportAnswer {
    pub number: u8,
    pub count: u32,
    pub first: u32,
    pub state: Terminal,
}

// A report, of a memory of `rows` rows.
pub fn report_on(t: Terminal, rows: usize) -> ReportAnswer
    requires { (24 ≤ rows) × (rows ≤ 96) }
    ensures { result ≡ reported rows t }
{
    if !t.is_good(rows) {
        return ReportAnswer {
            number: Refusal::State.number(),
            count: 0,
            first: rows as u32,
            state: t,
        };
    }
    let told = t.changes.report(rows);
    let mut next = t;
    next.changes = Changes::none();
    ReportAnswer {
        number: 0,
        count: told.count,
        first: told.first,
        state: next,
    }
}

// A report of the rows that changed, of a memory of a size; then none is set. Takes any state; one that is not good answers 2, tells of no row and stays.
pub fn report<S: Size>(t: Terminal) -> ReportAnswer
    ensures { result ≡ reported S.size t }
{
    report_on(t, S::rows())
}
