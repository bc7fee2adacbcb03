// What stands in words: above the floor the job, below it the counts of the first and of the last trial.
ghost use Rattle.picture.specs.Pages.{Stays};

use crate::runs::{Outcome, Task};
use crate::sheet::Sheet;
use drawing::Page;
use learner::Report;

// The job, above the floor.
pub(crate) fn above(page: &mut Page, task: &Task)
    ensures on_page { Stays page.old page.new }
{
    let job = task.job;
    page.words(b"<g font-size='15'>\n");
    page.caption_from(20, 32);
    page.number(job.width);
    page.said(b" by ", job.height);
    page.said(b" cells, depth ", job.depth);
    page.said(b", weight ", job.p);
    page.said(b"/", job.q);
    page.said(b", quota ", job.quota);
    page.said(b", trials at most ", task.trials);
    page.caption_end();
    page.words(b"</g>\n");
}

// The counts of a trial, the end of their line.
fn counts(page: &mut Page, r: Report)
    ensures on_page { Stays page.old page.new }
{
    page.said(b": decisions ", r.decisions as usize);
    page.said(b", learned ", r.learned as usize);
    page.said(b", kept ", r.kept as usize);
    page.said(b", travel ", r.travel as usize);
    page.caption_end();
}

// The counts of both trials, below the floor.
pub(crate) fn below(page: &mut Page, s: &Sheet, o: Outcome)
    ensures on_page { Stays page.old page.new }
{
    let y = s.counts_y();
    page.caption_from(20, y);
    page.words(b"first trial");
    counts(page, o.first);
    page.caption_from(20, y + 22);
    page.said(b"last trial (number ", o.made);
    if o.settled {
        page.words(b", settled)");
    } else {
        page.words(b", unsettled)");
    }
    counts(page, o.last);
}
