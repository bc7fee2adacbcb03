// The run: made once for its counts, and once more up to its last trial, so that the last one can be watched.
use learner::{Job, Refusal, Report};
use notation::lists;

// A run that is asked for: its job, the floor that it is on, where its trials begin, and how many it has at the most.
#[derive(Clone, Copy)]
pub struct Task<'a> {
    pub job: Job,
    pub floor: &'a [u8],
    pub start: usize,
    pub trials: usize,
}

// What a run came to: its first and its last record, how many trials it made, and whether it settled.
#[derive(Clone, Copy)]
pub struct Outcome {
    pub first: Report,
    pub last: Report,
    pub made: usize,
    pub settled: bool,
}

impl<'a> Task<'a> {
    // The table of opening figures.
    pub(crate) fn open(&self, table: &mut [u32]) -> Result<(), Refusal> {
        let job = self.job;
        learner::fill_opening(job.width, job.height, job.goals, job.q, self.floor, table)
    }

    // A run of so many trials from the opening figures on.
    pub(crate) fn run(
        &self,
        trials: usize,
        table: &mut [u32],
        path: &mut [u16],
    ) -> Result<Outcome, Refusal> {
        let none = Report {
            decisions: 0,
            learned: 0,
            kept: 0,
            travel: 0,
        };
        // A record for each of the most trials that a run may have.
        let mut reports: [Report; 1000] = lists::filled(none);
        self.open(table)?;
        let made = learner::run(
            self.job,
            self.floor,
            self.start,
            trials,
            table,
            path,
            &mut reports,
        )?;
        Ok(Outcome {
            first: reports[0],
            last: reports[made.trials.saturating_sub(1).min(999)],
            made: made.trials,
            settled: made.settled,
        })
    }

    // The table as it stands before the last of the trials that were made.
    pub(crate) fn before_last(
        &self,
        made: usize,
        table: &mut [u32],
        path: &mut [u16],
    ) -> Result<(), Refusal> {
        if made <= 1 {
            return self.open(table);
        }
        self.run(made - 1, table, path)?;
        Ok(())
    }
}
