// What came of the cases of each call.
use crate::call::Call;
use std::io;

// How many were run, and how many were right.
#[derive(Clone, Copy)]
struct Score {
    ran: u64,
    right: u64,
}

#[derive(Clone, Copy)]
pub(crate) struct Tally([Score; Call::COUNT]);

impl Tally {
    pub(crate) const EMPTY: Tally = Tally([Score { ran: 0, right: 0 }; Call::COUNT]);

    pub(crate) fn add(&mut self, call: Call, right: bool) {
        let score = &mut self.0[call as usize];
        score.ran = score.ran.saturating_add(1);
        score.right = score.right.saturating_add(u64::from(right));
    }

    pub(crate) fn report(&self, rt: &impl Print) -> io::Result<()> {
        for (call, score) in Call::ALL.iter().zip(&self.0) {
            if score.ran > 0 {
                println!(rt; "{call}: {} of {} right", score.right, score.ran)?;
            }
        }
        Ok(())
    }
}
