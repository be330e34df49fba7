// Calls some of which are to fail.

/// Calls that are counted from 1, and which of them are to fail.
#[derive(Drop)]
pub struct Calls {
    pub made: u64,
    pub failing: Vec<u64>,
}

impl Calls {
    /// None was made, and these are to fail.
    pub fn failing(failing: Vec<u64>) -> Calls {
        Calls { made: 0, failing }
    }

    /// Counts one more, and answers whether it is to fail.
    pub fn next_fails(&mut self) -> bool {
        self.made = self.made.saturating_add(1);
        self.failing.contains(&self.made)
    }
}
