//! What was done and found.

/// Counts over all seeds.
#[derive(Default, Drop)]
pub struct Tally {
    pub tables: u64,
    pub messages: u64,
    pub cases: u64,
    pub crowded: u64,
    pub carried: u64,
    pub passed_over: u64,
    pub moved: u64,
    pub blocked: u64,
    pub note_rows: u64,
    pub refused: u64,
    pub differences: u64,
}

impl Tally {
    /// Counts a difference where something is not as it must be.
    pub(crate) fn expect(&mut self, is_right: bool) {
        if !is_right {
            count(&mut self.differences);
        }
    }
}

/// Counts one more.
pub(crate) fn count(counter: &mut u64) {
    *counter = counter.saturating_add(1);
}
