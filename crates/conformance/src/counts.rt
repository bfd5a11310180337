// What is counted over all lists.
use rules::Seen;

#[derive(Clone, Copy, Default)]
pub struct Counts {
    pub calls: u64,
    // By answer number, as the table is printed. `Refusal` has no 13 or 18, which are those of looks and ratios.
    // Looks that are not refused are counted beside.
    pub answers: [u64; 14],
    pub idle: u64,
    pub booked: u64,
    // The most rows held, and the calls that left more than 200 rows, 255 and 256.
    pub most: u64,
    pub crowded: u64,
    pub almost_full: u64,
    pub full: u64,
    // Rows compared, and differences of any kind.
    pub rows: u64,
    pub differences: u64,
}

fn add(count: &mut u64, more: u64) {
    *count = count.saturating_add(more);
}

impl Counts {
    // One call more, by its answer number; a number above 13 is none, and a difference.
    pub fn answer(&mut self, number: u64) {
        add(&mut self.calls, 1);
        match self.answers.get_mut(number as usize) {
            Some(count) => add(count, 1),
            None => self.differ(1),
        }
    }

    // One look more. A refused one is an answer.
    pub fn see(&mut self, seen: Seen) {
        let found = match seen {
            Seen::NoMachine => return self.answer(13),
            Seen::Idle => &mut self.idle,
            Seen::Booked(_) => &mut self.booked,
        };
        add(found, 1);
        add(&mut self.calls, 1);
    }

    pub fn differ(&mut self, differences: u64) {
        add(&mut self.differences, differences);
    }

    // A difference, unless the two sides are the same.
    pub fn compare(&mut self, same: bool) {
        self.differ(u64::from(!same));
    }

    // So many rows are held, and each was compared.
    pub fn hold(&mut self, rows: u64) {
        add(&mut self.rows, rows);
        self.most = self.most.max(rows);
        add(&mut self.crowded, u64::from(200 < rows));
        add(&mut self.almost_full, u64::from(rows == 255));
        add(&mut self.full, u64::from(rows == 256));
    }
}
