// The rows that a job has so far, and where each went on the timeline.
use arrayvec::ArrayVec;
use timeline::OWN;
use timeline::bookings::Booking;

// The index that a row's span went to, and the row but for its job.
#[derive(Clone, Copy, PartialEq, Eq, Default)]
pub struct Entry {
    pub at: usize,
    pub booking: Booking,
}

pub type Own = ArrayVec<Entry, OWN>;
