// The least free tick of a machine or a link.
use crate::machines::Resource;
use crate::rows::RefRow;

// A machine or a link, beside the rows held and those of the job being placed.
#[derive(Clone, Copy)]
pub struct Usage<'a> {
    pub resource: Resource,
    pub held: &'a [RefRow],
    pub found: &'a [RefRow],
}

impl Usage<'_> {
    // The least tick not before ready at which a span of this length meets no row of the resource. Such a tick is ready itself or the finish of a
    // row: from any other free tick the span could start one tick earlier. So those are the candidates, each is tested against all rows, and the
    // least free one is kept. The last finish is always free, so there is one.
    pub fn least_free(&self, ready: u64, length: u64) -> u64 {
        if self.is_free(ready, length) {
            return ready;
        }
        self.held
            .iter()
            .chain(self.found)
            .filter(|row| row.holder.resource() == self.resource)
            .map(|row| row.finish)
            .filter(|tick| ready <= *tick && self.is_free(*tick, length))
            .min()
            .unwrap_or(u64::MAX)
    }

    fn is_free(&self, start: u64, length: u64) -> bool {
        let finish = start.saturating_add(length);
        let mut rows = self
            .held
            .iter()
            .chain(self.found)
            .filter(|row| row.holder.resource() == self.resource);
        !rows.any(|row| row.meets(start, finish))
    }
}
