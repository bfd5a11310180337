// Spans by where they begin and end. The searches halve to the first span that ends later, and then walk to the first gap.
ghost use Rattle.std.specs.Prelude.{◌≡◌, ◌≤◌, ◌<◌};
ghost use Rattle.timeline.specs.Timeline.{EndsAscend, FirstAfter, AskGap, GapIs, AskLeast, LeastIs};
ghost use Rattle.timeline.specs.Beside.{AskBeside, BesideIs};
ghost use Rattle.timeline.specs.Grown.{AskSpan, SpanPut, SpanOff};
ghost use Rattle.timeline.specs.TakenOut.{KeptIs};
ghost use Rattle.timeline.specs.Lines.{none_on, span_at};

use crate::TICKS;
use crate::columns::{insert_at, keep_staying, remove_at};
use crate::leaving::Leaving;
use std::marker::Model;

// At most N spans, ascending: where each begins and ends, and how many there are. Past them stand zeros. The columns stand side by side, since a search halves
// over the ends alone: over structs of both it took a fifth longer. That ends
// ascend is asked by searches, and is no invariant: `insert` would have to ask for ends in order too.
#[derive(Clone, Copy)]
pub struct Timeline<const N: usize> {
    begins: [u64; N],
    ends: [u64; N],
    count: usize,
}

// Clauses see the columns and the count, and know that they fit.
impl<const N: usize> Model for Timeline<N> {
    ghost use Rattle.timeline.specs.Spans.{Spans};

    ghost Value = { Spans };

    ghost use Rattle.timeline.specs.Fields.{Within};

    ghost view = { λ a. record { begins = a.begins; ends = a.ends; count = a.count } };

    ghost invariant = { λ a. Within N (record { begins = a.begins; ends = a.ends; count = a.count }) };

    ghost inverse = { λ v. record { begins = v.begins; ends = v.ends; count = v.count } };
}

// What is sought: so many ticks of the resource with this number, not before a tick.
#[derive(Clone, Copy)]
pub struct Sought {
    pub resource: u64,
    pub from: u64,
    pub len: u64,
}

impl<const N: usize> Timeline<N> {
    pub fn new() -> Self
        ensures { result ≡ none_on N }
    {
        Timeline {
            begins: [0; N],
            ends: [0; N],
            count: 0,
        }
    }

    pub fn count(&self) -> usize
        ensures is { result ≡ self.now.count }
        ensures fits { result ≤ N }
    {
        self.count
    }

    // The begin and the end of the span at an index.
    pub fn span(&self, at: usize) -> (u64, u64)
        requires { at < self.now.count }
        ensures is { result ≡ span_at self.now at }
        ensures fits { at < N }
    {
        let Timeline { begins, ends, .. } = self;
        (begins[at], ends[at])
    }

    // The first of the spans that ends after a place, or their count.
    pub fn first_after(&self, place: u64) -> usize
        requires { EndsAscend self.now.ends self.now.count }
        ensures { FirstAfter self.now.ends self.now.count place result }
    {
        self.ends[..self.count].partition_point(|end| *end <= place)
    }

    // The first place from one on, past the spans from an index on, that is so many ticks before the next of them.
    fn first_gap(&self, first: usize, at: u64, len: u64) -> u64
        requires { AskGap self.now.ends self.now.count first at len }
        ensures { GapIs self.now.begins self.now.ends self.now.count first at len result }
    {
        let begins = &self.begins[..];
        let ends = &self.ends[..];
        let mut place = at;
        for (begin, end) in begins[first..self.count]
            .iter()
            .zip(&ends[first..self.count])
        {
            if place + len <= *begin {
                return place;
            }
            place = *end;
        }
        place
    }

    // The least tick at which what is sought meets no span.
    pub fn least_free(&self, sought: Sought) -> u64
        requires { AskLeast self.now.ends self.now.count sought.resource sought.from sought.len }
        ensures { LeastIs self.now.begins self.now.ends self.now.count sought.resource sought.from sought.len result }
    {
        let base = sought.resource * TICKS;
        let place = base + sought.from;
        self.first_gap(self.first_after(place), place, sought.len) - base
    }

    // The least tick at which what is sought meets no span of either timeline: each is asked by turns, until both agree.
    pub fn least_beside<const M: usize>(&self, other: &Timeline<M>, sought: Sought) -> u64
        requires { AskBeside self.now other.now sought }
        ensures { BesideIs self.now other.now sought result }
    {
        let mut found = self.least_free(sought);
        let mut again = other.least_free(Sought {
            from: found,
            ..sought
        });
        while found < again {
            found = self.least_free(Sought {
                from: again,
                ..sought
            });
            again = other.least_free(Sought {
                from: found,
                ..sought
            });
        }
        found
    }

    // Puts a span before the first that ends after its begin, and answers its index.
    pub fn insert(&mut self, begin: u64, end: u64) -> usize
        requires { AskSpan N self.old }
        ensures { SpanPut self.old begin end self.new result }
    {
        let at = self.first_after(begin);
        insert_at(&mut self.begins, self.count, at, begin);
        insert_at(&mut self.ends, self.count, at, end);
        self.count += 1;
        at
    }

    // Takes the span at an index off.
    pub fn remove(&mut self, at: usize)
        requires { at < self.old.count }
        ensures { SpanOff self.old at self.new }
    {
        remove_at(&mut self.begins, self.count, at, 0);
        remove_at(&mut self.ends, self.count, at, 0);
        self.count -= 1;
    }

    // The spans that stay.
    pub fn keep_staying(&mut self, leaving: &Leaving)
        requires { leaving.now.count ≡ self.old.count }
        ensures begins { KeptIs self.old.begins leaving.now.marks self.old.count 0 self.new.begins self.new.count }
        ensures ends { KeptIs self.old.ends leaving.now.marks self.old.count 0 self.new.ends self.new.count }
    {
        self.count = keep_staying(&mut self.begins, leaving, 0);
        keep_staying(&mut self.ends, leaving, 0);
    }
}
