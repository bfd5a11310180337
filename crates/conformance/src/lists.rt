// The lists of calls, each on a fresh register and a fresh book.
use crate::both::Both;
use crate::calls::Maker;
use crate::counts::Counts;
use crate::report::print_list;
use console::Console;
use reference::{Book, Link, Machine, Tables};
use reservation::Register;
use workload::drawn::Source;
use workload::draws::Draws;
use workload::shapes::{
    CHAINS, CROWDED, CROWDED_GRAPHS, DENSE, FORKS, JOINS, LARGE_FIGURES, LATTICES, OUT_OF_RANGE,
    RANDOM_GRAPHS, Shape, TIES, TREES,
};

// One list from a tick on; at its end the ratio is compared, and the clock is moved to the horizon. Each call has a seed of its own.
fn one_list(book: Book, counts: &mut Counts, shape: &Shape, calls: u64, tick: u64, seed: Draws) {
    let mut draws = seed;
    let mut both = Both::new(book, *counts);
    both.advance(tick);
    for _ in 0..calls {
        draws = draws.next();
        let maker = Maker {
            book: &both.book,
            source: Source { shape, draws },
        };
        let call = maker.call();
        both.make(call);
    }
    both.compare_ratios();
    both.advance(Register::HORIZON);
    *counts = both.counts;
}

// Several lists of one shape, each from a seed of its own.
fn several(
    out: &mut Console,
    counts: &mut Counts,
    name: &str,
    shape: &Shape,
    lists: u64,
    calls: u64,
    tick: u64,
) {
    let before = *counts;
    let mut draws = Draws::new(before.calls.saturating_add(20_240_229));
    for _ in 0..lists {
        draws = draws.next();
        one_list(Book::new(), counts, shape, calls, tick, draws);
    }
    print_list(out, name, before, *counts);
}

// Each shape's lists: their name, how many there are, the calls of each, and its first tick.
pub fn all_lists(out: &mut Console, counts: &mut Counts) {
    for (name, shape, lists, calls, tick) in [
        ("dense", &DENSE, 6, 1_500, 0),
        ("chains", &CHAINS, 4, 900, 0),
        ("forks", &FORKS, 4, 900, 0),
        ("joins", &JOINS, 4, 900, 0),
        ("trees", &TREES, 4, 800, 0),
        ("lattices", &LATTICES, 5, 700, 0),
        ("random graphs", &RANDOM_GRAPHS, 5, 700, 0),
        ("ties", &TIES, 5, 1_000, 0),
        ("out of range", &OUT_OF_RANGE, 5, 1_200, 0),
        ("large figures", &LARGE_FIGURES, 4, 600, 0),
        ("near the horizon", &DENSE, 3, 800, 999_999_000),
        ("at the horizon", &DENSE, 1, 400, 1_000_000_000),
        ("crowded", &CROWDED, 3, 2_500, 0),
        ("crowded graphs", &CROWDED_GRAPHS, 4, 1_200, 0),
    ] {
        several(out, counts, name, shape, lists, calls, tick);
    }
}

// One list with a wrong time for the link from machine 2 to machine 3.
pub fn with_wrong_link() -> Counts {
    let mut counts = Counts::default();
    let mut tables = Tables::new();
    let link = Link {
        from: Machine::Two,
        to: Machine::Three,
    };
    tables.set_link_time(link, 2);
    let book = Book::with_tables(tables);
    one_list(book, &mut counts, &TREES, 500, 0, Draws::new(77));
    counts
}
