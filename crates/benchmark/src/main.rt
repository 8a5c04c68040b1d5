// Measures the library on numbers from a fixed sequence. What it finds goes to standard output, and the times to standard error.
#![tactic(auto)]

ghost use Rattle.std.specs.Prelude.{◌≡◌, ◌+◌, ◌*◌, ◌%◌, ◌^◌};

use field::{Field, Prime};
use generator::{MAX_STRETCH, shortest_generator};
use std::array;
use std::time::Instant;

const STRETCHES: u32 = 1000;

// A fixed sequence of numbers, from the one after `last` on.
#[derive(Drop)]
struct Sequence {
    last: u32,
}

impl Sequence {
    // The next number, which the sequence keeps.
    fn next_number(&mut self) -> u32
        ensures step { self.new.last ≡ (self.old.last * 1664525 + 1013904223) % 2 ^ 32 }
        ensures number { result ≡ self.new.last }
    {
        self.last = self
            .last
            .wrapping_mul(1_664_525)
            .wrapping_add(1_013_904_223);
        self.last
    }

    // A stretch of codes from the next numbers.
    fn next_stretch<F: Field>(&mut self) -> [u32; MAX_STRETCH] {
        array::from_fn(|_place| (self.next_number() >> 8) % F::size())
    }
}

// How many of the stretches have a generator of at most half their length, and the total of these lengths.
#[derive(Default)]
struct Totals {
    granted: u32,
    lengths: usize,
}

fn find_generators<F: Field>() -> Totals {
    let mut sequence = Sequence { last: 1 };
    let mut totals = Totals::default();
    for _stretch in 0..STRETCHES {
        let stretch = sequence.next_stretch::<F>();
        let mut memory = [0; MAX_STRETCH];
        if let Ok(length) = shortest_generator::<F>(&stretch, &mut memory) {
            totals.granted = totals.granted.saturating_add(1);
            totals.lengths = totals.lengths.saturating_add(length);
        }
    }
    totals
}

fn main(rt: HostRuntime) -> anyhow::Result<()> {
    let start = Instant::now(&rt)?;
    let Totals { granted, lengths } = find_generators::<Prime>();
    let time = start.elapsed(&rt)?.as_nanos() / u128::from(STRETCHES);
    println!(rt; "generators stretches {STRETCHES} granted {granted} lengths {lengths}")?;
    eprintln!(rt; "generators: {time} ns a stretch")?;
    Ok(())
}
