// Compares the generators that the library finds with those of a trial of all lists of codes, for every short stretch over a field of five
// codes, and prints how many stretches were compared.
#![tactic(auto)]

ghost use Rattle.std.specs.Prelude.{◌≡◌, ℕ, ◌+◌, ◌^◌, ◌<◌, List};
ghost use Rattle.generator.specs.Finds.{Long, Short};
ghost use Rattle.trial.specs.Five.{five};

use crate::exhaustion::{LONGEST, Lists, shortest};
use crate::five_field::Five;
use denial::Denial;
use generator::shortest_generator;

mod exhaustion;
mod five_field;

// What the memory holds before a call.
const BEFORE: [u32; 18] = [9; 18];

// How a comparison came out.
#[derive(Clone, Copy)]
enum Outcome {
    // The library grants the one generator of the least length, which is at most half the length of the stretch.
    Granted,
    // The library denies with 21, and the least length is above that half.
    Denied,
    Differs,
}

// Compares the answer for a stretch with one of its shortest generators.
fn compare(stretch: &[u32]) -> Outcome
    ensures granted { result ≡ Outcome.Granted → (L : ℕ) × (g : List ℕ) × Short five stretch.now L g }
    ensures denied { result ≡ Outcome.Denied → (L : ℕ) × (g : List ℕ) × Long five stretch.now L g }
{
    let Some(found) = shortest(stretch) else {
        return Outcome::Differs;
    };
    let mut memory = BEFORE;
    let answer = shortest_generator::<Five>(stretch, &mut memory);
    let least = found.generator.len() - 1;
    let mut written = BEFORE;
    written[..found.generator.len()].copy_from_slice(&found.generator);
    let short = least <= stretch.len() / 2;
    let grants = short && found.only && memory == written;
    match answer {
        Ok(length) if grants && length == least => Outcome::Granted,
        Err(Denial::GeneratorTooLong) if !short && memory == BEFORE => Outcome::Denied,
        _ => Outcome::Differs,
    }
}

// How often each outcome came.
#[derive(Default)]
struct Tally {
    granted: u32,
    denied: u32,
    differing: u32,
}

impl Tally {
    fn count(&mut self, outcome: Outcome)
        requires { self.old.granted + self.old.denied + self.old.differing + 1 < 2 ^ 32 }
        ensures granted { outcome ≡ Outcome.Granted → self.new ≡ record self.old { granted = self.old.granted + 1 } }
        ensures denied { outcome ≡ Outcome.Denied → self.new ≡ record self.old { denied = self.old.denied + 1 } }
        ensures differing { outcome ≡ Outcome.Differs → self.new ≡ record self.old { differing = self.old.differing + 1 } }
    {
        match outcome {
            Outcome::Granted => self.granted += 1,
            Outcome::Denied => self.denied += 1,
            Outcome::Differs => self.differing += 1,
        }
    }
}

// Compares all stretches of a length.
fn compare_all(stretches: Lists) -> Tally
    ensures { result.granted + result.denied + result.differing ≡ 5 ^ stretches.length }
{
    let mut tally = Tally::default();
    for number in 0..stretches.count() {
        tally.count(compare(&stretches.list(number)));
    }
    tally
}

fn main(rt: HostRuntime) -> anyhow::Result<()> {
    let mut compared = 0u32;
    for length in 0..=LONGEST {
        let stretches = Lists { length };
        let Tally {
            granted,
            denied,
            differing,
        } = compare_all(stretches);
        println!(rt; "length {length} granted {granted} denied {denied} differing {differing}")?;
        compared = compared.saturating_add(stretches.count());
    }
    println!(rt; "compared {compared}")?;
    Ok(())
}
