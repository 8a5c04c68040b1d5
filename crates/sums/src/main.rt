// Prints the number of blocks of standard input, taken as a strip, and its sums at the first places in each field.
#![tactic(auto)]

ghost use Rattle.std.specs.Prelude.{◌≡◌, ◌++◌, IfOk, string_bytes, OnOk};
ghost use Rattle.sums.specs.Reports.{report, line_of_sum, lines_of_sums};

use field::{Binary, Field, Prime};
use generator::sum_at;
use sheet::{MAX_BLOCKS, Readable, Strip};
use std::alloc::{AllocError, Global};
use std::io::Read;

const PLACES: usize = 16;

// Adds the line of a sum. Here and below, a clause says what a call adds to the text.
fn add_sum(text: &mut String, kind: u8, place: usize, sum: u32) -> Result<(), AllocError>
    ensures { OnOk result (string_bytes text.new ≡ string_bytes text.old ++ line_of_sum kind place sum) }
{
    writeln!(text, "kind {kind} place {place} sum {sum}")
}

// Adds a line for the sum at each of the first places.
#[tactic(auto, unfolding(crate::specs::Reports::lines_of_sums))]
fn add_sums<F: Field, S: Readable>(text: &mut String, sheet: &S) -> Result<(), AllocError>
    ensures { OnOk result (string_bytes text.new ≡ string_bytes text.old ++ lines_of_sums F.arithmetic (S.marks sheet.now) 16) }
{
    for place in 0..PLACES {
        let sum = sum_at::<F, S>(sheet, place).unwrap();
        add_sum(text, F::kind(), place, sum)?;
    }
    Ok(())
}

// What the program prints for an input.
fn describe(heap: Global, input: &[u8]) -> Result<String, AllocError>
    ensures { IfOk result (λ text. string_bytes text ≡ report input.now) }
{
    let strip = Strip::new(input);
    let blocks = strip.len();
    let mut text = format!(in heap; "blocks {blocks}\n")?;
    add_sums::<Prime, Strip>(&mut text, &strip)?;
    add_sums::<Binary, Strip>(&mut text, &strip)?;
    Ok(text)
}

fn main(rt: HostRuntime) -> anyhow::Result<()> {
    let mut input = Vec::new(rt.alloc());
    rt.stdin().read_to_end(&mut input)?;
    if input.len() > MAX_BLOCKS {
        eprintln!(rt; "sums: only the first {MAX_BLOCKS} bytes are blocks of a sheet")?;
    }
    let text = describe(rt.alloc(), &input)?;
    print!(rt; "{text}")?;
    Ok(())
}
