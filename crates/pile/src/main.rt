// Writes marks into a pile of sheets, more than it can hold, flushes them, and reads all of them back.
#![tactic(auto)]

ghost use Rattle.std.specs.Prelude.{◌≡◌, ◌++◌, length, IfOk, string_bytes, OnOk, slice_set};
ghost use Rattle.pile.specs.Reports.{line_of_read, lines_of_reads, report, stepped, line_of_write, lines_of_writes};
ghost use Rattle.sheet.specs.Holds.{overlaid};
ghost use Rattle.sheet.specs.Joins.{joined};
ghost use Rattle.sheet.specs.Marks.{cut};

use sheet::{Held, Joined, Readable, Table, Writable};
use std::alloc::{AllocError, Global};

const STEPS: u8 = 100;

// Writes a mark, and adds the line that tells the answer. Here and below, a clause says what a call adds to the text.
fn try_write<S: Writable>(
    text: &mut String,
    sheet: &mut S,
    block: usize,
    mark: u32,
) -> Result<(), AllocError>
    ensures line { OnOk result (string_bytes text.new ≡ string_bytes text.old ++ line_of_write (S.marks sheet.old) block mark) }
    ensures list { S.marks sheet.new ≡ slice_set (S.marks sheet.old) block mark }
{
    match sheet.write(block, mark) {
        Ok(()) => writeln!(text, "write {block} {mark} ok"),
        Err(denial) => writeln!(text, "write {block} {mark} {denial}"),
    }
}

// Writes a mark at each step, and adds a line for it.
fn add_writes<S: Writable>(text: &mut String, sheet: &mut S) -> Result<(), AllocError>
    ensures lines { OnOk result (string_bytes text.new ≡ string_bytes text.old ++ lines_of_writes (S.marks sheet.old) 100) }
    ensures list { OnOk result (S.marks sheet.new ≡ stepped (S.marks sheet.old) 100) }
{
    for step in 0..STEPS {
        let block = usize::from(step) * 5 % 66;
        let mark = 1000 + u32::from(step);
        try_write(text, sheet, block, mark)?;
    }
    Ok(())
}

// Adds the line of a mark that was read.
fn add_read(text: &mut String, block: usize, mark: u32) -> Result<(), AllocError>
    ensures { OnOk result (string_bytes text.new ≡ string_bytes text.old ++ line_of_read block mark) }
{
    writeln!(text, "read {block} {mark}")
}

// Adds a line for the mark of each block.
#[tactic(auto, unfolding(crate::specs::Reports::lines_of_reads))]
fn add_reads<S: Readable>(text: &mut String, sheet: &S) -> Result<(), AllocError>
    ensures { OnOk result (string_bytes text.new ≡ string_bytes text.old ++ lines_of_reads (S.marks sheet.now) (length (S.marks sheet.now))) }
{
    for block in 0..sheet.len() {
        let mark = sheet.read(block).unwrap();
        add_read(text, block, mark)?;
    }
    Ok(())
}

// Writes marks into a pile, flushes it, and reads all of them back, with a line for each. The sheet below then has the pile's list.
fn describe_pile<S: Writable>(heap: Global, pile: &mut Held<S>) -> Result<String, AllocError>
    ensures text { IfOk result (λ text. string_bytes text ≡ report (overlaid S.marks pile.old)) }
    ensures flushed { OnOk result (S.marks pile.new.below ≡ stepped (overlaid S.marks pile.old) 100) }
{
    let blocks = pile.len();
    let mut text = format!(in heap; "blocks {blocks}\n")?;
    add_writes(&mut text, pile)?;
    pile.flush();
    text.push_str("flush\n")?;
    add_reads(&mut text, pile)?;
    Ok(text)
}

// What a pile over the numbers of two tables prints.
fn describe(heap: Global, first: &mut [u32], second: &mut [u32]) -> Result<String, AllocError>
    ensures { IfOk result (λ text. string_bytes text ≡ report (joined (cut first.old) (cut second.old))) }
{
    let inner = Held::new(Table::new(first));
    let mut pile = Held::new(Joined::new(inner, Table::new(second)));
    describe_pile(heap, &mut pile)
}

fn main(rt: HostRuntime) -> anyhow::Result<()> {
    let mut first = [1; 40];
    let mut second = [2; 24];
    let text = describe(rt.alloc(), &mut first, &mut second)?;
    print!(rt; "{text}")?;
    println!(rt; "first {first:?}")?;
    println!(rt; "second {second:?}")?;
    Ok(())
}
