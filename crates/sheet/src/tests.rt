// Worked reads and writes, at the ends of sheets and past them.
ghost use Rattle.std.specs.Prelude.{◌≡◌, ◌≤◌, length, OnOk, OnErr, slice_set};
ghost use Rattle.sheet.specs.Holds.{holding};

use crate::*;

#[test]
fn reads_a_strip(rt: HostRuntime) {
    let strip = Strip::new(b"\x05\x00\xff");
    assert_eq!(rt; strip.len(), 3);
    assert_eq!(rt; strip.read(0), Ok(5));
    assert_eq!(rt; strip.read(2), Ok(255));
    assert_eq!(rt; strip.read(3), Err(Denial::BlockOutside { block: 3 }));
}

#[test]
fn reads_a_table(rt: HostRuntime) {
    let mut numbers = [7, 4_294_967_295];
    let table = Table::new(&mut numbers);
    assert_eq!(rt; table.len(), 2);
    assert_eq!(rt; table.read(1), Ok(4_294_967_295));
    assert_eq!(rt; table.read(2), Err(Denial::BlockOutside { block: 2 }));
}

#[test]
fn reads_an_empty_strip(rt: HostRuntime) {
    let strip = Strip::new(b"");
    assert_eq!(rt; strip.len(), 0);
    assert_eq!(rt; strip.read(0), Err(Denial::BlockOutside { block: 0 }));
}

#[test]
fn cuts_a_long_strip(rt: HostRuntime) {
    let bytes = [9u8; 65_537];
    let strip = Strip::new(&bytes);
    assert_eq!(rt; strip.len(), 65_536);
    assert_eq!(rt; strip.read(65_535), Ok(9));
    assert_eq!(rt;
        strip.read(65_536),
        Err(Denial::BlockOutside { block: 65_536 })
    );
}

// A source has numbers past the cut too.
#[test]
fn tells_the_numbers_of_a_source(rt: HostRuntime) {
    let bytes = [9u8; 65_537];
    let strip = Strip::new(&bytes);
    assert_eq!(rt; strip.count(), 65_537);
    assert_eq!(rt; strip.number(65_536), Some(9));
    assert_eq!(rt; strip.number(65_537), None);
    let mut numbers = [7, 4_294_967_295];
    let table = Table::new(&mut numbers);
    assert_eq!(rt; table.count(), 2);
    assert_eq!(rt; table.number(1), Some(4_294_967_295));
    assert_eq!(rt; table.number(2), None);
}

// What a caller knows of its numbers once the table over them is gone.
fn put_mark(numbers: &mut [u32], block: usize, mark: u32) -> Result<(), Denial>
    ensures granted { OnOk result (numbers.new ≡ slice_set numbers.old block mark) }
    ensures denied { OnErr result (numbers.new ≡ numbers.old) }
{
    let mut table = Table::new(numbers);
    table.write(block, mark)
}

#[test]
fn writes_a_table(rt: HostRuntime) {
    let mut numbers = [7, 8, 9];
    assert_eq!(rt; put_mark(&mut numbers, 0, 6), Ok(()));
    let mut table = Table::new(&mut numbers);
    assert_eq!(rt; table.write(1, 4_294_967_295), Ok(()));
    assert_eq!(rt; table.write(3, 5), Err(Denial::BlockOutside { block: 3 }));
    assert_eq!(rt; table.read(1), Ok(4_294_967_295));
    assert_eq!(rt; numbers, [6, 4_294_967_295, 9]);
}

#[test]
fn reads_a_strip_joined_to_a_table(rt: HostRuntime) {
    let mut numbers = [70_000, 8];
    let joined = Joined::new(Strip::new(b"\x05\x06"), Table::new(&mut numbers));
    assert_eq!(rt; joined.len(), 4);
    assert_eq!(rt; joined.read(1), Ok(6));
    assert_eq!(rt; joined.read(2), Ok(70_000));
    assert_eq!(rt; joined.read(4), Err(Denial::BlockOutside { block: 4 }));
}

#[test]
fn cuts_a_long_join(rt: HostRuntime) {
    let bytes = [9u8; 65_535];
    let joined = Joined::new(Strip::new(&bytes), Strip::new(b"\x05\x06"));
    assert_eq!(rt; joined.len(), 65_536);
    assert_eq!(rt; joined.read(65_535), Ok(5));
    assert_eq!(rt;
        joined.read(65_536),
        Err(Denial::BlockOutside { block: 65_536 })
    );
}

#[test]
fn writes_on_both_sides_of_a_seam(rt: HostRuntime) {
    let mut first = [1, 2];
    let mut second = [3, 4];
    let mut joined = Joined::new(Table::new(&mut first), Table::new(&mut second));
    assert_eq!(rt; joined.write(1, 20), Ok(()));
    assert_eq!(rt; joined.write(2, 30), Ok(()));
    assert_eq!(rt; joined.write(4, 50), Err(Denial::BlockOutside { block: 4 }));
    assert_eq!(rt; first, [1, 20]);
    assert_eq!(rt; second, [30, 4]);
}

// Block 0 is written twice and held once, so block 32 is the first that goes below.
#[test]
fn holds_32_marks(rt: HostRuntime) {
    let mut numbers = [0; 34];
    let mut held = Held::new(Table::new(&mut numbers));
    assert_eq!(rt; held.write(0, 99), Ok(()));
    for block in 0..33 {
        assert_eq!(rt; held.write(block, 7), Ok(()));
    }
    assert_eq!(rt; held.write(34, 7), Err(Denial::BlockOutside { block: 34 }));
    assert_eq!(rt; held.read(0), Ok(7));
    assert_eq!(rt; held.read(33), Ok(0));
    assert_eq!(rt; numbers[0], 0);
    assert_eq!(rt; numbers[31], 0);
    assert_eq!(rt; numbers[32], 7);
}

// What a caller knows of a held sheet that was lent to it.
fn hold_mark(held: &mut Held<Table<'_>>, block: usize, mark: u32) -> Result<(), Denial>
    ensures { length (holding held.new) ≤ 32 }
{
    held.write(block, mark)
}

#[test]
fn holds_few_marks(rt: HostRuntime) {
    let mut numbers = [0; 34];
    let mut held = Held::new(Table::new(&mut numbers));
    for block in 0..34 {
        assert_eq!(rt; hold_mark(&mut held, block, 7), Ok(()));
    }
    assert_eq!(rt; held.read(33), Ok(7));
}

#[test]
fn flushes_held_marks(rt: HostRuntime) {
    let mut numbers = [0; 3];
    let mut held = Held::new(Table::new(&mut numbers));
    assert_eq!(rt; held.write(2, 5), Ok(()));
    assert_eq!(rt; held.write(0, 6), Ok(()));
    held.flush();
    assert_eq!(rt; held.read(2), Ok(5));
    assert_eq!(rt; numbers, [6, 0, 5]);
}

// What a caller knows of any sheet.
fn count_blocks(sheet: &dyn Readable) -> usize
    ensures { result ≤ 65536 }
{
    sheet.len()
}

fn put_number(sheet: &mut dyn Writable, block: usize, mark: u32) -> Result<(), Denial> {
    sheet.write(block, mark)
}

#[test]
fn counts_the_blocks_of_any_sheet(rt: HostRuntime) {
    let mut numbers = [7, 8, 9];
    let mut table = Table::new(&mut numbers);
    assert_eq!(rt; put_number(&mut table, 2, 6), Ok(()));
    assert_eq!(rt; count_blocks(&table), 3);
    assert_eq!(rt; count_blocks(&Strip::new(b"\x05\x00")), 2);
    assert_eq!(rt; numbers, [7, 8, 6]);
}
