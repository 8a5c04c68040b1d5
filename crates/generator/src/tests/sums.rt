// Worked sums of tables, from an independent computation by the definition.
use crate::sum_at;
use denial::Denial;
use field::{Binary, Field, Prime};
use sheet::Table;
use std::process::Abort;

fn check_sum<F: Field>(rt: &impl Abort, numbers: &mut [u32], place: usize, sum: u32) {
    let table = Table::new(numbers);
    assert_eq!(rt; sum_at::<F, Table>(&table, place), Ok(sum));
}

#[test]
fn sums_over_the_prime_field(rt: HostRuntime) {
    check_sum::<Prime>(&rt, &mut [0, 5, 0, 0], 1, 15);
    check_sum::<Prime>(&rt, &mut [], 1, 0);
    check_sum::<Prime>(
        &rt,
        &mut [1, 1, 36078, 0, 1086638426, 3498128441, 0],
        495,
        62382,
    );
    check_sum::<Prime>(
        &rt,
        &mut [65536, 65536, 0, 0, 3980, 1, 65537, 65536, 1],
        1,
        64845,
    );
    check_sum::<Prime>(&rt, &mut [65536, 1, 0, 65537, 2114958373, 65536], 43, 47668);
    check_sum::<Prime>(&rt, &mut [26224, 65537, 42713], 254, 31782);
}

#[test]
fn sums_over_the_binary_field(rt: HostRuntime) {
    check_sum::<Binary>(&rt, &mut [1413739732, 0, 256, 255, 255], 0, 212);
    check_sum::<Binary>(&rt, &mut [219, 3388022252], 1, 30);
    check_sum::<Binary>(&rt, &mut [0, 0, 0, 0, 187, 238, 256, 0, 256, 256], 255, 85);
    check_sum::<Binary>(
        &rt,
        &mut [
            1, 171, 131127397, 255, 1, 2514342338, 2833170689, 1, 1, 1656008912, 77,
        ],
        543,
        182,
    );
}

#[test]
fn denies_places_outside(rt: HostRuntime) {
    let mut numbers = [1];
    let table = Table::new(&mut numbers);
    assert_eq!(rt; sum_at::<Prime, Table>(&table, 543), Ok(1));
    assert_eq!(rt;
        sum_at::<Prime, Table>(&table, 544),
        Err(Denial::PlaceOutside { place: 544 })
    );
    assert_eq!(rt;
        sum_at::<Binary, Table>(&table, 4_294_967_295),
        Err(Denial::PlaceOutside {
            place: 4_294_967_295,
        })
    );
}
