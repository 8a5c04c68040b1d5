// Worked generators, from an independent computation that solves the linear equations of the definition.
use crate::shortest_generator;
use denial::Denial;
use field::{Binary, Field, Prime};
use std::process::Abort;

// What the memory holds before a call.
const BEFORE: u32 = 70_000;

// The generator is granted, and nothing behind it is altered.
fn check_granted<F: Field>(rt: &impl Abort, stretch: &[u32], generator: &[u32]) {
    let mut memory = [BEFORE; 18];
    let answer = shortest_generator::<F>(stretch, &mut memory);
    assert_eq!(rt; answer, Ok(generator.len().saturating_sub(1)));
    let (front, behind) = memory.split_at(generator.len().min(18));
    assert_eq!(rt; front, generator);
    assert!(rt; behind.iter().all(|number| *number == BEFORE));
}

// The call is denied over so many numbers of memory, and none of them is altered.
fn check_denied<F: Field>(rt: &impl Abort, stretch: &[u32], room: usize, denial: Denial) {
    let mut memory = [BEFORE; 18];
    let answer = shortest_generator::<F>(stretch, &mut memory[..room.min(18)]);
    assert_eq!(rt; answer, Err(denial));
    assert_eq!(rt; memory, [BEFORE; 18]);
}

#[test]
fn generators_over_the_prime_field(rt: HostRuntime) {
    check_granted::<Prime>(&rt, &[], &[1]);
    check_granted::<Prime>(&rt, &[0; 32], &[1]);
    check_granted::<Prime>(&rt, &[1, 1], &[65536, 1]);
    check_granted::<Prime>(&rt, &[5, 15, 45, 135], &[65534, 1]);
    check_granted::<Prime>(&rt, &[1, 27], &[65510, 1]);
    check_granted::<Prime>(&rt, &[5, 0], &[0, 1]);
    check_granted::<Prime>(&rt, &[0, 1, 17502, 0, 44807, 1], &[41663, 19594, 11240, 1]);
    check_granted::<Prime>(
        &rt,
        &[0, 0, 0, 55870, 4678, 23991, 32709, 0, 0, 0, 40810, 0],
        &[62282, 4064, 59460, 22710, 47003, 47593, 1],
    );
    check_granted::<Prime>(
        &rt,
        &[
            11332, 33446, 1, 0, 1, 61832, 1, 47483, 0, 61933, 0, 0, 0, 1, 59786, 1, 1, 0, 57321, 1,
            1, 0, 0, 48906, 49026, 1, 1, 60770, 0, 0, 0, 1,
        ],
        &[
            17080, 50826, 55537, 40917, 61400, 3177, 839, 23177, 19280, 58063, 24738, 30779, 29458,
            17800, 15364, 50919, 1,
        ],
    );
}

#[test]
fn generators_over_the_binary_field(rt: HostRuntime) {
    check_granted::<Binary>(&rt, &[], &[1]);
    check_granted::<Binary>(&rt, &[255; 32], &[1, 1]);
    check_granted::<Binary>(&rt, &[1, 29], &[29, 1]);
    check_granted::<Binary>(&rt, &[0, 0, 251, 0, 0, 123], &[25, 0, 0, 1]);
    check_granted::<Binary>(
        &rt,
        &[
            48, 149, 114, 192, 106, 226, 224, 5, 106, 246, 195, 73, 33, 99,
        ],
        &[120, 42, 53, 28, 97, 194, 107, 1],
    );
    check_granted::<Binary>(
        &rt,
        &[
            139, 157, 148, 44, 72, 133, 241, 215, 237, 74, 204, 34, 186, 1, 219, 65, 133, 127, 175,
            80, 212, 237, 210, 139, 114, 211,
        ],
        &[
            135, 37, 2, 17, 23, 255, 183, 188, 110, 153, 121, 248, 159, 1,
        ],
    );
}

#[test]
fn denials_in_order(rt: HostRuntime) {
    check_denied::<Prime>(&rt, &[65537; 33], 16, Denial::StretchTooLong);
    check_denied::<Prime>(&rt, &[65536, 65537, 65538], 16, Denial::NoCode { index: 1 });
    check_denied::<Binary>(&rt, &[0, 259, 256], 17, Denial::NoCode { index: 1 });
    check_denied::<Prime>(&rt, &[0, 1], 16, Denial::NoRoom);
    check_denied::<Binary>(&rt, &[], 0, Denial::NoRoom);
    check_denied::<Prime>(&rt, &[0, 1], 17, Denial::GeneratorTooLong);
    check_denied::<Binary>(&rt, &[1], 17, Denial::GeneratorTooLong);
    check_denied::<Prime>(
        &rt,
        &[43990, 7042, 4778, 23305, 61780],
        17,
        Denial::GeneratorTooLong,
    );
}
