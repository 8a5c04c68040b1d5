// Worked values of the two fields, from their definitions.
use crate::*;
use std::process::Abort;

// a, b, their sum, product and difference
fn check_pairs<F: Field>(rt: &impl Abort, rows: &[(u32, u32, u32, u32, u32)]) {
    for (a, b, sum, product, difference) in rows {
        assert_eq!(rt; F::add(*a, *b), *sum);
        assert_eq!(rt; F::mul(*a, *b), *product);
        assert_eq!(rt; F::sub(*a, *b), *difference);
    }
}

// a, its negative and its inverse
fn check_codes<F: Field>(rt: &impl Abort, rows: &[(u32, u32, u32)]) {
    for (a, negative, inverse) in rows {
        assert_eq!(rt; F::neg(*a), *negative);
        assert_eq!(rt; F::inv(*a), *inverse);
    }
}

// a, an exponent and the power
fn check_powers<F: Field>(rt: &impl Abort, rows: &[(u32, usize, u32)]) {
    for (a, exponent, power) in rows {
        assert_eq!(rt; F::pow(*a, *exponent), *power);
    }
}

// an exponent and the power of the base
fn check_base_powers<F: Field>(rt: &impl Abort, rows: &[(usize, u32)]) {
    for (exponent, power) in rows {
        assert_eq!(rt; F::base_pow(*exponent), *power);
    }
}

#[test]
fn prime_values(rt: HostRuntime) {
    check_pairs::<Prime>(
        &rt,
        &[
            (0, 0, 0, 0, 0),
            (1, 65536, 0, 65536, 2),
            (2, 65535, 0, 65533, 4),
            (3, 21846, 21849, 1, 43694),
            (65536, 65536, 65535, 1, 0),
            (12345, 54321, 1129, 18161, 23561),
            (65537, 5, 5, 0, 65532),
            (65538, 65541, 5, 4, 65534),
            (4294967295, 2, 2, 0, 65535),
            (3000000000, 7, 43832, 44627, 43818),
        ],
    );
    check_codes::<Prime>(
        &rt,
        &[
            (0, 0, 0),
            (1, 65536, 1),
            (2, 65535, 32769),
            (3, 65534, 21846),
            (65536, 1, 65536),
            (65537, 0, 0),
            (65540, 65534, 21846),
            (12345, 53192, 31651),
            (4294967294, 1, 65536),
        ],
    );
    check_powers::<Prime>(
        &rt,
        &[
            (0, 0, 1),
            (0, 5, 0),
            (7, 0, 1),
            (2, 16, 65536),
            (3, 15, 61841),
            (12345, 1000, 8702),
            (65542, 20, 46859),
        ],
    );
    check_base_powers::<Prime>(
        &rt,
        &[
            (0, 1),
            (1, 3),
            (2, 9),
            (15, 61841),
            (4096, 64),
            (32768, 65536),
            (65535, 21846),
            (65536, 1),
            (131075, 27),
        ],
    );
}

#[test]
fn binary_values(rt: HostRuntime) {
    check_pairs::<Binary>(
        &rt,
        &[
            (0, 0, 0, 0, 0),
            (1, 255, 254, 255, 254),
            (2, 128, 130, 29, 130),
            (3, 3, 0, 5, 0),
            (83, 202, 153, 143, 153),
            (255, 255, 0, 226, 0),
            (29, 200, 213, 221, 213),
            (256, 7, 7, 0, 7),
            (258, 384, 130, 29, 130),
            (4294967295, 2, 253, 227, 253),
        ],
    );
    check_codes::<Binary>(
        &rt,
        &[
            (0, 0, 0),
            (1, 1, 1),
            (2, 2, 142),
            (3, 3, 244),
            (128, 128, 27),
            (255, 255, 253),
            (256, 0, 0),
            (257, 1, 1),
            (4294967294, 254, 126),
        ],
    );
    check_powers::<Binary>(
        &rt,
        &[
            (0, 0, 1),
            (0, 5, 0),
            (7, 0, 1),
            (2, 8, 29),
            (3, 255, 1),
            (255, 1000, 94),
            (259, 20, 233),
        ],
    );
    check_base_powers::<Binary>(
        &rt,
        &[
            (0, 1),
            (1, 2),
            (7, 128),
            (8, 29),
            (100, 17),
            (254, 142),
            (255, 1),
            (256, 2),
            (1000, 235),
        ],
    );
}

#[test]
fn codes_lie_below_the_size(rt: HostRuntime) {
    assert!(rt; Prime::is_code(65536));
    assert!(rt; !Prime::is_code(65537));
    assert!(rt; Binary::is_code(255));
    assert!(rt; !Binary::is_code(256));
}
