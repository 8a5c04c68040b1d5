// Worked totals of products, from the definition.
use crate::dot_product;
use field::{Binary, Prime};

#[test]
fn products_of_two_lists(rt: HostRuntime) {
    assert_eq!(rt; dot_product::<Prime>(&[65534, 1], &[15, 45]), 0);
    assert_eq!(rt; dot_product::<Prime>(&[2, 3], &[5, 7, 11]), 31);
    assert_eq!(rt; dot_product::<Prime>(&[], &[5]), 0);
    assert_eq!(rt; dot_product::<Binary>(&[29, 1], &[1, 29]), 0);
    assert_eq!(rt; dot_product::<Binary>(&[128], &[2, 3]), 29);
}
