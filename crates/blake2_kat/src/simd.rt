//! Lanes and rounds.

use blake2::rows::{u32x4, u64x4};

#[test]
fn shuffles_move_lanes(rt: HostRuntime) {
    let row = u32x4::new(1, 2, 3, 4);
    assert!(rt; row.shuffle_left_1().to_bytes() == u32x4::new(2, 3, 4, 1).to_bytes());
    assert!(rt; row.shuffle_left_2().to_bytes() == u32x4::new(3, 4, 1, 2).to_bytes());
    assert!(rt; row.shuffle_left_3().to_bytes() == u32x4::new(4, 1, 2, 3).to_bytes());
    assert!(rt; row.shuffle_right_1().to_bytes() == u32x4::new(4, 1, 2, 3).to_bytes());
}

#[test]
fn rotations_turn_bits_of_each_lane(rt: HostRuntime) {
    let rotated = u32x4::new(1, 2, 3, 4).rotate_right_const(1);
    assert!(rt; rotated.to_bytes() == u32x4::new(2147483648, 1, 2147483649, 2).to_bytes());
    let row = u64x4::new(1, 2, 3, 4);
    assert!(rt; row.rotate_right_const(63).to_bytes() == u64x4::new(2, 4, 6, 8).to_bytes());
    assert!(rt; row.rotate_right_const(64).to_bytes() == row.to_bytes());
}

#[test]
fn sums_xors_and_gathers_are_by_lane(rt: HostRuntime) {
    let sum = u32x4::new(4294967295, 0, 0, 1) + u32x4::new(1, 1, 1, 1);
    assert!(rt; sum.to_bytes() == u32x4::new(0, 1, 1, 2).to_bytes());
    let differences = u32x4::new(1, 2, 3, 4) ^ u32x4::new(4, 3, 2, 1);
    assert!(rt; differences.to_bytes() == u32x4::new(5, 1, 1, 5).to_bytes());
    let gathered = u64x4::gather(&[10, 11, 12, 13, 14, 15], 5, 0, 0, 3);
    assert!(rt; gathered.to_bytes() == u64x4::new(15, 10, 10, 13).to_bytes());
    let bytes = u32x4::new(1, 2, 3, 4).to_bytes();
    assert!(rt; bytes == [1u8, 0, 0, 0, 2, 0, 0, 0, 3, 0, 0, 0, 4, 0, 0, 0]);
}

#[test]
fn rounds_of_zeros_are_zeros(rt: HostRuntime) {
    let order = [0, 1, 2, 3, 4, 5, 6, 7, 8, 9, 10, 11, 12, 13, 14, 15];
    let zeros = u64x4::new(0, 0, 0, 0);
    let mut rows = [zeros, zeros, zeros, zeros];
    u64x4::round(&mut rows, &[0; 16], &order);
    for row in &rows {
        assert!(rt; row.to_bytes() == zeros.to_bytes());
    }
    u64x4::unround(&mut rows, &[0; 16], &order);
    for row in &rows {
        assert!(rt; row.to_bytes() == zeros.to_bytes());
    }
}
