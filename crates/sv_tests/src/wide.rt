use sv_first_judge::Wide;

#[test]
fn sums(rt: HostRuntime) {
    let most = Wide::new(u128::MAX, u128::MAX);
    let half = Wide::new(1 << 127, 0);
    let low = Wide::new(0, u128::MAX);
    let one = Wide::from_u64(1);
    for (a, b, sum) in [
        (one, one, Some(Wide::new(0, 2))),
        (low, one, Some(Wide::new(1, 0))),
        (low, low, Some(Wide::new(1, u128::MAX - 1))),
        (
            Wide::new(u128::MAX - 1, u128::MAX),
            one,
            Some(Wide::new(u128::MAX, 0)),
        ),
        (most, Wide::from_u64(0), Some(most)),
        (most, one, None),
        (one, most, None),
        (half, half, None),
        (half, Wide::new(u128::MAX >> 1, u128::MAX), Some(most)),
    ] {
        assert_eq!(rt; a.checked_add(b), sum);
    }
}
