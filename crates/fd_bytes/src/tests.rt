use super::*;

#[test]
fn fields_lie_in_either_byte_order(rt: HostRuntime) {
    let mut buf = [0xee; 14];
    put_u32_be(&mut buf, 1, 0x0102_0304);
    put_u64_le(&mut buf, 5, 0x0102_0304_0506_0708);
    assert_eq!(rt; buf, [0xee, 1, 2, 3, 4, 8, 7, 6, 5, 4, 3, 2, 1, 0xee]);
    assert_eq!(rt; get_u32_be(&buf, 1), 0x0102_0304);
    assert_eq!(rt; get_u32_le(&buf, 1), 0x0403_0201);
    assert_eq!(rt; get_u64_be(&buf, 5), 0x0807_0605_0403_0201);
    assert_eq!(rt; get_u64_le(&buf, 5), 0x0102_0304_0506_0708);
    put_u32_le(&mut buf, 1, 0x0506_0708);
    put_u64_be(&mut buf, 5, 0x1112_1314_1516_1718);
    assert_eq!(rt;
        buf,
        [
            0xee, 8, 7, 6, 5, 0x11, 0x12, 0x13, 0x14, 0x15, 0x16, 0x17, 0x18, 0xee
        ]
    );
}

#[test]
fn labels_end_at_a_zero_byte_or_are_cut(rt: HostRuntime) {
    assert_eq!(rt; Label::<8>::cut(b"rv\0junk").bytes(), b"rv".as_slice());
    assert_eq!(rt;
        Label::<8>::cut(b"FreeBSD 14").bytes(),
        b"FreeBSD".as_slice()
    );
    assert_eq!(rt;
        Label::<8>::cut_version(b"FreeBSD\0 14").bytes(),
        b"FreeBSD".as_slice()
    );
    assert_eq!(rt;
        Label::<8>::cut_version(b"FreeBSD 14").bytes(),
        b"FreeBS\n".as_slice()
    );
    assert_eq!(rt; Label::<8>::read(b"rv\0junk!").bytes(), b"rv".as_slice());
    assert_eq!(rt;
        Label::<8>::read(b"FreeBSD!").bytes(),
        b"FreeBSD!".as_slice()
    );
    assert_eq!(rt; Label::<1>::cut(b"rv"), Label::<1>::read(b"\0"));
}

#[test]
fn numbers_are_decimal_or_hexadecimal(rt: HostRuntime) {
    let spelled = [
        (b"0".as_slice(), 0),
        (b"00000000000000000512".as_slice(), 512),
        (b"18446744073709551615".as_slice(), u64::MAX),
        (b"0x200".as_slice(), 512),
        (b"0xFfFfFfFfFfFfFfFf".as_slice(), u64::MAX),
        (b"0x0000000000000010".as_slice(), 16),
    ];
    for (text, number) in spelled {
        assert_eq!(rt; read_number(text), Ok(number));
    }
    let bad = [
        b"".as_slice(),
        b"+512".as_slice(),
        b"-1".as_slice(),
        b"51a".as_slice(),
        b" 512".as_slice(),
        b"18446744073709551616".as_slice(),
        b"99999999999999999999".as_slice(),
        b"000000000000000000512".as_slice(),
        b"0x".as_slice(),
        b"0X200".as_slice(),
        b"0xg".as_slice(),
        b"0x00000000000000200".as_slice(),
    ];
    for text in bad {
        assert_eq!(rt; read_number(text), Err(BadNumber));
    }
}

#[test]
fn headers_name_their_architecture(rt: HostRuntime) {
    assert_eq!(rt; Arch::of_header(b"amd64", 2), Some(Arch::Amd64));
    assert_eq!(rt; Arch::of_header(b"aarch64", 1), Some(Arch::Arm64));
    assert_eq!(rt; Arch::of_header(b"riscv64", 1), Some(Arch::Riscv));
    assert_eq!(rt; Arch::of_header(b"amd64", 1), None);
    assert_eq!(rt; Arch::of_header(b"arm64", 1), None);
}

#[test]
fn a_label_is_cloned(rt: HostRuntime) -> Result<(), std::test::Fail> {
    let label = Label::<12>::cut(b"riscv64");
    assert_eq!(rt; label.clone()?, label);
    Ok(())
}
