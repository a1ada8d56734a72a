ghost use Rattle.std.specs.Prelude.{◌-◌, ◌^◌, refl};

use super::*;

// A type of a caller's own: no `Ordered` is written for it.
#[derive(Clone, Copy, PartialEq, Eq)]
struct Millimetres {
    count: u32,
}

impl Unsigned for Millimetres {
    ghost greatest = { 2 ^ 32 - 1 };

    ghost of = { λ n. record { count = n } };

    ghost number = { λ x. x.count };

    fn zero() -> Millimetres {
        Millimetres { count: 0 }
    }

    fn with_digit(self, d: u8) -> Option<Millimetres> {
        match self.count.with_digit(d) {
            Some(count) => Some(Millimetres { count }),
            None => None,
        }
    }

    fn to_u64(self) -> u64 {
        self.count.to_u64()
    }

    ghost number_of = { λ n. refl };

    ghost of_number = { λ n. refl };
}

fn of(count: u32) -> Result<Millimetres, NotNumber> {
    Ok(Millimetres { count })
}

const BAD: Result<Millimetres, NotNumber> = Err(NotNumber::Bad);

const MISSING: Result<Millimetres, NotNumber> = Err(NotNumber::Missing);

#[test]
fn texts_of_any_type(rt: HostRuntime) {
    let texts = [
        (b"0".as_slice(), of(0)),
        (b"19".as_slice(), of(19)),
        (b"20".as_slice(), of(20)),
        (b"21".as_slice(), BAD),
        (b"007".as_slice(), BAD),
        (b"1x".as_slice(), BAD),
        (b"-1".as_slice(), BAD),
        (b"4294967296".as_slice(), BAD),
        (b"".as_slice(), MISSING),
    ];
    for (text, said) in texts {
        assert!(rt; natural_of(text, Millimetres { count: 20 }) == said);
    }
    assert!(rt; natural_of(b"4294967295", Millimetres { count: 4294967295 }) == of(4294967295));
}

#[test]
fn digits_of_any_type(rt: HostRuntime) {
    let value = Some(Millimetres { count: 20 });
    assert!(rt; natural_by(b"20", value, 20) == of(20));
    assert!(rt; natural_by(b"20", value, 19) == BAD);
    assert!(rt; natural_by(b"20", value, 18446744073709551615) == of(20));
    assert!(rt; natural_by(b"020", value, 20) == BAD);
    assert!(rt; natural_by(b"", value, 20) == MISSING);
    assert!(rt; natural_by::<Millimetres>(b"4294967296", None, 4294967296) == BAD);
}
