use crate::{
    NotText, Ranked, Stop, are_rising, cut, least, next_text, number, number_within, pair,
    text_rows,
};
use csv::StringRecord;

// A fault that is its own rank.
#[derive(Clone, Copy, Debug, PartialEq)]
struct Fault(u32);

impl Ranked for Fault {
    ghost rank = { λ f. f.0 };

    fn rank(&self) -> u32 {
        self.0
    }
}

#[test]
fn the_least_fault_is_told(rt: HostRuntime) {
    assert_eq!(rt; least(Fault(2), Fault(1)), Fault(1));
    let sum: Result<(u32, u32), Fault> = pair(Ok(1), Ok(2));
    assert_eq!(rt; sum, Ok((1, 2)));
    let refused: Result<(u32, u32), Fault> = pair(Err(Fault(4)), Err(Fault(3)));
    assert_eq!(rt; refused, Err(Fault(3)));
}

#[test]
fn a_text_is_cut_at_the_first_sign(rt: HostRuntime) {
    assert_eq!(rt; cut("set f:1 2", ' ').0, "set");
    assert!(rt; cut("set f:1 2", ' ').1.is_some());
    assert_eq!(rt; cut("f", ':').0, "f");
    assert!(rt; cut("f", ':').1.is_none());
    assert!(rt; cut("f:", ':').1.is_some());
}

#[test]
fn a_number_has_digits_and_no_leading_zero(rt: HostRuntime) {
    assert_eq!(rt; number("0"), Some(Some(0)));
    assert_eq!(rt; number("18446744073709551615"), Some(Some(u64::MAX)));
    assert_eq!(rt; number("18446744073709551616"), Some(None));
    assert_eq!(rt; number("99999999999999999999999999999"), Some(None));
    assert_eq!(rt; number(""), None);
    assert_eq!(rt; number("01"), None);
    assert_eq!(rt; number("00"), None);
    assert_eq!(rt; number("+1"), None);
    assert_eq!(rt; number("-1"), None);
    assert_eq!(rt; number("1 "), None);
    assert_eq!(rt; number_within("9", 1, 9), Some(9));
    assert_eq!(rt; number_within("0", 1, 9), None);
    assert_eq!(rt; number_within("10", 1, 9), None);
    assert_eq!(rt; number_within("18446744073709551617", 1, 9), None);
}

#[test]
fn numbers_of_any_length_are_compared(rt: HostRuntime) {
    assert!(rt; are_rising("4", "7"));
    assert!(rt; are_rising("7", "7"));
    assert!(rt; !are_rising("7", "4"));
    assert!(rt; !are_rising("04", "7"));
    assert!(rt; !are_rising("4", ""));
    assert!(rt; are_rising("9", "99999999999999999999999"));
    assert!(rt; !are_rising("99999999999999999999999", "9"));
    assert!(rt; are_rising("99999999999999999999998", "99999999999999999999999"));
    assert!(rt; !are_rising("99999999999999999999999", "99999999999999999999998"));
    assert!(rt; are_rising("99999999999999999999999", "100000000000000000000000"));
    assert!(rt; !are_rising("100000000000000000000000", "99999999999999999999999"));
}

#[test]
fn records_come_in_turn(rt: HostRuntime) -> Result<(), Stop<NotText>> {
    let mut rdr = text_rows(rt.alloc(), b"a,b\r\n\r\nc\n");
    let mut row = StringRecord::new(rt.alloc());
    assert!(rt; next_text(&mut rdr, &mut row)?);
    assert_eq!(rt; row.len(), 2);
    assert_eq!(rt; row.get(1).unwrap_or(""), "b");
    assert!(rt; next_text(&mut rdr, &mut row)?);
    assert_eq!(rt; row.len(), 1);
    assert!(rt; !next_text(&mut rdr, &mut row)?);
    Ok(())
}

#[test]
fn a_field_that_is_no_text_is_a_fault(rt: HostRuntime) {
    let mut rdr = text_rows(rt.alloc(), b"a,\xff\n");
    let mut row = StringRecord::new(rt.alloc());
    let read = next_text(&mut rdr, &mut row);
    assert!(rt; matches!(read, Err(Stop::Fault(_))), "{read:?}");
}
