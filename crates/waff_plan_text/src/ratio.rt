//! Ratios as they are printed.

ghost use Rattle.std.specs.Prelude.{Some};
ghost use Rattle.waff_plan_text.specs.Ratio.{hundredths_field, ratio_field, ratio_up_field};

use std::fmt;

/// A ratio of two numbers, rounded down to hundredths: `3.35`, and `-` where the second number is 0.
#[derive(Clone, Copy)]
pub struct Ratio(pub u64, pub u128);

impl fmt::Display for Ratio {
    ghost output = { λ ratio. Some (ratio_field ratio.0 ratio.1) };

    fn fmt<W: fmt::Write>(&self, f: &mut fmt::Formatter<W>) -> fmt::Result {
        if self.1 == 0 {
            write!(f, "-")
        } else {
            let hundredths = u128::from(self.0) * 100 / self.1;
            write!(f, "{}", Hundredths(hundredths))
        }
    }
}

/// A ratio of two numbers, rounded up to hundredths; `-` where the second number is 0.
#[derive(Clone, Copy)]
pub struct RatioUp(pub u64, pub u64);

impl fmt::Display for RatioUp {
    ghost output = { λ ratio. Some (ratio_up_field ratio.0 ratio.1) };

    fn fmt<W: fmt::Write>(&self, f: &mut fmt::Formatter<W>) -> fmt::Result {
        if self.1 == 0 {
            write!(f, "-")
        } else {
            let hundredths = (u128::from(self.0) * 100).div_ceil(u128::from(self.1));
            write!(f, "{}", Hundredths(hundredths))
        }
    }
}

/// The mean of so many numbers with this sum, rounded down to hundredths; `-` where there are none.
#[derive(Clone, Copy)]
pub struct Mean(pub u128, pub u32);

impl fmt::Display for Mean {
    ghost output = { λ mean. Some (ratio_field mean.0 mean.1) };

    fn fmt<W: fmt::Write>(&self, f: &mut fmt::Formatter<W>) -> fmt::Result {
        if self.1 == 0 {
            write!(f, "-")
        } else {
            let count = u128::from(self.1);
            let whole = self.0 / count;
            let part = self.0 % count * 100 / count;
            let tenth = part / 10;
            let hundredth = part % 10;
            write!(f, "{whole}.{tenth}{hundredth}")
        }
    }
}

/// A number of hundredths, with two digits after the point.
#[derive(Clone, Copy)]
struct Hundredths(u128);

impl fmt::Display for Hundredths {
    ghost output = { λ n. Some (hundredths_field n.0) };

    fn fmt<W: fmt::Write>(&self, f: &mut fmt::Formatter<W>) -> fmt::Result {
        let whole = self.0 / 100;
        let tenth = self.0 / 10 % 10;
        let hundredth = self.0 % 10;
        write!(f, "{whole}.{tenth}{hundredth}")
    }
}
