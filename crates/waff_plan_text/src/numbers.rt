//! Numbers in a text.

ghost use Rattle.std.specs.Prelude.{[], ◌∷◌, ◌++◌, OnOk, Some, decimal};
ghost use Rattle.waff_plan_text.specs.Lines.{Adds};
ghost use Rattle.waff_plan_text.specs.Spelling.{numbers_field, worker_field};

use itoa::Buffer;
use std::alloc::AllocError;
use std::fmt;

/// The number of a worker or of workers; `-` where there is none.
#[derive(Clone, Copy)]
pub struct WorkerField(pub Option<u32>);

impl fmt::Display for WorkerField {
    ghost output = { λ workers. Some (worker_field workers.0) };

    fn fmt<W: fmt::Write>(&self, f: &mut fmt::Formatter<W>) -> fmt::Result {
        match self.0 {
            Some(k) => write!(f, "{k}"),
            None => write!(f, "-"),
        }
    }
}

/// Appends the number in decimal.
pub fn push_number(text: &mut String, number: u64) -> Result<(), AllocError>
    ensures { OnOk result (Adds text.old text.new (decimal number)) }
{
    let mut buffer = Buffer::new();
    text.push_str(buffer.format(number))
}

/// Appends the number in decimal, and a comma.
pub fn push_field(text: &mut String, number: u64) -> Result<(), AllocError>
    ensures { OnOk result (Adds text.old text.new (decimal number ++ 44 ∷ [])) }
{
    push_number(text, number)?;
    text.push(',')
}

/// Appends the numbers, joined by spaces.
pub fn push_numbers(text: &mut String, numbers: &[u32]) -> Result<(), AllocError>
    ensures { OnOk result (Adds text.old text.new (numbers_field numbers.now)) }
{
    let Some((first, others)) = numbers.split_first() else {
        return Ok(());
    };
    push_number(text, u64::from(*first))?;
    for number in others {
        text.push(' ')?;
        push_number(text, u64::from(*number))?;
    }
    Ok(())
}
