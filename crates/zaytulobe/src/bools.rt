// A bool as a number, for callers in C, who may hand any number. Document 01, "Numbers of refusal".
ghost use Rattle.std.specs.Prelude.{◌≡◌, Ok, Err};
ghost use Rattle.answers.specs.declared.Refusal.TheVariants.{State};
ghost use Rattle.bits.specs.Choice.{pick};
ghost use Rattle.zaytulobe.specs.Bool.{is_bool, bool_of};

use answers::Refusal;

// The bool that a number stands for, refused where it is neither 0 nor 1.
pub(crate) fn bool_of(number: u32) -> Result<bool, Refusal>
    ensures { result ≡ pick (is_bool number) (Ok (bool_of number)) (Err State) }
{
    match number {
        0 => Ok(false),
        1 => Ok(true),
        _ => Err(Refusal::State),
    }
}
