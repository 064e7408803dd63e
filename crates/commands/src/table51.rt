// Function codes and their payload: clause 7.3.7.6, Table 51; request 6.
ghost use Rattle.std.specs.Prelude.{◌≡◌, ◌≤◌};
ghost use Rattle.commands.specs.Table51.{exactly, function_of};

// Whether a code is defined, and the fewest and the most payload words behind it.
#[derive(Clone, Copy)]
pub(crate) struct Function {
    pub defined: bool,
    pub fewest: usize,
    pub most: usize,
}

fn exactly(words: usize) -> Function
    ensures { result ≡ exactly words }
{
    Function {
        defined: true,
        fewest: words,
        most: words,
    }
}

// A user's code, and one that is not defined, have any number of words.
fn any_number(defined: bool) -> Function
    ensures { result ≡ record { defined = defined; fewest = 0; most = 7 } }
{
    Function {
        defined,
        fewest: 0,
        most: 7,
    }
}

// The line of a code.
#[tactic(auto, unfolding(crate::specs::Table51::function_of))]
pub(crate) fn function_of(code: u8) -> Function
    ensures line { result ≡ function_of code }
    ensures few { result.most ≤ 7 }
{
    match code {
        0 => exactly(0),
        1 => exactly(5),
        2 => exactly(2),
        3 => exactly(4),
        4 => exactly(5),
        5 => exactly(0),
        6 => exactly(0),
        16..=31 => any_number(true),
        _ => any_number(false),
    }
}
