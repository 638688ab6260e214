// What callers name by a number: the two offices on a unit, and the consoles.
ghost use Rattle.std.specs.Prelude.{◌≡◌, ok_or};
ghost use Rattle.rules.specs.Desks.{console_number, console_of};
ghost use Rattle.rules.specs.Stations.{office_of};
ghost use Rattle.rules.specs.declared.refusals.Refusal.TheVariants.{NoSuchConsole, NoSuchOffice};

use crate::{Console, Refusal, Which};

impl TryFrom<usize> for Which {
    type Error = Refusal;

    ghost try_from_gives = { λ n r. r ≡ ok_or (office_of n) NoSuchOffice };

    fn try_from(n: usize) -> Result<Which, Refusal> {
        match n {
            1 => Ok(Which::First),
            2 => Ok(Which::Second),
            _ => Err(Refusal::NoSuchOffice),
        }
    }
}

impl TryFrom<usize> for Console {
    type Error = Refusal;

    ghost try_from_gives = { λ n r. r ≡ ok_or (console_of n) NoSuchConsole };

    fn try_from(n: usize) -> Result<Console, Refusal> {
        match n {
            1 => Ok(Console::One),
            2 => Ok(Console::Two),
            3 => Ok(Console::Three),
            4 => Ok(Console::Four),
            _ => Err(Refusal::NoSuchConsole),
        }
    }
}

impl From<Console> for usize {
    ghost from_gives = { λ console n. n ≡ console_number console };

    fn from(console: Console) -> usize {
        console as usize
    }
}
