//! Why an exchange is not printed.

ghost use Rattle.std.specs.Prelude.{◌≡◌};
ghost use Rattle.p21_print.specs.declared.error.PrintErr.TheVariants.{NoMemory as WantOfMemory};

use nc_base::NoMemory;
use thiserror::Error;

/// Why an exchange is not printed.
#[derive(Clone, Copy, Debug, PartialEq, Eq, Error)]
pub enum PrintErr {
    /// More parentheses lie in one another than in any file. No exchange that was read, or made by `Exchange::of`, is such a one.
    #[error("parentheses lie too deep in one another")]
    TooDeep,
    /// Memory ran out.
    #[error("out of memory")]
    NoMemory,
}

impl From<NoMemory> for PrintErr {
    ghost from_gives = { λ _ e. e ≡ WantOfMemory };

    fn from(_e: NoMemory) -> PrintErr {
        PrintErr::NoMemory
    }
}
