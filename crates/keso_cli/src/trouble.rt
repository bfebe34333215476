use kes_text::{Kind, NoMemory, Refusal};

/// What is asked for of such an input isn't done yet.
pub const LATER: Refusal = Refusal {
    file: 0,
    kind: Kind::Later,
    at: 0,
};

/// Why a command did not do what it was asked for.
#[derive(Drop)]
pub enum Trouble<'a> {
    /// The words are no command.
    Usage,
    /// The file of this name can't be read.
    CannotRead(&'a str),
    /// The file of this name is refused.
    Refused(Refusal, &'a str),
    /// The file of this name can't be written.
    CannotWrite(String),
    CannotWriteOutput,
    NoMemory,
}

impl From<NoMemory> for Trouble<'_> {
    ghost use Rattle.std.specs.Prelude.{◌≡◌};
    ghost use Rattle.keso_cli.specs.declared.trouble.Trouble.TheVariants.{NoMemory};

    ghost from_gives = { λ _ e. e ≡ NoMemory };

    fn from(_error: NoMemory) -> Self {
        Trouble::NoMemory
    }
}
