use sqlite_items::Boxed;

/// A word of the function by its number, or a number.
#[derive(Clone, Copy, Debug, PartialEq, Eq)]
pub enum Atom {
    Word(u32),
    Number(u64),
}

/// The operators on one word. A digit says how many low bytes of the word count.
#[derive(Clone, Copy, Debug, PartialEq, Eq)]
pub enum OneOp {
    /// The low 32 bits.
    Lo4,
    /// 32 bits with sign to 64.
    Sx4,
    /// A byte with sign to 32 bits.
    Sb4,
    /// A short with sign to 32 bits.
    Sh4,
    /// The low 8 bits.
    Zb,
    /// The low 16 bits.
    Zh,
}

/// The operators on two words.
#[derive(Clone, Copy, Debug, PartialEq, Eq)]
pub enum TwoOp {
    Add8,
    Sub8,
    Mul8,
    Add4,
    Sub4,
    Mul4,
    /// Signed, toward zero; it has no meaning for a divisor of 0.
    Div8,
    Rem8,
    Div4,
    Rem4,
    Shl8,
    /// It keeps the sign.
    Shr8,
    Ushr8,
    Shl4,
    Shr4,
    Ushr4,
    And,
    Or,
    Xor,
    Eq,
    Ne,
    /// Less without sign.
    Ltu,
    Lt8,
    Lt4,
    /// -1 as 32 bits, 0 or 1.
    Cmp8,
}

/// Operators nest at most 32 deep; an atom nests 0 deep.
#[cycle(expression)]
#[derive(Drop)]
pub enum Expr {
    Atom(Atom),
    One {
        op: OneOp,
        a: Boxed<Expr>,
    },
    Two {
        op: TwoOp,
        a: Boxed<Expr>,
        b: Boxed<Expr>,
    },
}
