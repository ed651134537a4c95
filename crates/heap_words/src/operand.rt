//! What a command names as a value.

/// A number below 2^48, or the contents of a register, 0 for `a` to 7 for `h`.
#[derive(Clone, Copy, Debug, PartialEq, Eq)]
pub enum Operand {
    Num(u64),
    Reg(u32),
}
