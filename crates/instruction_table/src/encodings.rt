//! How machine instructions are laid out, and what their operands are.

/// How a machine instruction is laid out: a format of the Principles of Operation, without its subletter.
#[derive(Clone, Copy, Debug, PartialEq, Eq)]
pub enum Encoding {
    Rr,
    I,
    E,
    Rx,
    Rs,
    Si,
    S,
    Ri,
    Ril,
    Rre,
    Rxy,
    Rsy,
    Ss,
    Ie,
    Mii,
    Rie,
    Ris,
    Rrd,
    Rrf,
    Rrs,
    Rsi,
    Rsl,
    Rxe,
    Rxf,
    Sil,
    Siy,
    Smi,
    Sse,
    Ssf,
    Vri,
    Vrr,
    Vrs,
    Vrv,
    Vrx,
    Vsi,
}

/// What an operand of a machine instruction is.
#[derive(Clone, Copy, Debug, PartialEq, Eq)]
pub enum Kind {
    /// A general register, 0 to 15.
    Register,
    /// A floating-point register, 0 to 15.
    FloatRegister,
    /// An access register, 0 to 15.
    AccessRegister,
    /// A control register, 0 to 15.
    ControlRegister,
    /// A vector register, 0 to 31.
    VectorRegister,
    /// A mask, 0 to 15.
    Mask,
    /// An immediate value, 0 to 15.
    Immediate4,
    /// An immediate value, 0 to 255.
    Immediate8,
    /// An immediate value, -128 to 255.
    Immediate8Signed,
    /// An immediate value, 0 to 4,095.
    Immediate12,
    /// An immediate value, -32,768 to 65,535.
    Immediate16,
    /// An immediate value that the machine takes without a sign, -32,768 to 65,535 all the same.
    Immediate16Unsigned,
    /// An immediate value of 32 bits, signed or not.
    Immediate32,
    /// An address with index.
    Indexed,
    /// The same with a long displacement.
    IndexedLong,
    /// An address whose index is a vector register, 0 to 31.
    VectorIndexed,
    /// An address without index.
    Based,
    /// The same with a long displacement.
    BasedLong,
    /// An address with a length, 0 to 256.
    LengthTo256,
    /// An address with a length, 0 to 16.
    LengthTo16,
    /// An address with a register in the length's place.
    RegisterLength,
    /// A relative target.
    Target,
}
