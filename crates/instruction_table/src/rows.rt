//! The machine instructions, as tools/instructions/make.py wrote them from the table beside it: change that, not this.
use crate::{Encoding, Format, Kind};

/// A mnemonic, with blanks behind it, and the place of its format in `FORMATS`.
pub struct Row {
    pub mnemonic: [u8; 8],
    pub format: u8,
}

/// Rows, each a mnemonic and the place of its format.
macro_rules! rows {
    ($($mnemonic:literal $format:literal;)*) => {
        [$(Row {
            mnemonic: *$mnemonic,
            format: $format,
        }),*]
    };
}

/// The kinds of operands, list after list.
#[rattlefmt::skip]
pub static KINDS: [Kind; 380] = [
    Kind::Register,
    Kind::Register, Kind::Register,
    Kind::Register, Kind::Register, Kind::Register,
    Kind::Register, Kind::Register, Kind::Register, Kind::Mask,
    Kind::Register, Kind::Register, Kind::Mask,
    Kind::Register, Kind::Register, Kind::Mask, Kind::Based,
    Kind::Register, Kind::Register, Kind::Mask, Kind::Target,
    Kind::Register, Kind::Register, Kind::Immediate8, Kind::Immediate8, Kind::Immediate8,
    Kind::Register, Kind::Register, Kind::Immediate16,
    Kind::Register, Kind::Register, Kind::Based,
    Kind::Register, Kind::Register, Kind::Based, Kind::Based,
    Kind::Register, Kind::Register, Kind::BasedLong,
    Kind::Register, Kind::Register, Kind::Target,
    Kind::Register, Kind::FloatRegister,
    Kind::Register, Kind::FloatRegister, Kind::Mask,
    Kind::Register, Kind::AccessRegister,
    Kind::Register, Kind::VectorRegister, Kind::Mask, Kind::Mask,
    Kind::Register, Kind::VectorRegister, Kind::Based,
    Kind::Register, Kind::VectorRegister, Kind::Based, Kind::Mask,
    Kind::Register, Kind::Mask, Kind::FloatRegister,
    Kind::Register, Kind::Mask, Kind::FloatRegister, Kind::Mask,
    Kind::Register, Kind::Mask, Kind::Based,
    Kind::Register, Kind::Mask, Kind::BasedLong,
    Kind::Register, Kind::Immediate8, Kind::Mask, Kind::Based,
    Kind::Register, Kind::Immediate8, Kind::Mask, Kind::Target,
    Kind::Register, Kind::Immediate8, Kind::Based,
    Kind::Register, Kind::Immediate8, Kind::Target,
    Kind::Register, Kind::Immediate8Signed, Kind::Mask, Kind::Based,
    Kind::Register, Kind::Immediate8Signed, Kind::Mask, Kind::Target,
    Kind::Register, Kind::Immediate8Signed, Kind::Based,
    Kind::Register, Kind::Immediate8Signed, Kind::Target,
    Kind::Register, Kind::Immediate16,
    Kind::Register, Kind::Immediate16, Kind::Mask,
    Kind::Register, Kind::Immediate16Unsigned,
    Kind::Register, Kind::Immediate16Unsigned, Kind::Mask,
    Kind::Register, Kind::Immediate32,
    Kind::Register, Kind::Indexed,
    Kind::Register, Kind::Indexed, Kind::Mask,
    Kind::Register, Kind::IndexedLong,
    Kind::Register, Kind::Based,
    Kind::Register, Kind::Based, Kind::Register, Kind::Based,
    Kind::Register, Kind::Based, Kind::Based,
    Kind::Register, Kind::BasedLong,
    Kind::Register, Kind::BasedLong, Kind::Mask,
    Kind::Register, Kind::Target,
    Kind::FloatRegister,
    Kind::FloatRegister, Kind::Register,
    Kind::FloatRegister, Kind::FloatRegister,
    Kind::FloatRegister, Kind::FloatRegister, Kind::Register,
    Kind::FloatRegister, Kind::FloatRegister, Kind::Register, Kind::Mask,
    Kind::FloatRegister, Kind::FloatRegister, Kind::FloatRegister,
    Kind::FloatRegister, Kind::FloatRegister, Kind::FloatRegister, Kind::Mask,
    Kind::FloatRegister, Kind::FloatRegister, Kind::Mask,
    Kind::FloatRegister, Kind::FloatRegister, Kind::Indexed,
    Kind::FloatRegister, Kind::Mask, Kind::Register, Kind::Mask,
    Kind::FloatRegister, Kind::Mask, Kind::FloatRegister,
    Kind::FloatRegister, Kind::Mask, Kind::FloatRegister, Kind::Mask,
    Kind::FloatRegister, Kind::Indexed,
    Kind::FloatRegister, Kind::IndexedLong,
    Kind::FloatRegister, Kind::LengthTo256, Kind::Mask,
    Kind::AccessRegister, Kind::Register,
    Kind::AccessRegister, Kind::AccessRegister,
    Kind::AccessRegister, Kind::AccessRegister, Kind::Based,
    Kind::AccessRegister, Kind::AccessRegister, Kind::BasedLong,
    Kind::ControlRegister, Kind::ControlRegister, Kind::Based,
    Kind::ControlRegister, Kind::ControlRegister, Kind::BasedLong,
    Kind::VectorRegister,
    Kind::VectorRegister, Kind::Register, Kind::Register,
    Kind::VectorRegister, Kind::Register, Kind::Immediate8, Kind::Mask,
    Kind::VectorRegister, Kind::Register, Kind::Based,
    Kind::VectorRegister, Kind::Register, Kind::Based, Kind::Mask,
    Kind::VectorRegister, Kind::VectorRegister,
    Kind::VectorRegister, Kind::VectorRegister, Kind::VectorRegister,
    Kind::VectorRegister, Kind::VectorRegister, Kind::VectorRegister, Kind::VectorRegister,
    Kind::VectorRegister, Kind::VectorRegister, Kind::VectorRegister, Kind::VectorRegister, Kind::Mask,
    Kind::VectorRegister, Kind::VectorRegister, Kind::VectorRegister, Kind::VectorRegister, Kind::Mask, Kind::Mask,
    Kind::VectorRegister, Kind::VectorRegister, Kind::VectorRegister, Kind::VectorRegister, Kind::Immediate8,
    Kind::VectorRegister, Kind::VectorRegister, Kind::VectorRegister, Kind::Mask,
    Kind::VectorRegister, Kind::VectorRegister, Kind::VectorRegister, Kind::Mask, Kind::Mask,
    Kind::VectorRegister, Kind::VectorRegister, Kind::VectorRegister, Kind::Mask, Kind::Mask, Kind::Mask,
    Kind::VectorRegister, Kind::VectorRegister, Kind::VectorRegister, Kind::Immediate8,
    Kind::VectorRegister, Kind::VectorRegister, Kind::VectorRegister, Kind::Immediate8, Kind::Mask,
    Kind::VectorRegister, Kind::VectorRegister, Kind::Mask,
    Kind::VectorRegister, Kind::VectorRegister, Kind::Mask, Kind::Mask,
    Kind::VectorRegister, Kind::VectorRegister, Kind::Mask, Kind::Mask, Kind::Mask,
    Kind::VectorRegister, Kind::VectorRegister, Kind::Immediate8, Kind::Mask,
    Kind::VectorRegister, Kind::VectorRegister, Kind::Immediate8, Kind::Immediate8, Kind::Mask,
    Kind::VectorRegister, Kind::VectorRegister, Kind::Immediate12,
    Kind::VectorRegister, Kind::VectorRegister, Kind::Immediate12, Kind::Mask, Kind::Mask,
    Kind::VectorRegister, Kind::VectorRegister, Kind::Immediate16Unsigned,
    Kind::VectorRegister, Kind::VectorRegister, Kind::Immediate16Unsigned, Kind::Mask,
    Kind::VectorRegister, Kind::VectorRegister, Kind::Based,
    Kind::VectorRegister, Kind::VectorRegister, Kind::Based, Kind::Mask,
    Kind::VectorRegister, Kind::Immediate8, Kind::Immediate8,
    Kind::VectorRegister, Kind::Immediate8, Kind::Immediate8, Kind::Mask,
    Kind::VectorRegister, Kind::Immediate16,
    Kind::VectorRegister, Kind::Immediate16, Kind::Mask,
    Kind::VectorRegister, Kind::Immediate16Unsigned,
    Kind::VectorRegister, Kind::Immediate16Unsigned, Kind::Immediate4,
    Kind::VectorRegister, Kind::Indexed,
    Kind::VectorRegister, Kind::Indexed, Kind::Mask,
    Kind::VectorRegister, Kind::VectorIndexed, Kind::Mask,
    Kind::VectorRegister, Kind::Based, Kind::Immediate8,
    Kind::Mask, Kind::Register,
    Kind::Mask, Kind::Indexed,
    Kind::Mask, Kind::IndexedLong,
    Kind::Mask, Kind::Target,
    Kind::Mask, Kind::Target, Kind::Based,
    Kind::Mask, Kind::Target, Kind::Target,
    Kind::Immediate4, Kind::Immediate4,
    Kind::Immediate8,
    Kind::Indexed,
    Kind::IndexedLong,
    Kind::Based,
    Kind::Based, Kind::Immediate8,
    Kind::Based, Kind::Immediate16,
    Kind::Based, Kind::Immediate16Unsigned,
    Kind::Based, Kind::Based,
    Kind::Based, Kind::Based, Kind::Register,
    Kind::Based, Kind::LengthTo256,
    Kind::BasedLong,
    Kind::BasedLong, Kind::Immediate8,
    Kind::BasedLong, Kind::Immediate8Signed,
    Kind::LengthTo256, Kind::Based,
    Kind::LengthTo16,
    Kind::LengthTo16, Kind::Based, Kind::Immediate4,
    Kind::LengthTo16, Kind::LengthTo16,
    Kind::RegisterLength, Kind::Based, Kind::Register,
    Kind::Target,
];

/// The formats of machine instructions, each with the place and the number of its kinds in `KINDS`.
#[rattlefmt::skip]
pub static FORMATS: [Format; 160] = [
    Format { encoding: Encoding::Rr, first: 0, count: 1, optional: 0 }, // R
    Format { encoding: Encoding::Rr, first: 1, count: 2, optional: 0 }, // R,R
    Format { encoding: Encoding::Rr, first: 139, count: 2, optional: 0 }, // F,F
    Format { encoding: Encoding::Rr, first: 330, count: 2, optional: 0 }, // M,R
    Format { encoding: Encoding::I, first: 346, count: 1, optional: 0 }, // I8
    Format { encoding: Encoding::E, first: 0, count: 0, optional: 0 }, // -
    Format { encoding: Encoding::Rx, first: 113, count: 2, optional: 0 }, // R,X
    Format { encoding: Encoding::Rx, first: 172, count: 2, optional: 0 }, // F,X
    Format { encoding: Encoding::Rx, first: 332, count: 2, optional: 0 }, // M,X
    Format { encoding: Encoding::Rx, first: 347, count: 1, optional: 0 }, // X
    Format { encoding: Encoding::Rs, first: 29, count: 3, optional: 0 }, // R,R,B
    Format { encoding: Encoding::Rs, first: 67, count: 3, optional: 0 }, // R,M,B
    Format { encoding: Encoding::Rs, first: 120, count: 2, optional: 0 }, // R,B
    Format { encoding: Encoding::Rs, first: 183, count: 3, optional: 0 }, // AR,AR,B
    Format { encoding: Encoding::Rs, first: 189, count: 3, optional: 0 }, // CR,CR,B
    Format { encoding: Encoding::Si, first: 349, count: 1, optional: 0 }, // B
    Format { encoding: Encoding::Si, first: 350, count: 2, optional: 0 }, // B,I8
    Format { encoding: Encoding::S, first: 349, count: 1, optional: 0 }, // B
    Format { encoding: Encoding::S, first: 0, count: 0, optional: 0 }, // -
    Format { encoding: Encoding::Ri, first: 101, count: 2, optional: 0 }, // R,I16
    Format { encoding: Encoding::Ri, first: 106, count: 2, optional: 0 }, // R,U16
    Format { encoding: Encoding::Ri, first: 134, count: 2, optional: 0 }, // R,T
    Format { encoding: Encoding::Ri, first: 336, count: 2, optional: 0 }, // M,T
    Format { encoding: Encoding::Ri, first: 379, count: 1, optional: 0 }, // T
    Format { encoding: Encoding::Ril, first: 111, count: 2, optional: 0 }, // R,I32
    Format { encoding: Encoding::Ril, first: 134, count: 2, optional: 0 }, // R,T
    Format { encoding: Encoding::Ril, first: 336, count: 2, optional: 0 }, // M,T
    Format { encoding: Encoding::Ril, first: 379, count: 1, optional: 0 }, // T
    Format { encoding: Encoding::Rre, first: 0, count: 1, optional: 0 }, // R
    Format { encoding: Encoding::Rre, first: 1, count: 2, optional: 0 }, // R,R
    Format { encoding: Encoding::Rre, first: 42, count: 2, optional: 0 }, // R,F
    Format { encoding: Encoding::Rre, first: 47, count: 2, optional: 0 }, // R,AR
    Format { encoding: Encoding::Rre, first: 136, count: 1, optional: 0 }, // F
    Format { encoding: Encoding::Rre, first: 137, count: 2, optional: 0 }, // F,R
    Format { encoding: Encoding::Rre, first: 139, count: 2, optional: 0 }, // F,F
    Format { encoding: Encoding::Rre, first: 179, count: 2, optional: 0 }, // AR,R
    Format { encoding: Encoding::Rre, first: 181, count: 2, optional: 0 }, // AR,AR
    Format { encoding: Encoding::Rre, first: 0, count: 0, optional: 0 }, // -
    Format { encoding: Encoding::Rxy, first: 118, count: 2, optional: 0 }, // R,XL
    Format { encoding: Encoding::Rxy, first: 174, count: 2, optional: 0 }, // F,XL
    Format { encoding: Encoding::Rxy, first: 334, count: 2, optional: 0 }, // M,XL
    Format { encoding: Encoding::Rxy, first: 348, count: 1, optional: 0 }, // XL
    Format { encoding: Encoding::Rsy, first: 36, count: 3, optional: 0 }, // R,R,BL
    Format { encoding: Encoding::Rsy, first: 70, count: 3, optional: 0 }, // R,M,BL
    Format { encoding: Encoding::Rsy, first: 129, count: 2, optional: 0 }, // R,BL
    Format { encoding: Encoding::Rsy, first: 131, count: 3, optional: 0 }, // R,BL,M
    Format { encoding: Encoding::Rsy, first: 186, count: 3, optional: 0 }, // AR,AR,BL
    Format { encoding: Encoding::Rsy, first: 192, count: 3, optional: 0 }, // CR,CR,BL
    Format { encoding: Encoding::Ss, first: 32, count: 4, optional: 0 }, // R,R,B,B
    Format { encoding: Encoding::Ss, first: 122, count: 4, optional: 0 }, // R,B,R,B
    Format { encoding: Encoding::Ss, first: 361, count: 2, optional: 0 }, // B,L1
    Format { encoding: Encoding::Ss, first: 368, count: 2, optional: 0 }, // L1,B
    Format { encoding: Encoding::Ss, first: 371, count: 3, optional: 0 }, // L2,B,I4
    Format { encoding: Encoding::Ss, first: 374, count: 2, optional: 0 }, // L2,L2
    Format { encoding: Encoding::Ss, first: 376, count: 3, optional: 0 }, // L3,B,R
    Format { encoding: Encoding::Ie, first: 344, count: 2, optional: 0 }, // I4,I4
    Format { encoding: Encoding::Mii, first: 341, count: 3, optional: 0 }, // M,T,T
    Format { encoding: Encoding::Rie, first: 1, count: 2, optional: 0 }, // R,R
    Format { encoding: Encoding::Rie, first: 17, count: 4, optional: 0 }, // R,R,M,T
    Format { encoding: Encoding::Rie, first: 21, count: 5, optional: 1 }, // R,R,I8,I8,[I8]
    Format { encoding: Encoding::Rie, first: 26, count: 3, optional: 0 }, // R,R,I16
    Format { encoding: Encoding::Rie, first: 39, count: 3, optional: 0 }, // R,R,T
    Format { encoding: Encoding::Rie, first: 77, count: 4, optional: 0 }, // R,I8,M,T
    Format { encoding: Encoding::Rie, first: 84, count: 3, optional: 0 }, // R,I8,T
    Format { encoding: Encoding::Rie, first: 91, count: 4, optional: 0 }, // R,I8S,M,T
    Format { encoding: Encoding::Rie, first: 98, count: 3, optional: 0 }, // R,I8S,T
    Format { encoding: Encoding::Rie, first: 101, count: 2, optional: 0 }, // R,I16
    Format { encoding: Encoding::Rie, first: 103, count: 3, optional: 0 }, // R,I16,M
    Format { encoding: Encoding::Rie, first: 106, count: 2, optional: 0 }, // R,U16
    Format { encoding: Encoding::Rie, first: 108, count: 3, optional: 0 }, // R,U16,M
    Format { encoding: Encoding::Ris, first: 73, count: 4, optional: 0 }, // R,I8,M,B
    Format { encoding: Encoding::Ris, first: 81, count: 3, optional: 0 }, // R,I8,B
    Format { encoding: Encoding::Ris, first: 87, count: 4, optional: 0 }, // R,I8S,M,B
    Format { encoding: Encoding::Ris, first: 95, count: 3, optional: 0 }, // R,I8S,B
    Format { encoding: Encoding::Rrd, first: 148, count: 3, optional: 0 }, // F,F,F
    Format { encoding: Encoding::Rrf, first: 1, count: 2, optional: 0 }, // R,R
    Format { encoding: Encoding::Rrf, first: 3, count: 3, optional: 0 }, // R,R,R
    Format { encoding: Encoding::Rrf, first: 6, count: 4, optional: 0 }, // R,R,R,M
    Format { encoding: Encoding::Rrf, first: 6, count: 4, optional: 1 }, // R,R,R,[M]
    Format { encoding: Encoding::Rrf, first: 6, count: 4, optional: 2 }, // R,R,[R],[M]
    Format { encoding: Encoding::Rrf, first: 10, count: 3, optional: 0 }, // R,R,M
    Format { encoding: Encoding::Rrf, first: 10, count: 3, optional: 1 }, // R,R,[M]
    Format { encoding: Encoding::Rrf, first: 44, count: 3, optional: 0 }, // R,F,M
    Format { encoding: Encoding::Rrf, first: 60, count: 3, optional: 0 }, // R,M,F
    Format { encoding: Encoding::Rrf, first: 63, count: 4, optional: 0 }, // R,M,F,M
    Format { encoding: Encoding::Rrf, first: 141, count: 3, optional: 0 }, // F,F,R
    Format { encoding: Encoding::Rrf, first: 144, count: 4, optional: 0 }, // F,F,R,M
    Format { encoding: Encoding::Rrf, first: 148, count: 3, optional: 0 }, // F,F,F
    Format { encoding: Encoding::Rrf, first: 151, count: 4, optional: 0 }, // F,F,F,M
    Format { encoding: Encoding::Rrf, first: 155, count: 3, optional: 0 }, // F,F,M
    Format { encoding: Encoding::Rrf, first: 161, count: 4, optional: 0 }, // F,M,R,M
    Format { encoding: Encoding::Rrf, first: 165, count: 3, optional: 0 }, // F,M,F
    Format { encoding: Encoding::Rrf, first: 168, count: 4, optional: 0 }, // F,M,F,M
    Format { encoding: Encoding::Rrs, first: 13, count: 4, optional: 0 }, // R,R,M,B
    Format { encoding: Encoding::Rrs, first: 29, count: 3, optional: 0 }, // R,R,B
    Format { encoding: Encoding::Rsi, first: 39, count: 3, optional: 0 }, // R,R,T
    Format { encoding: Encoding::Rsl, first: 176, count: 3, optional: 0 }, // F,L1,M
    Format { encoding: Encoding::Rsl, first: 370, count: 1, optional: 0 }, // L2
    Format { encoding: Encoding::Rxe, first: 115, count: 3, optional: 0 }, // R,X,M
    Format { encoding: Encoding::Rxe, first: 172, count: 2, optional: 0 }, // F,X
    Format { encoding: Encoding::Rxf, first: 158, count: 3, optional: 0 }, // F,F,X
    Format { encoding: Encoding::Sil, first: 352, count: 2, optional: 0 }, // B,I16
    Format { encoding: Encoding::Sil, first: 354, count: 2, optional: 0 }, // B,U16
    Format { encoding: Encoding::Siy, first: 363, count: 1, optional: 0 }, // BL
    Format { encoding: Encoding::Siy, first: 364, count: 2, optional: 0 }, // BL,I8
    Format { encoding: Encoding::Siy, first: 366, count: 2, optional: 0 }, // BL,I8S
    Format { encoding: Encoding::Smi, first: 338, count: 3, optional: 0 }, // M,T,B
    Format { encoding: Encoding::Sse, first: 356, count: 2, optional: 0 }, // B,B
    Format { encoding: Encoding::Ssf, first: 126, count: 3, optional: 0 }, // R,B,B
    Format { encoding: Encoding::Ssf, first: 358, count: 3, optional: 0 }, // B,B,R
    Format { encoding: Encoding::Vri, first: 195, count: 1, optional: 0 }, // V
    Format { encoding: Encoding::Vri, first: 199, count: 4, optional: 0 }, // V,R,I8,M
    Format { encoding: Encoding::Vri, first: 230, count: 5, optional: 0 }, // V,V,V,V,I8
    Format { encoding: Encoding::Vri, first: 250, count: 4, optional: 0 }, // V,V,V,I8
    Format { encoding: Encoding::Vri, first: 254, count: 5, optional: 0 }, // V,V,V,I8,M
    Format { encoding: Encoding::Vri, first: 271, count: 4, optional: 0 }, // V,V,I8,M
    Format { encoding: Encoding::Vri, first: 275, count: 5, optional: 0 }, // V,V,I8,I8,M
    Format { encoding: Encoding::Vri, first: 280, count: 3, optional: 0 }, // V,V,U12
    Format { encoding: Encoding::Vri, first: 283, count: 5, optional: 0 }, // V,V,U12,M,M
    Format { encoding: Encoding::Vri, first: 288, count: 3, optional: 0 }, // V,V,U16
    Format { encoding: Encoding::Vri, first: 291, count: 4, optional: 0 }, // V,V,U16,M
    Format { encoding: Encoding::Vri, first: 302, count: 3, optional: 0 }, // V,I8,I8
    Format { encoding: Encoding::Vri, first: 305, count: 4, optional: 0 }, // V,I8,I8,M
    Format { encoding: Encoding::Vri, first: 309, count: 2, optional: 0 }, // V,I16
    Format { encoding: Encoding::Vri, first: 311, count: 3, optional: 0 }, // V,I16,M
    Format { encoding: Encoding::Vri, first: 314, count: 2, optional: 0 }, // V,U16
    Format { encoding: Encoding::Vri, first: 316, count: 3, optional: 0 }, // V,U16,I4
    Format { encoding: Encoding::Vrr, first: 49, count: 4, optional: 1 }, // R,V,M,[M]
    Format { encoding: Encoding::Vrr, first: 196, count: 3, optional: 0 }, // V,R,R
    Format { encoding: Encoding::Vrr, first: 210, count: 2, optional: 0 }, // V,V
    Format { encoding: Encoding::Vrr, first: 212, count: 3, optional: 0 }, // V,V,V
    Format { encoding: Encoding::Vrr, first: 215, count: 4, optional: 0 }, // V,V,V,V
    Format { encoding: Encoding::Vrr, first: 219, count: 5, optional: 0 }, // V,V,V,V,M
    Format { encoding: Encoding::Vrr, first: 224, count: 6, optional: 0 }, // V,V,V,V,M,M
    Format { encoding: Encoding::Vrr, first: 224, count: 6, optional: 1 }, // V,V,V,V,M,[M]
    Format { encoding: Encoding::Vrr, first: 219, count: 5, optional: 1 }, // V,V,V,V,[M]
    Format { encoding: Encoding::Vrr, first: 235, count: 4, optional: 0 }, // V,V,V,M
    Format { encoding: Encoding::Vrr, first: 239, count: 5, optional: 0 }, // V,V,V,M,M
    Format { encoding: Encoding::Vrr, first: 244, count: 6, optional: 0 }, // V,V,V,M,M,M
    Format { encoding: Encoding::Vrr, first: 239, count: 5, optional: 1 }, // V,V,V,M,[M]
    Format { encoding: Encoding::Vrr, first: 235, count: 4, optional: 1 }, // V,V,V,[M]
    Format { encoding: Encoding::Vrr, first: 259, count: 3, optional: 0 }, // V,V,M
    Format { encoding: Encoding::Vrr, first: 262, count: 4, optional: 0 }, // V,V,M,M
    Format { encoding: Encoding::Vrr, first: 266, count: 5, optional: 0 }, // V,V,M,M,M
    Format { encoding: Encoding::Vrr, first: 262, count: 4, optional: 1 }, // V,V,M,[M]
    Format { encoding: Encoding::Vrr, first: 259, count: 3, optional: 1 }, // V,V,[M]
    Format { encoding: Encoding::Vrr, first: 288, count: 3, optional: 0 }, // V,V,U16
    Format { encoding: Encoding::Vrr, first: 314, count: 2, optional: 1 }, // V,[U16]
    Format { encoding: Encoding::Vrs, first: 53, count: 3, optional: 0 }, // R,V,B
    Format { encoding: Encoding::Vrs, first: 56, count: 4, optional: 0 }, // R,V,B,M
    Format { encoding: Encoding::Vrs, first: 203, count: 3, optional: 0 }, // V,R,B
    Format { encoding: Encoding::Vrs, first: 206, count: 4, optional: 0 }, // V,R,B,M
    Format { encoding: Encoding::Vrs, first: 295, count: 3, optional: 0 }, // V,V,B
    Format { encoding: Encoding::Vrs, first: 298, count: 4, optional: 0 }, // V,V,B,M
    Format { encoding: Encoding::Vrs, first: 298, count: 4, optional: 1 }, // V,V,B,[M]
    Format { encoding: Encoding::Vrv, first: 324, count: 3, optional: 0 }, // V,VX,M
    Format { encoding: Encoding::Vrx, first: 319, count: 2, optional: 0 }, // V,X
    Format { encoding: Encoding::Vrx, first: 321, count: 3, optional: 0 }, // V,X,M
    Format { encoding: Encoding::Vrx, first: 321, count: 3, optional: 1 }, // V,X,[M]
    Format { encoding: Encoding::Vsi, first: 327, count: 3, optional: 0 }, // V,B,I8
];

/// How many machine instructions there are.
pub const PLACES: usize = 2413;

/// How many shifts there are.
pub const CLASSES: usize = 693;

/// By how much the rows of mnemonics with the same remainder are shifted.
#[rattlefmt::skip]
pub static SHIFTS: [u16; CLASSES] = [
    6, 6, 4, 0, 7, 55, 4, 16, 0, 15, 4, 1, 0, 1, 8, 7, 0, 1, 13, 22, 9, 0, 0, 11, 70, 43, 91, 3, 72, 65, 100, 1, 44, 19, 1, 0, 257,
    0, 10, 270, 2, 5, 38, 2, 0, 0, 8, 122, 11, 45, 17, 30, 1, 1, 2, 0, 0, 0, 5, 120, 0, 8, 2, 24, 9, 45, 5, 0, 4, 417, 13, 8, 83,
    19, 1, 0, 68, 44, 5, 52, 36, 9, 2, 71, 150, 1, 0, 1, 23, 2, 4, 2, 7, 9, 79, 0, 12, 1, 2, 2, 0, 0, 6, 21, 17, 8, 22, 172, 5, 0,
    126, 9, 13, 5, 8, 155, 5, 21, 68, 41, 93, 188, 14, 9, 2, 30, 21, 0, 61, 21, 43, 6, 2, 50, 21, 0, 160, 5, 0, 2, 34, 140, 1, 34,
    16, 204, 2, 8, 9, 13, 12, 119, 0, 10, 15, 20, 46, 21, 7, 273, 479, 2, 71, 170, 60, 120, 84, 0, 1, 19, 9, 0, 1, 59, 1, 1, 2, 23,
    20, 0, 21, 10, 3, 127, 0, 28, 20, 0, 80, 164, 4, 312, 20, 31, 6, 0, 9, 172, 0, 0, 18, 0, 17, 19, 135, 31, 31, 20, 9, 72, 4, 4,
    6, 21, 0, 31, 55, 0, 20, 37, 64, 1, 260, 29, 4, 74, 386, 106, 22, 4, 1, 6, 9, 37, 0, 475, 1, 249, 1, 4, 7, 0, 1, 0, 0, 1, 8, 11,
    53, 103, 21, 0, 20, 275, 85, 8, 82, 138, 13, 69, 3, 17, 11, 23, 3, 7, 0, 60, 12, 12, 9, 19, 5, 55, 2, 77, 2, 207, 18, 73, 95, 3,
    0, 10, 344, 182, 660, 66, 47, 25, 64, 1034, 231, 158, 54, 92, 1, 38, 74, 3, 60, 200, 4, 4, 403, 0, 16, 167, 91, 404, 8, 0, 206,
    116, 4, 27, 4, 163, 47, 18, 2, 0, 0, 663, 7, 79, 3, 826, 73, 68, 76, 36, 0, 17, 15, 11, 28, 2, 455, 37, 55, 67, 4, 72, 73, 323,
    46, 34, 10, 1, 25, 78, 67, 10, 724, 207, 52, 98, 0, 95, 12, 1, 206, 25, 135, 87, 6, 0, 5, 0, 0, 3, 2, 285, 1, 39, 56, 18, 779,
    8, 4, 178, 269, 131, 99, 38, 38, 25, 11, 37, 2, 29, 26, 34, 1071, 28, 1, 379, 312, 5, 427, 32, 23, 221, 46, 209, 53, 2, 39, 1,
    80, 9, 413, 10, 409, 26, 4, 45, 124, 175, 36, 28, 0, 0, 52, 0, 815, 1050, 0, 219, 575, 632, 80, 17, 62, 109, 133, 0, 79, 89,
    580, 35, 161, 169, 13, 17, 16, 18, 25, 170, 233, 107, 33, 0, 29, 12, 0, 1, 5, 6, 5, 389, 92, 10, 49, 0, 43, 4, 377, 1, 60, 1221,
    9, 30, 0, 4, 57, 1, 138, 18, 57, 165, 113, 371, 13, 137, 3, 519, 1, 13, 4, 129, 621, 97, 1013, 91, 153, 16, 553, 11, 6, 263,
    1175, 1242, 1144, 21, 592, 363, 9, 26, 588, 36, 298, 0, 315, 10, 1350, 15, 622, 2, 0, 11, 44, 4, 32, 20, 135, 147, 874, 109,
    387, 982, 3, 24, 414, 1748, 88, 3, 409, 1390, 25, 8, 946, 477, 136, 0, 13, 237, 0, 2, 20, 0, 1114, 136, 5, 33, 0, 0, 111, 51, 0,
    12, 171, 0, 15, 1, 754, 125, 11, 1, 15, 3, 143, 13, 18, 727, 59, 253, 1553, 618, 730, 1053, 1715, 742, 804, 4, 0, 1094, 115, 6,
    48, 311, 43, 29, 0, 6, 8, 2, 140, 113, 107, 2046, 54, 3, 434, 0, 1462, 446, 253, 392, 21, 1892, 22, 1, 11, 27, 252, 6, 13, 1,
    16, 1, 488, 822, 684, 0, 11, 201, 1835, 10, 3, 5, 10, 1162, 43, 2081, 1132, 4, 76, 1795, 11, 171, 1695, 0, 193, 6, 1769, 30,
    109, 1408, 94, 775, 7, 7, 1596, 84, 5, 2, 9, 66, 1, 0, 57, 53, 1077, 0, 651, 865, 1618, 46, 107, 47, 10, 1401, 93, 255, 210,
    594, 74, 17, 74, 0, 0, 813, 136, 204, 230, 203, 6, 5, 1190, 34, 9,
];

/// The machine instructions, each at the place that its mnemonic and the shifts give.
pub static INSTRUCTIONS: [Row; PLACES] = rows! {
    b"VRL     " 137; b"CLFITH  " 68; b"VLBRREPG" 156; b"CLGRBNE " 94; b"CRTH    " 75; b"VCHL    " 137; b"MSFI    " 24;
    b"VISTR   " 144; b"AHI     " 19; b"VREPIG  " 123; b"CXZT    " 96; b"VPKZ    " 159; b"CLT     " 43; b"SELGR   " 77;
    b"SCHM    " 18; b"ISK     " 1; b"LHY     " 38; b"VFSQSB  " 129; b"MSC     " 38; b"BRM     " 23; b"CLGITE  " 68; b"IPM     " 28;
    b"CE      " 7; b"VLLEBRZE" 156; b"NHLR    " 57; b"SAC     " 17; b"CLFXTR  " 84; b"KXTR    " 34; b"JC      " 22; b"VLLEZF  " 156;
    b"VFMIN   " 138; b"JCTG    " 21; b"PTLB    " 18; b"EFPC    " 28; b"LOCH    " 44; b"LLXAB   " 38; b"VUPLLF  " 129;
    b"SLHHLR  " 76; b"JLNOP   " 27; b"CIBL    " 73; b"VECQ    " 129; b"CRJ     " 58; b"CLGHRL  " 25; b"ALR     " 1; b"CXGTR   " 33;
    b"SLLK    " 42; b"LMH     " 42; b"BRNP    " 23; b"WFLNXB  " 129; b"BEXTG   " 76; b"SELGRL  " 76; b"CLRTH   " 75; b"AEBR    " 34;
    b"CGRBNE  " 94; b"VMHF    " 130; b"XGRK    " 76; b"JXHG    " 61; b"SQD     " 99; b"LOCRO   " 75; b"LDER    " 34; b"LOCFH   " 45;
    b"CIBE    " 73; b"VFEEZFS " 130; b"LPCTL   " 17; b"VCLZDP  " 141; b"CPDT    " 96; b"VERLLV  " 136; b"SER     " 2;
    b"VFENEH  " 140; b"VERLLVF " 130; b"VFAEZB  " 140; b"STAMY   " 46; b"OG      " 38; b"STCKF   " 17; b"VLGV    " 149;
    b"CGRBH   " 94; b"CLGIJH  " 63; b"VSUMB   " 130; b"LCDFR   " 34; b"LNEBR   " 34; b"VCDLG   " 143; b"VERIMF  " 113;
    b"CGIBL   " 73; b"VUPH    " 141; b"LLHRL   " 25; b"VFLLS   " 129; b"WFMINXB " 136; b"DISCS   " 17; b"CLIBNL  " 71;
    b"ADTRA   " 88; b"UNPKU   " 51; b"LOCHHIL " 66; b"VLPQ    " 129; b"STRL    " 25; b"WFMADB  " 131; b"WFKHEXBS" 130;
    b"STGRL   " 25; b"LLCH    " 38; b"LOCFHNL " 44; b"CKSM    " 29; b"VSBCBI  " 132; b"ALSI    " 105; b"MADR    " 74;
    b"MDBR    " 34; b"LAN     " 42; b"STDRV   " 156; b"TBDR    " 91; b"VSTRCZHS" 135; b"CLTH    " 44; b"CLGTL   " 44;
    b"CFDBR   " 83; b"VLED    " 143; b"LOCO    " 44; b"DR      " 1; b"JLE     " 27; b"CGIJNE  " 65; b"CIT     " 67; b"SXBR    " 34;
    b"VLEIH   " 124; b"CLRBNH  " 94; b"VLL     " 150; b"VMALH   " 132; b"SQEB    " 99; b"TRTO    " 81; b"VESRLV  " 136;
    b"LOCGHIP " 66; b"VGFMAF  " 131; b"WFKHEXB " 130; b"PTI     " 29; b"VSLD    " 113; b"LOCHIH  " 66; b"CEDTR   " 34;
    b"VFMSSB  " 131; b"HDV     " 17; b"STD     " 7; b"CMPSC   " 29; b"RRBE    " 29; b"WFKHDB  " 130; b"VISTRF  " 145;
    b"VGFMG   " 130; b"VSTERG  " 156; b"ESAIR   " 28; b"STMG    " 42; b"QADTR   " 88; b"CDTR    " 34; b"LDRV    " 156;
    b"LHLR    " 57; b"LCBB    " 98; b"WFMAXXB " 136; b"AE      " 7; b"VSTRCZH " 135; b"LEY     " 39; b"OIHF    " 24;
    b"VDLF    " 136; b"VSEGF   " 129; b"VGEMQ   " 129; b"LPD     " 108; b"KEBR    " 34; b"VSEL    " 131; b"VGEG    " 155;
    b"CLRTNE  " 75; b"LAEY    " 38; b"VLRLR   " 150; b"KM      " 29; b"CRBL    " 94; b"VBLENDG " 131; b"STFLE   " 17;
    b"MG      " 38; b"HDR     " 2; b"VSCEG   " 155; b"ROSBG   " 59; b"LCTLG   " 47; b"WFCHXB  " 130; b"IIHH    " 20; b"EPAIR   " 28;
    b"LGH     " 38; b"CFER    " 83; b"VFENEB  " 140; b"CITH    " 66; b"LPSW    " 15; b"LMD     " 48; b"CRBNE   " 94; b"LTDR    " 2;
    b"LCXBR   " 34; b"VRF     " 136; b"CONCS   " 17; b"LOCRNE  " 75; b"STFH    " 38; b"LRVGR   " 29; b"CIBNL   " 73;
    b"VNOT    " 129; b"STPT    " 17; b"SELFHRO " 76; b"BRO     " 23; b"AUR     " 2; b"CEGBRA  " 90; b"DLG     " 38; b"BIM     " 41;
    b"CLGRJNH " 61; b"LOCGRM  " 75; b"MGHI    " 19; b"VESRLVF " 130; b"LOCFHNM " 44; b"VGFM    " 136; b"STAP    " 17;
    b"WFLCSB  " 129; b"LLIHF   " 24; b"NOTGR   " 75; b"VCLFEB  " 142; b"VPKS    " 137; b"VCELFB  " 142; b"OIY     " 104;
    b"WFK     " 142; b"MVCLE   " 10; b"STFPC   " 17; b"CRBNL   " 94; b"TMY     " 104; b"JXLE    " 95; b"BNZR    " 0; b"BR      " 0;
    b"DSGR    " 29; b"VCGD    " 143; b"WFNMADB " 131; b"VSQ     " 130; b"MD      " 7; b"SELGRNM " 76; b"VCP     " 141;
    b"VREPG   " 119; b"PT      " 29; b"CIJ     " 64; b"CXFBRA  " 90; b"STHH    " 38; b"EPAR    " 28; b"SRDT    " 100;
    b"MY      " 100; b"BINP    " 41; b"IPK     " 18; b"ALCR    " 29; b"LEDBRA  " 92; b"MER     " 2; b"KDSA    " 29; b"VCEQQ   " 130;
    b"LOCHINO " 66; b"LGF     " 38; b"WFKEXBS " 130; b"VFCHDBS " 130; b"LXAF    " 38; b"NILL    " 20; b"SPX     " 17;
    b"CXSTR   " 33; b"TB      " 29; b"ALHHHR  " 76; b"VLPH    " 129; b"FIDTR   " 92; b"VREPIF  " 123; b"LOCGHIZ " 66;
    b"CVDY    " 38; b"VFAEZFS " 140; b"CGIBNH  " 73; b"VSRP    " 116; b"VAVGB   " 130; b"SLGFI   " 24; b"LOCRH   " 75;
    b"MDE     " 7; b"UPT     " 5; b"KMC     " 29; b"VCHLGS  " 130; b"ADTR    " 87; b"CLGITNL " 68; b"VFCESB  " 130; b"CGIBE   " 73;
    b"CLRTNL  " 75; b"PFDRL   " 26; b"VSTRLR  " 150; b"SIO     " 17; b"CLGRBL  " 94; b"VMXLB   " 130; b"MSCH    " 17; b"LNDR    " 2;
    b"LOCHINP " 66; b"VPKSGS  " 130; b"VEC     " 141; b"VFSSB   " 130; b"KDBR    " 34; b"CLGRBH  " 94; b"BRE     " 23;
    b"CPYA    " 36; b"CLGTNH  " 44; b"AGRK    " 76; b"LOCGRNE " 75; b"OCRK    " 76; b"VLIP    " 126; b"LLXAH   " 38; b"LOCFHRZ " 75;
    b"LLGCR   " 29; b"WFCHEXB " 130; b"RISBG   " 59; b"DL      " 38; b"CGRTL   " 75; b"OCGRK   " 76; b"VCHLF   " 130;
    b"WFSDB   " 130; b"CIJNE   " 65; b"CLGITL  " 68; b"CDGTRA  " 90; b"CXPT    " 96; b"PGIN    " 29; b"CLIB    " 70; b"LZRG    " 38;
    b"VBLENDQ " 131; b"VMALOG  " 131; b"CRJH    " 61; b"LXDBR   " 34; b"BASR    " 1; b"BPR     " 0; b"TRAP4   " 17; b"VLLEZG  " 156;
    b"VSTRSF  " 135; b"VTZ     " 146; b"VSTEB   " 157; b"VPKLS   " 137; b"VSTEBRF " 157; b"BRC     " 22; b"ALGSI   " 105;
    b"VSTRL   " 159; b"BO      " 9; b"VSUMH   " 130; b"CXLFTR  " 90; b"VGBM    " 125; b"SHHLR   " 76; b"STSCH   " 17;
    b"CVBY    " 38; b"CLGTE   " 44; b"D       " 6; b"STOCH   " 44; b"CGRBNL  " 94; b"VERLLVG " 130; b"WCDGB   " 142; b"LXR     " 34;
    b"LOCHHIM " 66; b"VSTERH  " 156; b"VMXB    " 130; b"LRV     " 38; b"BL      " 9; b"STOCNE  " 44; b"LOCGNP  " 44; b"JNO     " 23;
    b"JLNZ    " 27; b"VLERH   " 156; b"NTSTG   " 38; b"FIXBR   " 91; b"WFCHEXBS" 130; b"LDETR   " 89; b"VFENEZH " 130;
    b"SQXR    " 34; b"WCLGDB  " 142; b"UNPKA   " 51; b"VFEEZH  " 130; b"EEDTR   " 30; b"JZ      " 23; b"LOCFHM  " 44;
    b"VLBRQ   " 156; b"SR      " 1; b"LOCM    " 44; b"LGB     " 38; b"SELGRM  " 76; b"MEER    " 34; b"CIBNE   " 73; b"MVC     " 51;
    b"RLL     " 42; b"VUPHF   " 129; b"BRZL    " 27; b"MAE     " 100; b"STCPS   " 17; b"VLERF   " 156; b"LPSWE   " 17;
    b"LLIHL   " 20; b"VSCHSP  " 136; b"CLGFRL  " 25; b"BRXLG   " 61; b"CLRJL   " 61; b"PGOUT   " 29; b"VFENEFS " 130;
    b"VFMSB   " 130; b"SEB     " 99; b"VUPLLG  " 129; b"VMAEG   " 131; b"LOCGP   " 44; b"SLBR    " 29; b"CLGEBR  " 84;
    b"FIEBRA  " 92; b"MS      " 6; b"CGIJNL  " 65; b"LOCHINZ " 66; b"JNM     " 23; b"WFCHDB  " 130; b"LOCHINL " 66; b"SELFHRP " 76;
    b"STOCFHH " 44; b"VFENEZHS" 130; b"VERIMG  " 113; b"LOCNP   " 44; b"VCHQ    " 130; b"OLHR    " 57; b"CGEBR   " 83;
    b"RISBHG  " 59; b"VPOPCTB " 129; b"CFEBRA  " 84; b"VMAL    " 132; b"MFY     " 38; b"LOCHIO  " 66; b"NIHL    " 20;
    b"JLNE    " 27; b"VECH    " 129; b"AIH     " 24; b"VFLPSB  " 129; b"CGXTR   " 83; b"VPKSF   " 130; b"LTG     " 38;
    b"CY      " 38; b"LT      " 38; b"KMA     " 76; b"CLGFR   " 29; b"SELRO   " 76; b"WFKHSBS " 130; b"BRASL   " 25; b"LPXR    " 34;
    b"CHRL    " 25; b"LOCGRNO " 75; b"LZDR    " 32; b"LDEB    " 99; b"SELFHR  " 77; b"NOP     " 9; b"AXTRA   " 88; b"LGR     " 29;
    b"CH      " 6; b"BPP     " 106; b"OILF    " 24; b"STOCFHZ " 44; b"ALGFR   " 29; b"LXER    " 34; b"KMAC    " 29; b"CLHLR   " 29;
    b"CGRTNH  " 75; b"VSTBRQ  " 156; b"LTXTR   " 34; b"TRTT    " 81; b"MVHHI   " 101; b"VFNMSSB " 131; b"BIE     " 41;
    b"BMR     " 0; b"VLVGP   " 128; b"LOCL    " 44; b"STH     " 6; b"LTDTR   " 34; b"CDLGBR  " 90; b"VMXLH   " 130; b"LOCGRZ  " 75;
    b"BRCTH   " 25; b"PKA     " 50; b"LEDR    " 2; b"VCGDB   " 142; b"VMRLB   " 130; b"WFKEDBS " 130; b"SLG     " 38;
    b"VSTEH   " 157; b"EREGG   " 29; b"ORK     " 76; b"MVZ     " 51; b"LOCRNL  " 75; b"ALSIHN  " 24; b"DDR     " 2; b"WFCEXBS " 130;
    b"MXBR    " 34; b"VMAOB   " 131; b"VLEIG   " 124; b"WLDEB   " 129; b"SELRNE  " 76; b"VSLB    " 130; b"VESRAF  " 152;
    b"CGRTE   " 75; b"SAM64   " 5; b"VMAE    " 132; b"ECCTR   " 29; b"CLFITNH " 68; b"WFC     " 142; b"VFISB   " 142;
    b"LOCGHIH " 66; b"WCEFB   " 142; b"CLRT    " 80; b"SL      " 6; b"VMAHB   " 131; b"CDS     " 10; b"VLEB    " 157;
    b"STCKE   " 17; b"VREPIB  " 123; b"BI      " 41; b"VFMAX   " 138; b"CLRJE   " 61; b"STOCGE  " 44; b"MSGF    " 38; b"SU      " 7;
    b"LHHR    " 57; b"STOSM   " 16; b"CLGRL   " 25; b"VGFMF   " 130; b"EREG    " 29; b"LLCHLR  " 57; b"B       " 9; b"MVCOS   " 109;
    b"BIC     " 40; b"DDBR    " 34; b"SPT     " 17; b"MADB    " 100; b"VGFMAG  " 131; b"CSG     " 42; b"CGFR    " 29;
    b"CLGIBNE " 71; b"CGRB    " 93; b"LHI     " 19; b"BNPR    " 0; b"IIHF    " 24; b"IRBM    " 29; b"CLRJNH  " 61; b"VPKLSF  " 130;
    b"BRNPL   " 27; b"MXDR    " 2; b"VREPIH  " 123; b"BXHG    " 42; b"VCLZF   " 129; b"LLGT    " 38; b"VDQ     " 136;
    b"VMALHF  " 131; b"SRA     " 12; b"DSGFR   " 29; b"VNX     " 130; b"BC      " 8; b"JXLEG   " 61; b"ESDTR   " 30;
    b"WFKHESB " 130; b"VACCH   " 130; b"VFCHE   " 138; b"VSG     " 130; b"SELGRZ  " 76; b"JLZ     " 27; b"CS      " 10;
    b"SELFHRZ " 76; b"SELRH   " 76; b"CLGIT   " 69; b"BAKR    " 29; b"TDGET   " 99; b"CRB     " 93; b"CUSE    " 29; b"VMNB    " 130;
    b"CDGBR   " 33; b"AY      " 38; b"VMXG    " 130; b"UNPK    " 53; b"VMALG   " 131; b"TCH     " 17; b"VS      " 136;
    b"CLGIJNH " 63; b"CLRIO   " 17; b"LLC     " 38; b"LOCFHZ  " 44; b"STY     " 38; b"LRVH    " 38; b"STOCGP  " 44; b"WFNMAXB " 131;
    b"RRB     " 17; b"VSTEBRG " 157; b"VSRLB   " 130; b"VCEQQS  " 130; b"MVCSK   " 107; b"WFKDB   " 129; b"CXTR    " 34;
    b"CLFDBR  " 84; b"CLGRTNE " 75; b"VSEG    " 141; b"ASI     " 105; b"LURAG   " 29; b"VMLHQ   " 130; b"CGDR    " 83;
    b"SLFI    " 24; b"VCLGD   " 143; b"STOCNL  " 44; b"CDFR    " 33; b"LOCFHNE " 44; b"LTXBR   " 34; b"SIE     " 17; b"LLXAG   " 38;
    b"SCK     " 17; b"VCH     " 137; b"MXD     " 7; b"VGM     " 122; b"VFMASB  " 131; b"WFKHESBS" 130; b"LPSWEY  " 103;
    b"KXBR    " 34; b"CP      " 53; b"VERLLVH " 130; b"VLPF    " 129; b"VMLB    " 130; b"VAQ     " 130; b"CGRTNL  " 75;
    b"AD      " 7; b"VREPF   " 119; b"VCHQS   " 130; b"MAYHR   " 74; b"JLC     " 26; b"LOCHINH " 66; b"LNDFR   " 34; b"TDCET   " 99;
    b"OR      " 1; b"CGITNH  " 66; b"WFIDB   " 142; b"CGIJ    " 64; b"VSTRSZB " 131; b"VFNMA   " 133; b"VSCEF   " 155;
    b"SRLG    " 42; b"VCTZQ   " 129; b"JLNL    " 27; b"WLEDB   " 142; b"VRLF    " 136; b"SGR     " 29; b"LH      " 6;
    b"CSXTR   " 82; b"BXLEG   " 42; b"WFCHSB  " 130; b"WFDSB   " 130; b"SSAR    " 28; b"VSUMG   " 136; b"VMNLB   " 130;
    b"MAYR    " 74; b"CSDTR   " 82; b"LOCHHINH" 66; b"VMRLH   " 130; b"LOCHHINL" 66; b"VFMSDB  " 131; b"VFKHSB  " 130;
    b"IAC     " 28; b"AGFR    " 29; b"LOCHHINO" 66; b"LOCHHINP" 66; b"WFMAXSB " 136; b"MYR     " 74; b"IVSK    " 29; b"LURA    " 29;
    b"VMAOH   " 131; b"IILF    " 24; b"LOCHHINM" 66; b"LOCHHINZ" 66; b"SLA     " 12; b"LOCHHINE" 66; b"VPKSFS  " 130;
    b"JNE     " 23; b"WCFEB   " 142; b"LLGHRL  " 25; b"BNLR    " 0; b"S       " 6; b"VBLENDH " 131; b"TPI     " 17; b"VACCB   " 130;
    b"VSBCBIQ " 131; b"VMOH    " 130; b"VMAHH   " 131; b"LE      " 7; b"MSGRKC  " 76; b"VMO     " 136; b"VMLEB   " 130;
    b"NGRK    " 76; b"SELGRNL " 76; b"VFD     " 137; b"SACF    " 17; b"VPKZR   " 114; b"VCHLFS  " 130; b"XILF    " 24;
    b"VAVGH   " 130; b"XG      " 38; b"LRAY    " 38; b"CFDBRA  " 84; b"CLGIBH  " 71; b"CLGXBR  " 84; b"LOCGRNP " 75; b"CIJH    " 65;
    b"SDR     " 2; b"LOCR    " 80; b"POPCNT  " 81; b"WFNMSDB " 131; b"VSUM    " 136; b"CLCLU   " 42; b"ALC     " 38; b"FIXTR   " 92;
    b"WFCEDBS " 130; b"LFPC    " 17; b"CGHSI   " 101; b"ALGR    " 29; b"VREP    " 120; b"TS      " 15; b"BXLE    " 10;
    b"VFENEZFS" 130; b"VCLFNL  " 142; b"VTP     " 147; b"IPTE    " 79; b"LOCHHIE " 66; b"CU24    " 81; b"STOCG   " 45;
    b"VESRLVH " 130; b"ICY     " 38; b"BRPL    " 27; b"VLER    " 157; b"MSRKC   " 76; b"BRNZ    " 23; b"LLGHR   " 29;
    b"LOCFHNO " 44; b"MSDB    " 100; b"VSDP    " 114; b"VLLEZH  " 156; b"CSST    " 109; b"VFKEDB  " 130; b"CLRBNE  " 94;
    b"ED      " 51; b"MVIY    " 104; b"AP      " 53; b"STOCGNL " 44; b"VME     " 136; b"VMAEF   " 131; b"AXTR    " 87;
    b"VMALF   " 131; b"LPGFR   " 29; b"VMHB    " 130; b"VFASB   " 130; b"VESRA   " 153; b"LCDBR   " 34; b"LB      " 38;
    b"ESEA    " 28; b"PFPO    " 5; b"WFCHSBS " 130; b"VECLQ   " 129; b"SELGRNE " 76; b"CIBH    " 73; b"LLHHHR  " 57; b"CSPG    " 29;
    b"VCHH    " 130; b"BRNL    " 23; b"VLEIF   " 124; b"JXH     " 95; b"LXD     " 99; b"TP      " 97; b"LLGTAT  " 38;
    b"SAR     " 35; b"LLCR    " 29; b"VECF    " 129; b"MEEB    " 99; b"MSR     " 29; b"LRL     " 25; b"WCGDB   " 142;
    b"TDGXT   " 99; b"VMLHW   " 130; b"BRNE    " 23; b"LDXR    " 2; b"JH      " 23; b"TCEB    " 99; b"VSCBIQ  " 130; b"LEDTR   " 92;
    b"VMNLH   " 130; b"VFLNSB  " 129; b"LOCGO   " 44; b"WFLCXB  " 129; b"VSUMGF  " 130; b"VSTRCHS " 135; b"LOCGRH  " 75;
    b"VUPLLH  " 129; b"BNHR    " 0; b"CFXBRA  " 84; b"STOC    " 45; b"STHY    " 38; b"VSBI    " 132; b"CXGBR   " 33; b"CGITNE  " 66;
    b"VPDI    " 136; b"SQEBR   " 34; b"WFCHESB " 130; b"CLRBH   " 94; b"CG      " 38; b"CFXR    " 83; b"VFSQDB  " 129;
    b"CIB     " 72; b"SRK     " 76; b"MR      " 1; b"MXDB    " 99; b"PFCR    " 42; b"BAL     " 6; b"LOCRM   " 75; b"XSCH    " 18;
    b"LMY     " 42; b"TRTR    " 51; b"VESLV   " 136; b"CUXTR   " 30; b"SLLG    " 42; b"CEFBR   " 33; b"VAVGG   " 130;
    b"WFLRX   " 142; b"CLIBL   " 71; b"JCT     " 21; b"WFCDB   " 129; b"DXR     " 34; b"CLGRTH  " 75; b"VLLEZB  " 156;
    b"SHY     " 38; b"BRLL    " 27; b"LOCRZ   " 75; b"VFEEH   " 140; b"BRZ     " 23; b"MVN     " 51; b"CGHI    " 19;
    b"VUPLHW  " 129; b"STOCGL  " 44; b"CRBH    " 94; b"LOCHIP  " 66; b"LLGFAT  " 38; b"CXGTRA  " 90; b"MSGR    " 29;
    b"VSTRSZF " 131; b"LXEB    " 99; b"VGEMB   " 129; b"VSTEBRH " 157; b"MYL     " 100; b"LOCGRNZ " 75; b"ADBR    " 34;
    b"VNN     " 130; b"VUPKZ   " 159; b"LOCNO   " 44; b"ROSBGT  " 59; b"VFDDB   " 130; b"VPKH    " 130; b"SELFHRM " 76;
    b"CLIJNE  " 63; b"CGITH   " 66; b"BNO     " 9; b"CIH     " 24; b"WFCHESBS" 130; b"VLCG    " 129; b"CZXT    " 96; b"MSDBR   " 74;
    b"JASL    " 25; b"VCHBS   " 130; b"CD      " 7; b"VPKLSG  " 130; b"TAM     " 5; b"RXSBGT  " 59; b"SELGRH  " 76; b"VGMH    " 121;
    b"RISBGZ  " 59; b"SRST    " 29; b"CRT     " 80; b"BZ      " 9; b"VSTEG   " 157; b"IILH    " 20; b"SIGA    " 17; b"LCTL    " 14;
    b"CER     " 2; b"VFKHEDB " 130; b"VMLEH   " 130; b"STOCZ   " 44; b"LEXBR   " 34; b"VMALOB  " 131; b"WFADB   " 130;
    b"CLIJH   " 63; b"VESRAG  " 152; b"LCER    " 2; b"VCLZQ   " 129; b"VAVG    " 136; b"VMNG    " 130; b"RP      " 17;
    b"VFMINDB " 136; b"VCHB    " 130; b"OGR     " 29; b"VLVGB   " 150; b"VCVDG   " 111; b"LOCFHH  " 44; b"VSTRCBS " 135;
    b"LOCHHI  " 67; b"KEB     " 99; b"VFEEZHS " 130; b"VCSFP   " 143; b"IDTE    " 78; b"TDCXT   " 99; b"VERIMB  " 113;
    b"VACCG   " 130; b"SIOF    " 17; b"VUPKZL  " 141; b"CGXTRA  " 84; b"BNM     " 9; b"STOCM   " 44; b"VGFMAH  " 131;
    b"MVCK    " 54; b"VMALHH  " 131; b"LOCGNE  " 44; b"CLGITNE " 68; b"LOCGRO  " 75; b"CLY     " 38; b"WFKHXBS " 130;
    b"CSCH    " 18; b"BRCT    " 21; b"CU14    " 81; b"LDY     " 39; b"VSTL    " 150; b"VSTBR   " 157; b"VFTCISB " 117;
    b"OI      " 16; b"CRTNH   " 75; b"VLREP   " 157; b"STM     " 10; b"BRCTG   " 21; b"ML      " 38; b"VD      " 137;
    b"VAVGLQ  " 130; b"VISTRH  " 145; b"VFKHEDBS" 130; b"O       " 6; b"OC      " 51; b"LPQ     " 38; b"PFD     " 40;
    b"VERLL   " 153; b"VFAEB   " 140; b"VACQ    " 131; b"VA      " 136; b"SAM31   " 5; b"MSER    " 74; b"WFDXB   " 130;
    b"NY      " 38; b"BRHL    " 27; b"VFEEZBS " 130; b"SELGRNO " 76; b"SPCTR   " 29; b"VUPLLB  " 129; b"RISBHGZ " 59;
    b"VSTRCZB " 135; b"SAL     " 18; b"AGHI    " 19; b"AHIK    " 60; b"STOCNM  " 44; b"BINE    " 41; b"ECAG    " 42; b"ALCG    " 38;
    b"VCVD    " 111; b"LLXAF   " 38; b"STOCO   " 44; b"LTGF    " 38; b"NILH    " 20; b"LAAG    " 42; b"VESRAVB " 130;
    b"WFLRD   " 142; b"LXAB    " 38; b"CDLGTR  " 90; b"BDEPG   " 76; b"VAG     " 130; b"ALGRK   " 76; b"CHSI    " 101;
    b"MSTA    " 28; b"VFKESBS " 130; b"LDXTR   " 92; b"VFAEH   " 140; b"VSRL    " 130; b"VFMS    " 133; b"M       " 6;
    b"VACC    " 136; b"DDB     " 99; b"LAY     " 38; b"CLGHSI  " 102; b"RNSBG   " 59; b"CDFTR   " 90; b"LGSC    " 38;
    b"VFCEDB  " 130; b"CXFR    " 33; b"CLRTL   " 75; b"VMALHG  " 131; b"SGH     " 38; b"ALRK    " 76; b"CLHF    " 38;
    b"CGXBR   " 83; b"LOCFHNP " 44; b"VSTRCZBS" 135; b"AER     " 2; b"MVCIN   " 51; b"CEGR    " 33; b"VESLVF  " 130;
    b"VMEH    " 130; b"FIDBR   " 91; b"SELR    " 77; b"BIZ     " 41; b"STOCGNM " 44; b"LLGFR   " 29; b"CGFI    " 24;
    b"VMXLG   " 130; b"SQDR    " 34; b"SFASR   " 28; b"WFLCDB  " 129; b"VGEMH   " 129; b"CLIBNH  " 71; b"SELFHRH " 76;
    b"VLVGH   " 150; b"LLGTR   " 29; b"AGFI    " 24; b"VGFMAB  " 131; b"LLGFRL  " 25; b"LHRL    " 25; b"STIDC   " 17;
    b"VCEQB   " 130; b"FIXBRA  " 92; b"VFMAXDB " 136; b"SGF     " 38; b"VLBRH   " 156; b"MYH     " 100; b"VESLB   " 152;
    b"LOCHHIO " 66; b"LOCRNM  " 75; b"VFEEBS  " 130; b"VFCHSB  " 130; b"VMOF    " 130; b"ALY     " 38; b"CLGRJE  " 61;
    b"DEBR    " 34; b"CXLGBR  " 90; b"LCR     " 1; b"STIDP   " 17; b"CGFRL   " 25; b"CGRBL   " 94; b"VSTBRF  " 156; b"LPEBR   " 34;
    b"VMLG    " 130; b"SHHHR   " 76; b"VFAEZHS " 140; b"VAC     " 132; b"BINL    " 41; b"LPDR    " 2; b"JLH     " 27;
    b"VCHF    " 130; b"CGRJNE  " 61; b"MVST    " 29; b"LOCP    " 44; b"XIHF    " 24; b"VDG     " 136; b"VRQ     " 136;
    b"MXTR    " 87; b"VMAHG   " 131; b"AG      " 38; b"VESRL   " 153; b"VPK     " 136; b"MC      " 16; b"LOCGRNH " 75;
    b"LOCNH   " 44; b"VERIMH  " 113; b"SLBG    " 38; b"CLRBNL  " 94; b"VMAOG   " 131; b"LY      " 38; b"BRXHG   " 61;
    b"RISBGN  " 59; b"CVBG    " 38; b"ALHHLR  " 76; b"JCTH    " 25; b"VMALHB  " 131; b"WFLNDB  " 129; b"MDR     " 2; b"SW      " 7;
    b"VFAEZBS " 140; b"VSRPR   " 114; b"SCKC    " 17; b"XLHR    " 57; b"VERLLF  " 152; b"WFNMASB " 131; b"CELFBR  " 90;
    b"STDY    " 39; b"SXR     " 2; b"LDGR    " 33; b"CFXTR   " 84; b"LDEBR   " 34; b"DLR     " 29; b"NIHH    " 20; b"XY      " 38;
    b"TRAP2   " 5; b"CGDTR   " 83; b"CGEBRA  " 84; b"WFPSODB " 141; b"VCDLGB  " 142; b"ICM     " 11; b"CGIJL   " 65;
    b"VFNMS   " 133; b"CGRJH   " 61; b"WFTCIDB " 117; b"WFNMSXB " 131; b"WFKESB  " 130; b"VLGVB   " 148; b"CXBR    " 34;
    b"CLTNH   " 44; b"STCRW   " 17; b"RRXTR   " 86; b"LCCTL   " 17; b"CLFDTR  " 84; b"LGHR    " 29; b"STG     " 38; b"VSRAB   " 130;
    b"CDGBRA  " 90; b"LOCHHIP " 66; b"DIDBR   " 88; b"VSTRSH  " 135; b"BRXLE   " 95; b"MADBR   " 74; b"TSCH    " 17;
    b"VMAO    " 132; b"VCNF    " 142; b"LOCFHNZ " 44; b"SELRZ   " 76; b"NXGRK   " 76; b"CDBR    " 34; b"VCHHS   " 130;
    b"BOR     " 0; b"JLP     " 27; b"VPKF    " 130; b"FIER    " 34; b"DLGR    " 29; b"VLREPF  " 156; b"ST      " 6; b"EX      " 6;
    b"VFENEHS " 130; b"NXRK    " 76; b"VFCHEDB " 130; b"BRP     " 23; b"JLNH    " 27; b"WFMSSB  " 131; b"XRK     " 76;
    b"VMAH    " 132; b"CLGIBNH " 71; b"VESRLVG " 130; b"CGHRL   " 25; b"SUR     " 2; b"VDLG    " 136; b"VFEEHS  " 130;
    b"STOCGM  " 44; b"SELRM   " 76; b"LLH     " 38; b"CLRTNH  " 75; b"VSCHDP  " 136; b"LOCFHO  " 44; b"LLHH    " 38; b"CLHHR   " 29;
    b"SELGRNZ " 76; b"CGIJH   " 65; b"CLCL    " 1; b"LOCRNZ  " 75; b"LRER    " 2; b"VMNLG   " 130; b"WFCHXBS " 130; b"SELFHRE " 76;
    b"VCHLQ   " 130; b"VFSQ    " 142; b"MHY     " 38; b"DDTRA   " 88; b"WFSQSB  " 129; b"VFAEBS  " 140; b"ALHSIK  " 60;
    b"LLGFSG  " 38; b"VUPLB   " 129; b"LOCRL   " 75; b"DE      " 7; b"CALG    " 108; b"PPA     " 80; b"STE     " 7; b"VFLR    " 143;
    b"SELRNM  " 76; b"CITNH   " 66; b"VSCBI   " 136; b"VFENEBS " 130; b"SELGRNP " 76; b"CLIBE   " 71; b"RSCH    " 18;
    b"VSTRSB  " 135; b"OHLR    " 57; b"STMH    " 42; b"LTDBR   " 34; b"LOCGNL  " 44; b"BLR     " 0; b"LFHAT   " 38; b"CGRL    " 25;
    b"LCGR    " 29; b"STOCNZ  " 44; b"CLGITH  " 68; b"MDER    " 2; b"VISTRFS " 129; b"WFKHDBS " 130; b"VFCESBS " 130; b"LTR     " 1;
    b"BRNZL   " 27; b"VMXLF   " 130; b"JNZ     " 23; b"CFEBR   " 83; b"CLGXTR  " 84; b"SDB     " 99; b"VESLH   " 152;
    b"VMXL    " 136; b"LFH     " 38; b"CGRBE   " 94; b"VCEQH   " 130; b"STOCFHL " 44; b"SRDL    " 12; b"RRBM    " 29;
    b"LGFR    " 29; b"CGITNL  " 66; b"LZER    " 32; b"VLCF    " 129; b"CHF     " 38; b"CLGRBNH " 94; b"SAM24   " 5; b"LAALG   " 42;
    b"STCKC   " 17; b"VISTRB  " 145; b"SRSTU   " 29; b"VMALE   " 132; b"TBEGINC " 102; b"VSTEF   " 157; b"STPQ    " 38;
    b"VFENEZB " 130; b"BNE     " 9; b"LOCFHRP " 75; b"BCTGR   " 29; b"VMXQ    " 130; b"STC     " 6; b"WFLLS   " 129; b"CRJNH   " 61;
    b"CLGRJ   " 58; b"VCVBG   " 127; b"VMRHB   " 130; b"VMHG    " 130; b"CGRBNH  " 94; b"BH      " 9; b"LRVR    " 29;
    b"BRNEL   " 27; b"NOTR    " 75; b"VMALEF  " 131; b"CLGRJNL " 61; b"BRNLL   " 27; b"SLGF    " 38; b"SQE     " 99;
    b"VFEE    " 139; b"VFEEB   " 140; b"BRL     " 23; b"MVCP    " 54; b"STOCFHNZ" 44; b"VMNL    " 136; b"CLGRJL  " 61;
    b"JLNO    " 27; b"LOCGRP  " 75; b"STERV   " 156; b"JLL     " 27; b"VX      " 130; b"LCGFR   " 29; b"STOCL   " 44;
    b"NHHR    " 57; b"VLEG    " 157; b"BINZ    " 41; b"BXH     " 10; b"XR      " 1; b"VACCF   " 130; b"CU12    " 81; b"SRP     " 52;
    b"PALB    " 37; b"CLRB    " 93; b"CLGFI   " 24; b"VLGVH   " 148; b"MAER    " 74; b"VFLPDB  " 129; b"CXFTR   " 90;
    b"VFENEZBS" 130; b"VESRLF  " 152; b"SELGRO  " 76; b"VMALOH  " 131; b"STHRL   " 25; b"CGIT    " 67; b"LAAL    " 42;
    b"LGDR    " 30; b"MSD     " 100; b"VMLE    " 136; b"LGBR    " 29; b"CLFITE  " 68; b"JAS     " 21; b"CGIJE   " 65;
    b"VSTRC   " 134; b"OHHR    " 57; b"NOGRK   " 76; b"VLBRG   " 156; b"CLIJNL  " 63; b"LXAG    " 38; b"VFAEHS  " 140;
    b"LMG     " 42; b"VCVB    " 127; b"VLM     " 154; b"NILF    " 24; b"VLPB    " 129; b"LLCLHR  " 57; b"WFSSB   " 130;
    b"BCT     " 6; b"CLGRTNH " 75; b"BIP     " 41; b"NG      " 38; b"LM      " 10; b"VMRLG   " 130; b"VFCE    " 138; b"MSGFR   " 29;
    b"VSCBIF  " 130; b"SRNMB   " 17; b"BE      " 9; b"LLZRGF  " 38; b"CGRJNL  " 61; b"LNDBR   " 34; b"LAO     " 42; b"DDTR    " 87;
    b"CLZG    " 29; b"VFS     " 137; b"CLIJ    " 62; b"VCHFS   " 130; b"VFCHEDBS" 130; b"LOCFHRH " 75; b"SLR     " 1;
    b"RISBLG  " 59; b"LNXBR   " 34; b"VSTRSZH " 131; b"VBLENDB " 131; b"SDTRA   " 88; b"LOCHHIZ " 66; b"LTGR    " 29;
    b"LOCFHNH " 44; b"BCTG    " 38; b"SEBR    " 34; b"VMX     " 136; b"SLDL    " 12; b"VMRHH   " 130; b"VMLOB   " 130;
    b"CLGIJE  " 63; b"VESRAH  " 152; b"IC      " 6; b"VCEQBS  " 130; b"LOCGH   " 44; b"STURA   " 29; b"VAVGL   " 136;
    b"WCLFEB  " 142; b"SELGRNH " 76; b"STOCGNE " 44; b"VESRAB  " 152; b"LPTEA   " 77; b"VPOPCT  " 141; b"VSCSHP  " 130;
    b"VCHLQS  " 130; b"LTER    " 2; b"VFMADB  " 131; b"MGH     " 38; b"ARK     " 76; b"SQDB    " 99; b"NOPR    " 0; b"MVCRL   " 107;
    b"CR      " 1; b"VST     " 158; b"VUPLH   " 141; b"CDSY    " 42; b"LASP    " 107; b"VLBR    " 157; b"JP      " 23;
    b"WFMINSB " 136; b"VLEBRF  " 157; b"TCXB    " 99; b"BCR     " 3; b"STOCGZ  " 44; b"SH      " 6; b"VGEMG   " 129;
    b"VFAE    " 139; b"WFCHDBS " 130; b"SSKE    " 81; b"SELRNZ  " 76; b"BRH     " 23; b"VFNMADB " 131; b"VLVGG   " 150;
    b"SQXBR   " 34; b"LOCHIE  " 66; b"VMLHB   " 130; b"ALGFI   " 24; b"LAM     " 13; b"LPDFR   " 34; b"LOCRNH  " 75; b"CVDG    " 38;
    b"STCMH   " 43; b"SLGR    " 29; b"SRL     " 12; b"STOCFHNP" 44; b"OILL    " 20; b"CEB     " 99; b"VMAOF   " 131; b"KMF     " 29;
    b"VR      " 137; b"VCTZB   " 129; b"VSCHXP  " 136; b"CLI     " 16; b"SLHHHR  " 76; b"VFKHDB  " 130; b"VCKSM   " 130;
    b"LOCRE   " 75; b"CFDR    " 83; b"CUDTR   " 30; b"CIJNH   " 65; b"LGG     " 38; b"VMAHF   " 131; b"CU21    " 81; b"WRD     " 16;
    b"TMLL    " 20; b"CXGBRA  " 90; b"JLNM    " 27; b"LNR     " 1; b"VSTBRG  " 156; b"TIO     " 17; b"VSTRCF  " 135; b"NIHF    " 24;
    b"CU41    " 29; b"VMRL    " 136; b"LNGR    " 29; b"PRNO    " 29; b"NORK    " 76; b"DXTRA   " 88; b"AGF     " 38; b"LAXG    " 42;
    b"JM      " 23; b"AU      " 7; b"LRAG    " 38; b"VMRLF   " 130; b"MEEBR   " 34; b"CEFBRA  " 90; b"RISBGNZ " 59; b"VFPSOSB " 141;
    b"CSP     " 29; b"MXDBR   " 34; b"VPKLSH  " 130; b"PTF     " 28; b"VFPSO   " 143; b"VMALQ   " 131; b"VLVG    " 151;
    b"LHR     " 29; b"BRNH    " 23; b"BIL     " 41; b"VPOPCTF " 129; b"LPXBR   " 34; b"VGMF    " 121; b"SDBR    " 34;
    b"LAOG    " 42; b"STOCE   " 44; b"VGEF    " 155; b"VLREPG  " 156; b"VECB    " 129; b"VSP     " 114; b"VO      " 130;
    b"WFCESB  " 130; b"VERLLG  " 152; b"STOCNH  " 44; b"MXR     " 2; b"AHHLR   " 76; b"CLG     " 38; b"LGHI    " 19; b"SELRL   " 76;
    b"VMLEG   " 130; b"CLM     " 11; b"CZDT    " 96; b"ICMH    " 43; b"LOCHHIH " 66; b"TRTRE   " 81; b"LG      " 38;
    b"VFLCSB  " 129; b"VGEM    " 141; b"CRBNH   " 94; b"CLRTE   " 75; b"NIY     " 104; b"MVCLU   " 42; b"SRAK    " 42;
    b"ESTA    " 29; b"LOCGZ   " 44; b"LOCFHRL " 75; b"VMEF    " 130; b"LOCGHIL " 66; b"VRLQ    " 136; b"ECPGA   " 29;
    b"WCELFB  " 142; b"NIAI    " 55; b"CL      " 6; b"LOCNM   " 44; b"AEB     " 99; b"VUPLHF  " 129; b"STOCGNO " 44; b"STOCFHM " 44;
    b"VERLLVB " 130; b"LD      " 7; b"CLFIT   " 69; b"LEDBR   " 34; b"AR      " 1; b"VPKLSFS " 130; b"CGIJNH  " 65; b"BASSM   " 1;
    b"LER     " 2; b"BRNO    " 23; b"TR      " 51; b"VFEEZF  " 130; b"ETND    " 28; b"VMNLF   " 130; b"VLCQ    " 129;
    b"VL      " 158; b"SFPC    " 28; b"VMLOH   " 130; b"ESAR    " 28; b"LOCFHP  " 44; b"CLFITNL " 68; b"SLL     " 12;
    b"JE      " 23; b"TMHL    " 20; b"STCH    " 38; b"VESLVG  " 130; b"STURG   " 29; b"VRG     " 136; b"LGFI    " 24;
    b"LEXBRA  " 92; b"JNP     " 23; b"VECLB   " 129; b"XGR     " 29; b"VEVAL   " 112; b"SE      " 7; b"TRACG   " 42; b"OIHL    " 20;
    b"VFM     " 137; b"VSTRS   " 134; b"NCGRK   " 76; b"LCXR    " 34; b"LNER    " 2; b"NNPA    " 37; b"CGRJ    " 58; b"X       " 6;
    b"CLGRBE  " 94; b"WFMDB   " 130; b"CLMH    " 43; b"EPSW    " 29; b"VMNQ    " 130; b"VESLG   " 152; b"VAVGLF  " 130;
    b"VOC     " 130; b"WFMSXB  " 131; b"VFEEF   " 140; b"LOCGM   " 44; b"ECTG    " 109; b"LA      " 6; b"TRE     " 29;
    b"LLGHI   " 20; b"EDMK    " 51; b"CLFITL  " 68; b"WFLPSB  " 129; b"VFLNDB  " 129; b"BRXH    " 95; b"VMSP    " 114;
    b"BIH     " 41; b"VECLF   " 129; b"WFKSB   " 129; b"VFENE   " 139; b"LOCGNM  " 44; b"CLGIJ   " 62; b"VSUMGH  " 130;
    b"VFSDB   " 130; b"BPRP    " 56; b"NCRK    " 76; b"EXRL    " 25; b"XI      " 16; b"SELGRP  " 76; b"CGIBH   " 73; b"XC      " 51;
    b"LGHRL   " 25; b"VCTZH   " 129; b"LXEBR   " 34; b"CLGTNE  " 44; b"VSTER   " 157; b"WFPSOXB " 141; b"VMP     " 114;
    b"ZAP     " 53; b"VESRLVB " 130; b"CLGIJNL " 63; b"VMLEF   " 130; b"VCDGB   " 142; b"VMXH    " 130; b"ALG     " 38;
    b"WFNMSSB " 131; b"BIO     " 41; b"SRXT    " 100; b"CFI     " 24; b"CLFI    " 24; b"ALCGR   " 29; b"CGIBNE  " 73;
    b"IEXTR   " 85; b"CXLGTR  " 90; b"BSM     " 1; b"VMLHH   " 130; b"LAE     " 6; b"SLAK    " 42; b"C       " 6; b"TABORT  " 17;
    b"LTGFR   " 29; b"JNOP    " 23; b"CLFEBR  " 84; b"VCLGDB  " 142; b"PLO     " 49; b"AXBR    " 34; b"CLC     " 51; b"THDER   " 34;
    b"MLG     " 38; b"CGDTRA  " 84; b"CLGIJL  " 63; b"MDB     " 99; b"MAD     " 100; b"VCEQHS  " 130; b"LLHHLR  " 57;
    b"WFISB   " 142; b"BINO    " 41; b"EAR     " 31; b"FIDBRA  " 92; b"VLC     " 141; b"WFTCIXB " 117; b"TM      " 16;
    b"CGR     " 29; b"STOCGH  " 44; b"VESRLG  " 152; b"SDTR    " 87; b"JNL     " 23; b"CLHRL   " 25; b"CALGF   " 108;
    b"VMALEG  " 131; b"VFAEZF  " 140; b"SELRNH  " 76; b"VFI     " 143; b"MAEB    " 100; b"CDFBR   " 33; b"VLPG    " 129;
    b"VLEBRG  " 157; b"WFKEXB  " 130; b"CGDBR   " 83; b"VFKHSBS " 130; b"VRLG    " 136; b"WFSXB   " 130; b"VAVGF   " 130;
    b"AL      " 6; b"CDUTR   " 33; b"LOCG    " 45; b"BCTR    " 1; b"VMN     " 136; b"CRDTE   " 78; b"SELRE   " 76; b"LDE     " 99;
    b"CGXBRA  " 84; b"RNSBGT  " 59; b"AFI     " 24; b"VCLFNH  " 142; b"LGFRL   " 25; b"WFMSB   " 130; b"VLGVG   " 148;
    b"VLCB    " 129; b"CIBNH   " 73; b"ICMY    " 43; b"CLGITNH " 68; b"VCLZB   " 129; b"CLST    " 29; b"CHI     " 19;
    b"LOCHIL  " 66; b"MAYL    " 100; b"NLHR    " 57; b"DXTR    " 87; b"LLXAQ   " 38; b"MSEB    " 100; b"VECLH   " 129;
    b"LZRF    " 38; b"CDSTR   " 33; b"LOCHI   " 67; b"VFAEF   " 140; b"LOCRNO  " 75; b"VFCHDB  " 130; b"CLGTH   " 44; b"CDR     " 2;
    b"QCTRI   " 17; b"LDXBR   " 34; b"VLP     " 141; b"KDB     " 99; b"AWR     " 2; b"DEB     " 99; b"VSL     " 130; b"LBR     " 29;
    b"MVGHI   " 101; b"VFMA    " 133; b"VLBRF   " 156; b"MDTRA   " 88; b"LBEAR   " 17; b"SLDT    " 100; b"LOCNZ   " 44;
    b"CGRTNE  " 75; b"VPERM   " 131; b"AH      " 6; b"LLGF    " 38; b"MDEB    " 99; b"TROO    " 81; b"VML     " 136; b"CFDTR   " 84;
    b"SLBGR   " 29; b"VSH     " 130; b"WFSQXB  " 129; b"LOCZ    " 44; b"ALFI    " 24; b"RISBLGZ " 59; b"CRTE    " 75;
    b"VMOB    " 130; b"VSTERF  " 156; b"VFENEF  " 140; b"CLIH    " 24; b"MLR     " 29; b"BALR    " 1; b"STOCNO  " 44;
    b"LAA     " 42; b"VCEFB   " 142; b"SGRK    " 76; b"VSCBIG  " 130; b"DSG     " 38; b"CUUTF   " 81; b"WFMASB  " 131;
    b"VSUMQ   " 136; b"BRUL    " 27; b"LOCGHIM " 66; b"TPROT   " 107; b"VMHQ    " 130; b"LERV    " 156; b"BINH    " 41;
    b"BNZ     " 9; b"FIXR    " 34; b"CRTL    " 75; b"MSY     " 38; b"SLXT    " 100; b"BZR     " 0; b"VGEMF   " 129; b"VLBB    " 157;
    b"SSM     " 15; b"VESLVH  " 130; b"VLDEB   " 129; b"LANG    " 42; b"AGR     " 29; b"A       " 6; b"LOCFHRM " 75; b"LOCGNZ  " 44;
    b"VLVGF   " 150; b"DP      " 53; b"RRDTR   " 86; b"VFKEDBS " 130; b"CGITL   " 66; b"BNOR    " 0; b"STOCFHNL" 44; b"CGRTH   " 75;
    b"MH      " 6; b"LPDG    " 108; b"NRK     " 76; b"LHH     " 38; b"IILL    " 20; b"CGER    " 83; b"CVD     " 6; b"PR      " 5;
    b"CLGDBR  " 84; b"STBEAR  " 17; b"WFMSDB  " 131; b"MYLR    " 74; b"MLGR    " 29; b"VBPERM  " 130; b"BRNM    " 23;
    b"VDP     " 114; b"WFKHSB  " 130; b"CLRJNE  " 61; b"CLGRB   " 93; b"VESL    " 153; b"CFC     " 17; b"STOCFHNH" 44;
    b"VSF     " 130; b"BSG     " 29; b"VECG    " 129; b"SSAIR   " 28; b"VPOPCTG " 129; b"CGIBNL  " 73; b"VMRH    " 136;
    b"VCHLB   " 130; b"HER     " 2; b"JLU     " 27; b"CLGRBNL " 94; b"HSCH    " 18; b"KIMD    " 81; b"CLRJH   " 61; b"AGHIK   " 60;
    b"STOCFHNE" 44; b"MHI     " 19; b"LRDR    " 2; b"AGSI    " 105; b"VSEGB   " 129; b"VSTBRH  " 156; b"SELFHRL " 76;
    b"VFA     " 137; b"CFXBR   " 83; b"VDLQ    " 136; b"VLLEBRZ " 157; b"CLRCH   " 17; b"EPCTR   " 29; b"TROT    " 81;
    b"ADR     " 2; b"CHY     " 38; b"SIGP    " 10; b"ME      " 7; b"VLEH    " 157; b"LZXR    " 32; b"SSK     " 1; b"STNSM   " 16;
    b"LOCGRE  " 75; b"STOCGNP " 44; b"VLR     " 129; b"SPM     " 0; b"VSBIQ   " 131; b"WFMXB   " 130; b"CLGTNL  " 44;
    b"WFCSB   " 129; b"CRTNL   " 75; b"SLB     " 38; b"STMY    " 42; b"JNH     " 23; b"SY      " 38; b"LNGFR   " 29;
    b"VAP     " 114; b"MVCDK   " 107; b"VLREPH  " 156; b"VUPKZH  " 141; b"SRNMT   " 17; b"CLTE    " 44; b"VESLVB  " 130;
    b"VMALHW  " 131; b"CVB     " 6; b"VFKHESB " 130; b"CLGRJNE " 61; b"CLCLE   " 10; b"VESRAV  " 136; b"TDGDT   " 99;
    b"VERLLH  " 152; b"CPXT    " 96; b"STCM    " 11; b"MEE     " 99; b"VSEGH   " 129; b"BNMR    " 0; b"XHLR    " 57;
    b"VLLEBRZG" 156; b"VMH     " 136; b"CDLFBR  " 90; b"BAS     " 6; b"SLGFR   " 29; b"VPKLSGS " 130; b"VMRHG   " 130;
    b"VUPHB   " 129; b"WFKEDB  " 130; b"CLIJL   " 63; b"VFMDB   " 130; b"VSUMQF  " 130; b"STOCFHNO" 44; b"MYHR    " 74;
    b"LOCNL   " 44; b"VLCH    " 129; b"VSRA    " 130; b"BP      " 9; b"VLLEBRZH" 156; b"PCKMO   " 37; b"TML     " 20;
    b"KMCTR   " 76; b"LLIHH   " 20; b"CDGR    " 33; b"LOCGL   " 44; b"TBEDR   " 91; b"NR      " 1; b"VFEEFS  " 130; b"VREPI   " 124;
    b"VFIDB   " 142; b"CITL    " 66; b"CLRL    " 25; b"STRVH   " 38; b"VMLOG   " 130; b"VCEQGS  " 130; b"WFASB   " 130;
    b"IIHL    " 20; b"LLHR    " 29; b"KLMD    " 81; b"LLILH   " 20; b"STOCFHE " 44; b"CLRBE   " 94; b"WFKXB   " 129; b"STOCFHNM" 44;
    b"VAVGQ   " 130; b"VGMB    " 121; b"CPSDR   " 87; b"STOCGNZ " 44; b"VMLHG   " 130; b"CITE    " 66; b"BRNOL   " 27;
    b"CEXTR   " 34; b"LCEBR   " 34; b"VDL     " 137; b"CLTL    " 44; b"SWR     " 2; b"CLGIBE  " 71; b"STOCGO  " 44; b"MVCS    " 54;
    b"VFMAXSB " 136; b"AHY     " 38; b"SELRNO  " 76; b"CLFXBR  " 84; b"STAM    " 13; b"SRNM    " 17; b"LLILF   " 24;
    b"VCFEB   " 142; b"SRDA    " 12; b"LXE     " 99; b"TBEGIN  " 102; b"VSTM    " 154; b"VFNMSDB " 131; b"STPX    " 17;
    b"BROL    " 27; b"MVCL    " 1; b"CHLR    " 29; b"VCEQF   " 130; b"VLREPB  " 156; b"LTXR    " 34; b"PTFF    " 5; b"LOCHINM " 66;
    b"VPSOP   " 116; b"VMXF    " 130; b"VPOPCTH " 129; b"VCTZG   " 129; b"CAL     " 108; b"VMALHQ  " 131; b"VCLZH   " 129;
    b"MDTR    " 87; b"VERLLB  " 152; b"LRVG    " 38; b"TAR     " 35; b"VMXLQ   " 130; b"SELRNL  " 76; b"WFLNSB  " 129;
    b"EEXTR   " 30; b"VUPL    " 141; b"VACCCQ  " 131; b"SGFR    " 29; b"VLEDB   " 142; b"CGITE   " 66; b"LLGFI   " 24;
    b"VSTRCZF " 135; b"TMH     " 20; b"VSLDB   " 113; b"TDCDT   " 99; b"VFMINSB " 136; b"VFCEDBS " 130; b"WFPSOSB " 141;
    b"CEGBR   " 33; b"RCHP    " 18; b"VCHLH   " 130; b"VMLH    " 136; b"WFCEXB  " 130; b"VESRLH  " 152; b"LFAS    " 17;
    b"LARL    " 25; b"STFL    " 17; b"BINM    " 41; b"STOCFHO " 44; b"CLIJNH  " 63; b"CTZG    " 29; b"XHHR    " 57; b"VCVDQ   " 115;
    b"VMNH    " 130; b"WFDDB   " 130; b"VMLQ    " 130; b"LXDTR   " 89; b"VLRL    " 159; b"VESRAVF " 130; b"MGRK    " 76;
    b"JLO     " 27; b"VACCQ   " 130; b"VMLO    " 136; b"RIO     " 17; b"VTM     " 129; b"LXAQ    " 38; b"TCDB    " 99;
    b"SVC     " 4; b"BRML    " 27; b"VESLF   " 152; b"VFCH    " 138; b"CLTNL   " 44; b"VCTZ    " 141; b"MVO     " 53;
    b"LLCHHR  " 57; b"LOCE    " 44; b"VISTRBS " 129; b"VAVGLG  " 130; b"MSEBR   " 74; b"ISKE    " 29; b"CGH     " 38;
    b"VFAEFS  " 140; b"VISTRHS " 129; b"SCCTR   " 29; b"CGIB    " 72; b"CXUTR   " 33; b"SP      " 53; b"CGRJL   " 61;
    b"CGF     " 38; b"CRJL    " 61; b"LOCGHINH" 66; b"RDP     " 78; b"VLBRREP " 157; b"QSI     " 17; b"CDZT    " 96; b"LOCGHINL" 66;
    b"VLGVF   " 148; b"LOCGHINP" 66; b"VSB     " 130; b"CLRJNL  " 61; b"CXFBR   " 33; b"LOCGHINM" 66; b"VNO     " 130;
    b"VMEB    " 130; b"LR      " 1; b"SQDBR   " 34; b"WFLLD   " 129; b"LLGC    " 38; b"LOCFHRNE" 75; b"VMALEH  " 131;
    b"CRJE    " 61; b"STSI    " 17; b"VONE    " 110; b"CITNL   " 66; b"LOCFHRNL" 75; b"LOCGHINZ" 66; b"LOCFHRNO" 75; b"CELGBR  " 90;
    b"LOCFHRNP" 75; b"JLM     " 27; b"BRNHL   " 27; b"VCRNF   " 137; b"VMOG    " 130; b"CHHR    " 29; b"LOCHIM  " 66;
    b"WFIXB   " 142; b"WFTCISB " 117; b"VECLG   " 129; b"SLDA    " 12; b"VFKHESBS" 130; b"LOCFHRNZ" 75; b"DER     " 2;
    b"VLBRREPH" 156; b"LOCFHRNM" 75; b"ALSIH   " 24; b"CLIJE   " 63; b"CLGT    " 43; b"AGH     " 38; b"RLLG    " 42; b"DD      " 7;
    b"PC      " 17; b"LOCGNH  " 44; b"NI      " 16; b"LOCNE   " 44; b"WFSQDB  " 129; b"VUPHH   " 129; b"VLEBRH  " 157;
    b"VESRLB  " 152; b"MXTRA   " 88; b"TPEI    " 29; b"LOCGE   " 44; b"OY      " 38; b"BHR     " 0; b"CLGRTE  " 75; b"LGRL    " 25;
    b"CLGF    " 38; b"VCEQ    " 137; b"VAH     " 130; b"LOCGRNL " 75; b"VGFMB   " 130; b"LLILL   " 20; b"VREPB   " 119;
    b"TEND    " 18; b"LPR     " 1; b"CRTNE   " 75; b"TMLH    " 20; b"VMHH    " 130; b"BNER    " 0; b"LOCGHIE " 66; b"LOCFHRNH" 75;
    b"WFKESBS " 130; b"VFCHESB " 130; b"VPKSH   " 130; b"VCFPS   " 143; b"CDSG    " 42; b"LOCGHINO" 66; b"VMRHF   " 130;
    b"KDTR    " 34; b"CXR     " 34; b"LOCFHE  " 44; b"WFLPXB  " 129; b"VSCBIH  " 130; b"VFCHESBS" 130; b"MAY     " 100;
    b"LCDR    " 2; b"SELGRE  " 76; b"FLOGR   " 29; b"STOCFH  " 45; b"N       " 6; b"STOCGNH " 44; b"JLNP    " 27; b"TRTE    " 81;
    b"VPKG    " 130; b"STOCNP  " 44; b"WFMAXDB " 136; b"VCFN    " 142; b"LPDBR   " 34; b"CLRBL   " 94; b"LOCGR   " 80;
    b"CLGRJH  " 61; b"VCSPH   " 136; b"CLFITNE " 68; b"OILH    " 20; b"NNGRK   " 76; b"MSGFI   " 24; b"BER     " 0; b"BNL     " 9;
    b"VMAHQ   " 131; b"VCHLBS  " 130; b"VDF     " 136; b"BM      " 9; b"CLFHSI  " 102; b"SCKPF   " 5; b"VMALEB  " 131;
    b"VFADB   " 130; b"SPKA    " 17; b"STCY    " 38; b"VESRAVG " 130; b"NNRK    " 76; b"STRVG   " 38; b"CRJNL   " 61;
    b"LOCFHRE " 75; b"LPGR    " 29; b"WFCXB   " 129; b"LPP     " 17; b"VFCHSBS " 130; b"LLHFR   " 57; b"VAF     " 130;
    b"CLGIB   " 70; b"CDGTR   " 33; b"VLBRREPF" 156; b"STEY    " 39; b"NGR     " 29; b"VUPLF   " 129; b"CXGR    " 33;
    b"LOCGRL  " 75; b"LOCGHINE" 66; b"LXDR    " 34; b"FIEBR   " 91; b"LXDB    " 99; b"BSA     " 29; b"VLEF    " 157;
    b"STRAG   " 107; b"AHHHR   " 76; b"PCC     " 37; b"LFI     " 24; b"VSTRCZFS" 135; b"IEDTR   " 85; b"HIO     " 17;
    b"LGAT    " 38; b"STOCP   " 44; b"LOC     " 45; b"LRA     " 6; b"SQER    " 34; b"SRAG    " 42; b"STCK    " 17; b"WFCEDB  " 130;
    b"WFMINDB " 136; b"BRU     " 23; b"LNXR    " 34; b"VMALO   " 132; b"CLMY    " 43; b"VCLZG   " 129; b"AW      " 7;
    b"VSTRCH  " 135; b"NC      " 51; b"CLGIBL  " 71; b"QPACI   " 17; b"JO      " 23; b"STRV    " 38; b"CGRJNH  " 61;
    b"VMSLG   " 132; b"VCDG    " 143; b"CIJL    " 65; b"VLLEZ   " 157; b"CGRT    " 80; b"CXLFBR  " 90; b"AXR     " 2;
    b"CDB     " 99; b"VMALB   " 131; b"SG      " 38; b"ALGF    " 38; b"VLLEBRZF" 156; b"MSDR    " 74; b"PPNO    " 29;
    b"VCHG    " 130; b"OIHH    " 20; b"MVI     " 16; b"VGFMH   " 130; b"LOCRNP  " 75; b"WFKHEDBS" 130; b"CLIBNE  " 71;
    b"WFAXB   " 130; b"OGRK    " 76; b"VFLRD   " 142; b"VLEIB   " 124; b"CEFR    " 33; b"VMAEB   " 131; b"MDEBR   " 34;
    b"VPKLSHS " 130; b"LOCRP   " 75; b"STOCFHP " 44; b"CLGIBNL " 71; b"VSCBIB  " 130; b"CLGIJNE " 63; b"LAX     " 42; b"LPER    " 2;
    b"VGMG    " 121; b"VFLL    " 142; b"LOCGHIO " 66; b"WCDLGB  " 142; b"STGSC   " 38; b"CLTNE   " 44; b"VBLEND  " 132;
    b"VFDSB   " 130; b"CIJE    " 65; b"LEXR    " 34; b"XIY     " 104; b"BREL    " 27; b"CLRJ    " 58; b"SLGRK   " 76;
    b"VUPLHG  " 129; b"LOCHIZ  " 66; b"VCFPL   " 143; b"VSUMQG  " 130; b"SXTR    " 87; b"VMNF    " 130; b"CGDBRA  " 84;
    b"DXBR    " 34; b"LOCFHRO " 75; b"VMLOF   " 130; b"JL      " 23; b"BNH     " 9; b"VREPH   " 119; b"LAMY    " 46;
    b"VUPLHH  " 129; b"VCEQFS  " 130; b"VMNLQ   " 130; b"CGRJE   " 61; b"LOCGHI  " 67; b"MSGC    " 38; b"LOCHINE " 66;
    b"VFTCI   " 118; b"BNP     " 9; b"CHHSI   " 101; b"VCLZ    " 141; b"VN      " 130; b"L       " 6; b"VMLHF   " 130;
    b"CLGDTR  " 84; b"DSGF    " 38; b"WFMAXB  " 131; b"CITNE   " 66; b"SD      " 7; b"CRBE    " 94; b"VMSL    " 133; b"TRT     " 51;
    b"VRP     " 114; b"DIEBR   " 88; b"PKU     " 50; b"STCMY   " 43; b"VFENEZF " 130; b"VERIM   " 114; b"CLIBH   " 71;
    b"VAB     " 130; b"WFCHEDB " 130; b"CEBR    " 34; b"VSTRCB  " 135; b"ESXTR   " 30; b"MAEBR   " 74; b"MVHI    " 101;
    b"BRNML   " 27; b"SELRNP  " 76; b"CLGRT   " 80; b"SLRK    " 76; b"KMO     " 29; b"CUTFU   " 81; b"VCTZF   " 129;
    b"VFPSODB " 141; b"LOCFHR  " 80; b"VUPLG   " 129; b"WFKHEDB " 130; b"LXAH    " 38; b"MSG     " 38; b"THDR    " 34;
    b"WFCHEDBS" 130; b"VCEQG   " 130; b"CLIY    " 104; b"VCLFP   " 143; b"ADB     " 99; b"SLY     " 38; b"SSCH    " 17;
    b"QAXTR   " 88; b"VAVGLH  " 130; b"VLLEZLF " 156; b"VSCHP   " 137; b"CLGRTNL " 75; b"VFLCDB  " 129; b"VCVBQ   " 141;
    b"VMLF    " 130; b"SELFHRNH" 76; b"VBLENDF " 131; b"CLHHSI  " 102; b"LDR     " 2; b"SELFHRNE" 76; b"VFNMASB " 131;
    b"STCTG   " 47; b"CIJNL   " 65; b"SELFHRNL" 76; b"SELFHRNP" 76; b"LBH     " 38; b"CDLFTR  " 90; b"SRLK    " 42; b"LOCGNO  " 44;
    b"WFCESBS " 130; b"SELFHRNO" 76; b"LSCTL   " 17; b"LOCGRNM " 75; b"SORTL   " 29; b"WFKHXB  " 130; b"VCHLG   " 130;
    b"SLAG    " 42; b"LLHLHR  " 57; b"VZERO   " 110; b"SELFHRNZ" 76; b"VPKSHS  " 130; b"PACK    " 53; b"BRAS    " 21;
    b"TRACE   " 10; b"VSRD    " 113; b"VCHGS   " 130; b"VUPLL   " 141; b"CRJNE   " 61; b"VMALOF  " 131; b"VPKSG   " 130;
    b"FIDR    " 34; b"LTEBR   " 34; b"CDFBRA  " 90; b"J       " 23; b"VFTCIDB " 117; b"CU42    " 29; b"LLGH    " 38;
    b"WFLPDB  " 129; b"VGFMA   " 132; b"VLDE    " 142; b"VFEEZB  " 130; b"VNC     " 130; b"VAVGLB  " 130; b"CGXR    " 83;
    b"DFLTCC  " 76; b"VECL    " 141; b"MSE     " 100; b"MAYH    " 100; b"VFAEZH  " 140; b"SXTRA   " 88; b"VACCC   " 132;
    b"SELFHRNM" 76; b"STCTL   " 14; b"CSY     " 42; b"VFKESB  " 130; b"ALGHSIK " 60; b"TMHH    " 20; b"CLR     " 1; b"CRL     " 25;
    b"LOCFHL  " 44; b"CLGR    " 29; b"MVPG    " 29; b"VFKHDBS " 130; b"MAYLR   " 74; b"VMAEH   " 131; b"RDD     " 16;
    b"MP      " 53; b"RXSBG   " 59; b"CLGRTL  " 75; b"VESRAVH " 130; b"LDXBRA  " 92; b"VMEG    " 130; b"VCHLHS  " 130;
    b"VLERG   " 156; b"CDPT    " 96; b"SELRP   " 76; b"VUPLHB  " 129; b"PFMF    " 29; b"BRCL    " 26; b"VUPHG   " 129;
    b"VSTRCFS " 135; b"LAT     " 38;
};
